// A reducer as the sink of a log's events.

ghost use Rattle.std.specs.Prelude.{◌≡◌, [], OnOk, OnErr};
ghost use Rattle.trace_reduce.specs.Reducer.{HasLost, HasTaken, imports_of, most_of};
ghost use Rattle.r3_reduce.specs.TapeFiles.{TakesNext};
ghost use Rattle.wasm_syntax.specs.declared.limits.TheConstants.{MAX_TRACE_BYTES};

use base::NoMemory;
use std::alloc::Global;
use trace_format::LogSink;
use trace_model::Event;
use trace_reduce::Reducer;
use wasm_syntax::limits::MAX_TRACE_BYTES;

/// Takes events as its reducer does. The tape may weigh as much as the log's file may have bytes.
#[derive(Drop)]
pub(crate) struct ReducerSink {
    pub(crate) reducer: Reducer,
}

impl ReducerSink {
    /// A sink that has taken no event, for a log of a module with this number of imported functions. Takes no
    /// memory.
    pub(crate) fn new(alloc: Global, imports: u32) -> ReducerSink
        ensures taken { HasTaken result.reducer [] }
        ensures keeps { HasLost result.reducer → ⊥ }
        ensures imports { imports_of result.reducer ≡ imports }
        ensures most { most_of result.reducer ≡ MAX_TRACE_BYTES }
    {
        ReducerSink {
            reducer: Reducer::new(alloc, imports, MAX_TRACE_BYTES),
        }
    }

    /// The reducer.
    pub(crate) fn into_reducer(self) -> Reducer
        ensures { result ≡ self.reducer }
    {
        let ReducerSink { reducer } = self;
        reducer
    }
}

impl LogSink for ReducerSink {
    ghost use Rattle.r3_reduce.specs.TapeFiles.{TakesNext};

    ghost takes = { λ before event now. TakesNext before.reducer event now.reducer };

    fn take(&mut self, event: Event) -> Result<(), NoMemory>
        ensures ok { OnOk result (TakesNext self.old.reducer event self.new.reducer) }
        ensures keeps { OnOk result (HasLost self.new.reducer → ⊥) }
        ensures loses { OnErr result (HasLost self.new.reducer) }
    {
        self.reducer.push(event)
    }
}
