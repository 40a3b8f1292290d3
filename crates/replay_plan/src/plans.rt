// The plan of a tape, which is read from its end.

ghost use Rattle.std.specs.Prelude.{◌≡◌, [], replicate, IfOk, OnOk};
ghost use Rattle.wasm_syntax.specs.Index.{imported_funcs};
ghost use Rattle.trace_model.specs.declared.tapes.Origin.TheVariants.{Import};
ghost use Rattle.replay_module_spec.specs.Plans.{around_innermost, innermost, left_of, plan_of, with_origin, with_segment};
ghost use Rattle.replay_plan.specs.Reading.{left_before, left_from, nothing_left};

use crate::front_list::FrontList;
use base::NoMemory;
use module_index::scope::Scope;
use replay_module_spec::{Calls, Plan};
use std::alloc::Global;
use std::marker::Model;
use trace_model::{Next, Origin, Segment, Segments, Tape};
use wasm_syntax::{List, Module};

/// The rest of a tape that is read from its end.
#[derive(Drop)]
pub(crate) struct Remainder {
    /// The segments of each activation of the host that goes on, the innermost first.
    begun: FrontList<FrontList<Segment>>,
    /// The calls of each imported function that are still to begin.
    calls: Vec<FrontList<Segments>>,
}

impl Model for Remainder {
    ghost use Rattle.replay_module_spec.specs.Plans.{Left};

    ghost Value = { Left };

    ghost view = { λ remainder. record { begun = remainder.begun; calls = remainder.calls.items } };
}

/// The plan of a tape for a module: which of its segments each activation of the host has. They are moved and
/// not copied.
///
/// # Errors
///
/// `NoMemory` if memory is out.
pub fn plan(alloc: Global, tape: Tape, module: &Module) -> Result<Plan, NoMemory>
    ensures { IfOk result (λ plan. plan ≡ plan_of (imported_funcs «module».now) tape) }
{
    let imports = Scope::of(alloc, module)?.imported_funcs();
    let remainder = Remainder::of_segments(alloc, tape.segments, imports)?;
    remainder.into_plan(alloc)
}

impl Remainder {
    /// The rest that segments make, for a module with this number of imported functions.
    fn of_segments(alloc: Global, segments: Segments, imports: usize) -> Result<Remainder, NoMemory>
        ensures { IfOk result (λ left. left ≡ left_of imports segments) }
    {
        let mut remainder = Remainder::new(alloc, imports)?;
        remainder.read_all(alloc, segments.into_vec())?;
        Ok(remainder)
    }

    /// The rest at the end of a tape.
    fn new(alloc: Global, imports: usize) -> Result<Remainder, NoMemory>
        ensures { IfOk result (λ left. left ≡ nothing_left imports) }
    {
        let mut calls = Vec::with_capacity(alloc, imports)?;
        'imports: for _ in 0..imports {
            calls.push(FrontList::new(alloc))?;
        }
        Ok(Remainder {
            begun: FrontList::new(alloc),
            calls,
        })
    }

    /// Reads segments, the last of them first.
    fn read_all(&mut self, alloc: Global, segments: Vec<Segment>) -> Result<(), NoMemory>
        ensures { OnOk result (self.new ≡ left_from segments.items self.old) }
    {
        let mut segments = segments;
        'segments: while let Some(segment) = segments.pop() {
            self.take_segment(alloc, segment)?;
        }
        Ok(())
    }

    /// Reads the segment in front of the rest.
    fn take_segment(&mut self, alloc: Global, segment: Segment) -> Result<(), NoMemory>
        ensures { OnOk result (self.new ≡ left_before segment self.old) }
    {
        let origin = segment.origin;
        self.put(alloc, segment)?;
        match origin {
            Origin::Import(import) => self.begin_call(alloc, import),
            _ => Ok(()),
        }
    }

    /// Puts a segment into the activation that it belongs to.
    fn put(&mut self, alloc: Global, segment: Segment) -> Result<(), NoMemory>
        ensures begun { OnOk result (self.new.begun ≡ with_segment segment segment.next self.old.begun) }
        ensures calls { self.new.calls ≡ self.old.calls }
    {
        let mut segments = match segment.next {
            Next::Call { .. } => self.take_innermost(alloc),
            _ => FrontList::new(alloc),
        };
        segments.push(segment)?;
        self.begun.push(segments)
    }

    /// Begins the innermost activation, by a call of an import.
    fn begin_call(&mut self, alloc: Global, import: u32) -> Result<(), NoMemory>
        ensures { OnOk result (self.new ≡ with_origin (Import import) self.old.begun self.old.calls) }
    {
        let call = self.take_innermost(alloc).into_list();
        if let Some(calls) = self.calls.get_mut(import as usize) {
            calls.push(call)?;
        }
        Ok(())
    }

    /// Removes the innermost activation and returns its segments, or no segments if there is none.
    fn take_innermost(&mut self, alloc: Global) -> FrontList<Segment>
        ensures result { result ≡ innermost self.old.begun }
        ensures begun { self.new.begun ≡ around_innermost self.old.begun }
        ensures calls { self.new.calls ≡ self.old.calls }
    {
        match self.begun.pop() {
            Some(segments) => segments,
            None => FrontList::new(alloc),
        }
    }

    /// The plan of a tape that was read to its beginning.
    fn into_plan(self, alloc: Global) -> Result<Plan, NoMemory>
        ensures { IfOk result (λ plan. plan ≡ record { begin = innermost self.begun; imports = self.calls }) }
    {
        let mut remainder = self;
        let begin = remainder.take_innermost(alloc).into_list();
        let Remainder { calls, .. } = remainder;
        let imports = lists_of_calls(alloc, calls)?;
        Ok(Plan { begin, imports })
    }
}

/// The lists of calls, in the type that a plan has.
fn lists_of_calls(alloc: Global, calls: Vec<FrontList<Segments>>) -> Result<Calls, NoMemory>
    ensures { IfOk result (λ lists. lists ≡ calls.items) }
{
    let mut lists = Vec::with_capacity(alloc, calls.len())?;
    'calls: for list in calls {
        lists.push(list.into_list())?;
    }
    Ok(List::from_vec(lists))
}
