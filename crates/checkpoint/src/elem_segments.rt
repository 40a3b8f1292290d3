// The element segments of a known state.

ghost use Rattle.std.specs.Prelude.{◌≡◌, ℕ, ◌+◌, ◌<◌, ◌^◌, List, Option, Some, None, [], ◌∷◌, ◌++◌, length, map, IfOk, OnOk};
ghost use Rattle.rest_spec.specs.StateSegments.{elem_segments};
ghost use Rattle.checkpoint.specs.ElemRuns.{segments_by, segments_of_run};
ghost use Rattle.checkpoint.specs.FrozenStates.{state_of_frozen};

use crate::constants::offset_at;
use base::NoMemory;
use recorder::Frozen;
use std::alloc::Global;
use std::mem;
use wasm_syntax::{ElemSeg, ElemSegs, List};

/// Element segments, and the run of functions after them that still grows, from an index on.
#[derive(Drop)]
pub(crate) struct ElemRuns {
    elems: Vec<ElemSeg>,
    start: u64,
    funcs: Vec<u32>,
}

impl ElemRuns {
    /// Appends the run to the segments if it has functions.
    fn close(&mut self, alloc: Global) -> Result<(), NoMemory>
        ensures elems { OnOk result
            (self.new.elems.items ≡ self.old.elems.items ++ segments_of_run self.old.start self.old.funcs.items) }
        ensures funcs { OnOk result (self.new.funcs.items ≡ []) }
    {
        if self.funcs.is_empty() {
            return Ok(());
        }
        let offset = offset_at(alloc, self.start)?;
        let funcs = mem::replace(&mut self.funcs, Vec::new(alloc));
        self.elems.push(ElemSeg::Active {
            table: 0,
            offset,
            funcs: List::from_vec(funcs),
        })?;
        Ok(())
    }

    /// Takes the entry of the next index.
    fn take(&mut self, alloc: Global, index: u32, entry: Option<u32>) -> Result<(), NoMemory>
        requires { self.old.start + length self.old.funcs.items ≡ index }
        ensures place { OnOk result (self.new.start + length self.new.funcs.items ≡ index + 1) }
        ensures segments { OnOk result ((later : List (Option ℕ))
            → segments_by self.new later ≡ segments_by self.old (entry ∷ later)) }
    {
        match entry {
            Some(func) => self.take_func(func),
            None => self.take_none(alloc, index),
        }
    }

    /// Takes an entry that is there: its function belongs to the run.
    fn take_func(&mut self, func: u32) -> Result<(), NoMemory>
        ensures place { OnOk result
            (self.new.start + length self.new.funcs.items ≡ self.old.start + length self.old.funcs.items + 1) }
        ensures segments { OnOk result ((later : List (Option ℕ))
            → segments_by self.new later ≡ segments_by self.old (Some func ∷ later)) }
    {
        self.funcs.push(func)?;
        Ok(())
    }

    /// Takes the entry of the next index, which is empty: the run ends.
    fn take_none(&mut self, alloc: Global, index: u32) -> Result<(), NoMemory>
        requires { self.old.start + length self.old.funcs.items ≡ index }
        ensures place { OnOk result (self.new.start + length self.new.funcs.items ≡ index + 1) }
        ensures segments { OnOk result ((later : List (Option ℕ))
            → segments_by self.new later ≡ segments_by self.old (None ∷ later)) }
    {
        self.close(alloc)?;
        self.start = u64::from(index) + 1;
        Ok(())
    }
}

/// The element segments of what was frozen: the longest runs of entries that are there. Takes time in the size of the
/// table.
pub(crate) fn frozen_elems(alloc: Global, frozen: &Frozen) -> Result<ElemSegs, NoMemory>
    ensures { IfOk result (λ elems. elems ≡ elem_segments (state_of_frozen frozen.now).entries) }
{
    let mut runs = ElemRuns {
        elems: Vec::new(alloc),
        start: 0,
        funcs: Vec::new(alloc),
    };
    'entries: for index in 0..frozen.entries() {
        runs.take(alloc, index, frozen.entry(index))?;
    }
    runs.close(alloc)?;
    Ok(List::from_vec(runs.elems))
}
