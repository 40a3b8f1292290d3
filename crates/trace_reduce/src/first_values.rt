// What a window finds first.

ghost use Rattle.std.specs.Prelude.{List, [], IfOk, OnOk};
ghost use Rattle.record_replay_spec.specs.LogTapes.{AreFirstFinds};
ghost use Rattle.trace_model.specs.declared.tapes.Effect.{Effect};
ghost use Rattle.trace_reduce.specs.Firsts.{AreFirsts, IsNextFind};

use crate::byte_groups::{Groups, sort_groups, take_bytes};
use crate::runs::effects_of;
use base::NoMemory;
use std::alloc::Global;
use std::collections::BTreeMap;
use trace_model::{Effect, Effects};
use wasm_syntax::Val;

/// What is found first, by kind: the memory's pages, the table's size, bytes in groups of addresses, table
/// entries and globals by index.
#[derive(Drop)]
pub(crate) struct Firsts {
    pub(crate) pages: Option<u32>,
    pub(crate) size: Option<u32>,
    pub(crate) bytes: Groups,
    pub(crate) entries: BTreeMap<u32, Option<u32>>,
    pub(crate) globals: BTreeMap<u32, Val>,
}

impl Firsts {
    /// No finds. Takes no memory.
    pub(crate) fn new(alloc: Global) -> Firsts
        ensures { AreFirsts [] result }
    {
        Firsts {
            pages: None,
            size: None,
            bytes: Vec::new(alloc),
            entries: BTreeMap::new(alloc),
            globals: BTreeMap::new(alloc),
        }
    }

    /// Takes a find if there was no find in its place.
    ///
    /// # Errors
    /// `NoMemory` if an allocation failed.
    pub(crate) fn take(&mut self, find: &Effect) -> Result<(), NoMemory>
        ensures { OnOk result (IsNextFind self.old find.now self.new) }
    {
        match find {
            Effect::Grow { pages } => {
                self.pages = self.pages.or(Some(*pages));
            }
            Effect::Table { size } => {
                self.size = self.size.or(Some(*size));
            }
            Effect::Bytes { addr, bytes } => take_bytes(&mut self.bytes, *addr, bytes.as_slice())?,
            Effect::Entry { index, func } => {
                self.entries.entry(*index)?.or_insert(*func);
            }
            Effect::Global { global, value } => {
                self.globals.entry(*global)?.or_insert(*value);
            }
        }
        Ok(())
    }

    /// The effects of what a window finds first, in the order of a tape, with bytes in longest runs. Sorts the
    /// groups of bytes.
    ///
    /// # Errors
    /// `NoMemory` if an allocation failed.
    pub(crate) fn effects(&mut self, alloc: Global) -> Result<Effects, NoMemory>
        ensures { IfOk result (λ effects. (finds : List Effect) → AreFirsts finds self.old
            → AreFirstFinds finds effects) }
    {
        sort_groups(&mut self.bytes)?;
        effects_of(alloc, self)
    }
}
