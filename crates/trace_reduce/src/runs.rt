// The effects of what is found first, in the order of a tape.

ghost use Rattle.std.specs.Prelude.{◌≡◌, ◌+◌, ◌*◌, ◌^◌, ◌<◌, ◌∷◌, List, Option, ℕ, [], ◌++◌, length, map, take, IfOk, OnOk};
ghost use Rattle.std.specs.Ordering.{nat_cmp};
ghost use Rattle.std.specs.BTreeMap.{IsOrdered};
ghost use Rattle.trace_reduce.specs.ByteGroups.{AreInOrder, bytes_of, merged_from, merged_groups, slot_bytes};
ghost use Rattle.trace_reduce.specs.declared.byte_groups.TheConstants.{GROUP};
ghost use Rattle.trace_reduce.specs.Runs.{runs_from, entry_effect, global_effect, firsts_effects, AreSorted};

use crate::byte_groups::{GROUP, Group, Slots, take_others};
use crate::first_values::Firsts;
use base::NoMemory;
use std::alloc::Global;
use std::collections::BTreeMap;
use std::mem;
use trace_model::{Effect, Effects};
use wasm_syntax::{Bytes, Val};

/// Effects, and the run of bytes after them that still grows.
#[derive(Drop)]
pub(crate) struct Runs {
    pub(crate) effects: Vec<Effect>,
    pub(crate) start: u64,
    pub(crate) run: Vec<u8>,
}

impl Runs {
    /// Appends the run to the effects if it has bytes.
    fn close(&mut self, alloc: Global) -> Result<(), NoMemory>
        ensures { OnOk result ((self.new.effects.items
            ≡ self.old.effects.items ++ runs_from self.old.start self.old.run.items [])
            × (self.new.run.items ≡ [])) }
    {
        if self.run.is_empty() {
            return Ok(());
        }
        // A run begins at the address of a find, so its address always fits.
        let Ok(addr) = u32::try_from(self.start) else {
            return Err(NoMemory);
        };
        let bytes = mem::replace(&mut self.run, Vec::new(alloc));
        self.effects.push(Effect::Bytes {
            addr,
            bytes: Bytes::from_vec(bytes),
        })?;
        Ok(())
    }

    /// Appends the byte at an address to the run, or begins another run.
    fn put(&mut self, alloc: Global, at: u64, byte: u8) -> Result<(), NoMemory>
        ensures { OnOk result ((later : List (ℕ × ℕ))
            → self.old.effects.items ++ runs_from self.old.start self.old.run.items ((at, byte) ∷ later)
            ≡ self.new.effects.items ++ runs_from self.new.start self.new.run.items later) }
    {
        if self.start.checked_add(self.run.len() as u64) != Some(at) {
            self.close(alloc)?;
            self.start = at;
        }
        self.run.push(byte)?;
        Ok(())
    }

    /// Takes the byte of a slot for an address, if there is one.
    fn put_slot(&mut self, alloc: Global, at: u64, slot: Option<u8>) -> Result<(), NoMemory>
        ensures { OnOk result ((slots : List (Option ℕ)) (later : List (ℕ × ℕ))
            → self.old.effects.items
            ++ runs_from self.old.start self.old.run.items (slot_bytes at (slot ∷ slots) ++ later)
            ≡ self.new.effects.items
            ++ runs_from self.new.start self.new.run.items (slot_bytes (at + 1) slots ++ later)) }
    {
        match slot {
            Some(byte) => self.put(alloc, at, byte),
            None => Ok(()),
        }
    }
}

/// Takes the bytes of slots for the addresses from `at` on.
fn put_slots(
    runs: &mut Runs,
    alloc: Global,
    start: u64,
    slots: &[Option<u8>],
) -> Result<(), NoMemory>
    requires within { start + length slots.now < 2 ^ 64 }
    ensures { OnOk result ((later : List (ℕ × ℕ))
        → runs.old.effects.items ++ runs_from runs.old.start runs.old.run.items (slot_bytes start slots.now ++ later)
        ≡ runs.new.effects.items ++ runs_from runs.new.start runs.new.run.items later) }
{
    let mut at = start;
    'slots: for slot in slots {
        runs.put_slot(alloc, at, *slot)?;
        at += 1;
    }
    Ok(())
}

/// Takes the bytes of a group.
fn put_group(runs: &mut Runs, alloc: Global, number: u32, slots: &Slots) -> Result<(), NoMemory>
    ensures { OnOk result ((later : List (ℕ × ℕ))
        → runs.old.effects.items ++ runs_from runs.old.start runs.old.run.items
        (slot_bytes (number * GROUP) (take GROUP slots.now) ++ later)
        ≡ runs.new.effects.items ++ runs_from runs.new.start runs.new.run.items later) }
{
    put_slots(runs, alloc, number as u64 * GROUP, &slots[..])
}

/// Merges the next group into the one before it if they have the same number; otherwise takes the bytes of that
/// one.
fn put_next(runs: &mut Runs, alloc: Global, group: &mut Group, next: &Group) -> Result<(), NoMemory>
    ensures { OnOk result ((later : List (ℕ × List (Option ℕ)))
        → runs.old.effects.items
        ++ runs_from runs.old.start runs.old.run.items (bytes_of (merged_from group.old (next.now ∷ later)))
        ≡ runs.new.effects.items
        ++ runs_from runs.new.start runs.new.run.items (bytes_of (merged_from group.new later))) }
{
    if group.0 == next.0 {
        take_others(&mut group.1, &next.1);
    } else {
        put_group(runs, alloc, group.0, &group.1)?;
        *group = *next;
    }
    Ok(())
}

/// Takes the bytes of a group and of the groups after it.
fn put_groups(
    runs: &mut Runs,
    alloc: Global,
    first: &Group,
    others: &[Group],
) -> Result<(), NoMemory>
    ensures { OnOk result (runs.old.effects.items
        ++ runs_from runs.old.start runs.old.run.items (bytes_of (merged_from first.now others.now))
        ≡ runs.new.effects.items ++ runs_from runs.new.start runs.new.run.items []) }
{
    let mut group = *first;
    'others: for next in others {
        put_next(runs, alloc, &mut group, next)?;
    }
    put_group(runs, alloc, group.0, &group.1)?;
    Ok(())
}

/// Appends bytes in longest runs.
fn put_bytes(alloc: Global, effects: Vec<Effect>, groups: &[Group]) -> Result<Vec<Effect>, NoMemory>
    ensures { IfOk result (λ all. all.items ≡ effects.items ++ runs_from 0 [] (bytes_of (merged_groups groups.now))) }
{
    let mut runs = Runs {
        effects,
        start: 0,
        run: Vec::new(alloc),
    };
    if let Some((first, others)) = groups.split_first() {
        put_groups(&mut runs, alloc, first, others)?;
    }
    runs.close(alloc)?;
    let Runs { effects, .. } = runs;
    Ok(effects)
}

/// Appends the effects of table entries.
fn put_entries(
    effects: &mut Vec<Effect>,
    entries: &BTreeMap<u32, Option<u32>>,
) -> Result<(), NoMemory>
    ensures all { OnOk result (effects.new.items ≡ effects.old.items ++ map entry_effect entries.now.entries) }
    ensures ordered { IsOrdered nat_cmp entries.now }
{
    'entries: for (&index, &func) in entries {
        effects.push(Effect::Entry { index, func })?;
    }
    Ok(())
}

/// Appends the effects of globals.
fn put_globals(effects: &mut Vec<Effect>, globals: &BTreeMap<u32, Val>) -> Result<(), NoMemory>
    ensures all { OnOk result (effects.new.items ≡ effects.old.items ++ map global_effect globals.now.entries) }
    ensures ordered { IsOrdered nat_cmp globals.now }
{
    'globals: for (&global, &value) in globals {
        effects.push(Effect::Global { global, value })?;
    }
    Ok(())
}

/// What is found first, as effects in the order of a tape.
///
/// # Errors
/// `NoMemory` if an allocation failed.
pub(crate) fn effects_of(alloc: Global, firsts: &Firsts) -> Result<Effects, NoMemory>
    requires in_order { AreInOrder 0 firsts.now.bytes.items }
    ensures effects { IfOk result (λ effects. effects ≡ firsts_effects firsts.now) }
    ensures sorted { IfOk result (λ effects. AreSorted firsts.now) }
{
    let mut effects = Vec::new(alloc);
    if let Some(pages) = firsts.pages {
        effects.push(Effect::Grow { pages })?;
    }
    if let Some(size) = firsts.size {
        effects.push(Effect::Table { size })?;
    }
    let mut effects = put_bytes(alloc, effects, firsts.bytes.as_slice())?;
    put_entries(&mut effects, &firsts.entries)?;
    put_globals(&mut effects, &firsts.globals)?;
    Ok(Effects::from_vec(effects))
}
