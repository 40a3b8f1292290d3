// The entries of a turn, in room that is used again for the next turn.

ghost use Rattle.std.specs.Prelude.{◌≡◌, ◌+◌, ◌^◌, ◌<◌, ◌≤◌, [], ◌∷◌, length, None, OnOk, true, option_to_list};
ghost use Rattle.history_spec.specs.declared.entries.Entry.TheVariants as entry;
ghost use Rattle.wasm_syntax.specs.Opcodes.{numeric_shape};
ghost use Rattle.wasm_numeric.specs.Opcode.{kind_of};
ghost use Rattle.wasm_flat.specs.Slots.{operands_of_shape, result_types};
ghost use Rattle.flat_steps.specs.FlatStep as flat_step;
ghost use Rattle.flat_steps.specs.FlatStep.{values_at};
ghost use Rattle.wasm_interp.specs.InstrEntries.{as_entry, entries_of};
ghost use Rattle.wasm_interp.specs.OpcodeTypes.{takes_two};
ghost use Rattle.wasm_interp.specs.Steps.{IsTypedOp, entry_by};

use crate::control::Control;
use crate::operands::{push_operands, push_result, push_two};
use crate::values::push_values;
use base::NoMemory;
use flat_steps::FlatFrame;
use history_spec::{Entry, TrapKind};
use std::alloc::Global;
use wasm_flat::{Flat, FlatInstr};
use wasm_syntax::{List, Val, ValType};

/// What a history contains of an instruction: its function and its number, its operands and results, what it
/// found, and its trap, if it traps. The lists keep their room for the next instruction.
#[derive(Debug, Drop)]
pub struct InstrEntry {
    pub func: u32,
    pub number: u32,
    pub operands: Vec<Val>,
    pub results: Vec<Val>,
    pub found: Option<u32>,
    pub trap: Option<TrapKind>,
}

/// The entries of a turn: that of its instruction, and those after it. The lists keep their room for the next
/// turn.
#[derive(Debug, Drop)]
pub struct TurnEntries {
    pub instr: InstrEntry,
    pub after: Vec<Entry>,
}

impl TurnEntries {
    /// An instruction without operands and results, and no entry after it. Takes no memory.
    pub fn new(alloc: Global) -> TurnEntries
        ensures { entries_of result ≡ entry.Step 0 0 [] [] None ∷ [] }
    {
        TurnEntries {
            instr: InstrEntry::new(alloc),
            after: Vec::new(alloc),
        }
    }
}

impl InstrEntry {
    /// An instruction without operands and results. Takes no memory.
    fn new(alloc: Global) -> InstrEntry
        ensures { as_entry result ≡ entry.Step 0 0 [] [] None }
    {
        InstrEntry {
            func: 0,
            number: 0,
            operands: Vec::new(alloc),
            results: Vec::new(alloc),
            found: None,
            trap: None,
        }
    }

    /// Converts this to an entry of a history. Takes no memory.
    pub(crate) fn into_entry(self) -> Entry
        ensures { result ≡ as_entry self }
    {
        let InstrEntry {
            func,
            number,
            operands,
            results,
            found,
            trap,
        } = self;
        let operands = List::from_vec(operands);
        match trap {
            None => Entry::Step {
                func,
                number,
                operands,
                results: List::from_vec(results),
                found,
            },
            Some(kind) => Entry::Trap {
                func,
                number,
                kind,
                operands,
                found,
            },
        }
    }

    /// Takes the operands and results of the last instruction away.
    #[inline(always)]
    pub(crate) fn clear(&mut self)
        ensures operands { self.new.operands.items ≡ [] }
        ensures results { self.new.results.items ≡ [] }
    {
        self.operands.clear();
        self.results.clear();
    }

    /// Records the operands of an instruction before it is executed, for an activation whose first slot is `base`.
    #[inline(always)]
    pub(crate) fn put_operands(
        &mut self,
        flat: &Flat,
        slots: &[u64],
        base: usize,
        i: &FlatInstr,
    ) -> Result<(), NoMemory>
        requires instr { IsTypedOp i.now.op }
        requires small { base ≤ length slots.now }
        ensures operands { OnOk result (self.new.operands.items ≡ flat_step.operands_at flat.now slots.now base i.now) }
        ensures results { self.new.results.items ≡ [] }
    {
        let _slots = slots.len();
        self.clear();
        push_operands(flat, &i.op, slots, base + i.at as usize, &mut self.operands)
    }

    /// Records the operand of an instruction that has one, of this type and in this slot, before it is executed.
    #[inline(always)]
    pub(crate) fn put_operand(
        &mut self,
        slots: &[u64],
        at: usize,
        ty: ValType,
    ) -> Result<(), NoMemory>
        requires { at < 2 ^ 63 }
        ensures operands { OnOk result (self.new.operands.items ≡ values_at slots.now at (ty ∷ [])) }
        ensures results { self.new.results.items ≡ [] }
    {
        self.clear();
        push_values(slots, at, &[ty], &mut self.operands)
    }

    /// Records the operands of a numeric instruction that takes two, from this slot on, before it is executed.
    #[inline(always)]
    pub(crate) fn put_two_operands(
        &mut self,
        slots: &[u64],
        at: usize,
        opcode: u8,
    ) -> Result<(), NoMemory>
        requires two { takes_two (kind_of opcode) ≡ true }
        requires small { at < 2 ^ 63 }
        ensures operands { OnOk result
            (self.new.operands.items ≡ values_at slots.now at (operands_of_shape (numeric_shape opcode))) }
        ensures results { self.new.results.items ≡ [] }
    {
        self.clear();
        push_two(opcode, slots, at, &mut self.operands)
    }

    /// Records what an instruction did, by the slots after it and by the type of its result, if it has one; its
    /// operands are already recorded here.
    #[inline(always)]
    pub(crate) fn put_control(
        &mut self,
        _flat: &Flat,
        slots: &[u64],
        frame: FlatFrame,
        i: &FlatInstr,
        ty: Option<ValType>,
        control: Control,
    ) -> Result<(), NoMemory>
        requires result { result_types i.now.op ≡ option_to_list ty }
        requires small { frame.base ≤ length slots.now }
        requires none { self.old.results.items ≡ [] }
        ensures { OnOk result
            (as_entry self.new ≡ entry_by _flat.now slots.now frame i.now self.old.operands.items control) }
    {
        let _slots = slots.len();
        self.func = frame.func;
        self.number = frame.number;
        match control {
            Control::Goes { found, .. } => {
                self.found = found;
                self.trap = None;
                let at = frame.base + i.at as usize;
                push_result(ty, slots, at, &mut self.results)
            }
            Control::Calls { found, .. } => {
                self.found = found;
                self.trap = None;
                Ok(())
            }
            Control::Traps { kind, found } => {
                self.found = found;
                self.trap = Some(kind);
                Ok(())
            }
        }
    }
}
