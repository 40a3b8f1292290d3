// The operand stack.

ghost use Rattle.std.specs.Prelude.{◌≡◌, ◌≤◌, ◌↔◌, ◌∷◌, ◌++◌, [], IsTrue, length, reverse, take, drop, OnOk};
ghost use Rattle.std.specs.Option.{option_map};
ghost use Rattle.wasm_syntax.specs.KnownStacks.{known_stack, anything, nothing, none_left, may_be as may_be_of, pop};
ghost use Rattle.wasm_validate.specs.Stacks.{operand_state, then_some, top_slot};

use base::NoMemory;
use module_index::{is_number, same_type};
use std::alloc::Global;
use std::marker::Model;
use wasm_syntax::ValType;

/// What is known of an operand: its type, or else that it is a number.
pub(crate) type Slot = Option<ValType>;

/// The operand stack. Contracts see what is known in the innermost block apart from what is below.
#[derive(Drop)]
pub(crate) struct Operands {
    slots: Vec<Slot>,
    height: usize,
    free: bool,
}

impl Model for Operands {
    ghost use Rattle.std.specs.Prelude.{◌≤◌, length};
    ghost use Rattle.wasm_validate.specs.Stacks.{OperandState, operand_state_at};

    ghost Value = { OperandState };

    ghost view = { λ s. operand_state_at s.height s.free s.slots.items };

    ghost invariant = { λ s. s.height ≤ length s.slots.items };
}

impl Operands {
    /// No operand, and nothing below. Takes no memory.
    pub(crate) fn new(alloc: Global) -> Operands
        ensures { result ≡ operand_state [] nothing }
    {
        Operands {
            slots: Vec::new(alloc),
            height: 0,
            free: false,
        }
    }

    /// Removes all operands. Takes no memory.
    pub(crate) fn clear(&mut self)
        ensures { self.new ≡ operand_state [] nothing }
    {
        self.slots.clear();
        self.height = 0;
        self.free = false;
    }

    /// Removes all operands of the innermost block; anything, or nothing, may be below them.
    pub(crate) fn restart(&mut self, free: bool)
        ensures { self.new ≡ operand_state self.old.outer (known_stack [] free) }
    {
        self.slots.truncate(self.height);
        self.free = free;
    }

    /// Takes an operand of this type off, if it may be one.
    pub(crate) fn pop(&mut self, ty: ValType) -> bool
        ensures outer { self.new.outer ≡ self.old.outer }
        ensures here { then_some result self.new.here ≡ pop ty self.old.here }
    {
        if self.slots.len() <= self.height {
            return self.free;
        }
        match self.slots.pop() {
            Some(slot) => may_be(ty, slot),
            None => self.free,
        }
    }

    /// Takes the operand on top off, whatever it is.
    pub(crate) fn take(&mut self) -> Option<Slot>
        ensures outer { self.new.outer ≡ self.old.outer }
        ensures here { option_map (λ slot. (slot, self.new.here)) result
            ≡ top_slot self.old.here.slots self.old.here.free }
    {
        if self.slots.len() <= self.height {
            return if self.free { Some(None) } else { None };
        }
        self.slots.pop()
    }

    /// Puts an operand on top.
    pub(crate) fn push(&mut self, slot: Slot) -> Result<(), NoMemory>
        ensures outer { self.new.outer ≡ self.old.outer }
        ensures here { OnOk result (self.new.here ≡ known_stack (slot ∷ self.old.here.slots) self.old.here.free) }
    {
        self.slots.push(slot)?;
        Ok(())
    }

    /// Where the operands of the innermost block begin, and whether anything may be below them.
    pub(crate) fn base(&self) -> (usize, bool)
        ensures height { result.0 ≡ length self.now.outer }
        ensures free { result.1 ≡ self.now.here.free }
    {
        (self.height, self.free)
    }

    /// Begins an inner block.
    pub(crate) fn enter(&mut self)
        ensures { self.new ≡ operand_state (self.old.outer ++ reverse self.old.here.slots) nothing }
    {
        self.height = self.slots.len();
        self.free = false;
    }

    /// Goes back to the block around this one.
    pub(crate) fn leave(&mut self, height: usize, free: bool)
        requires { height ≤ length self.old.outer }
        ensures { self.new
            ≡ operand_state (take height self.old.outer) (known_stack (reverse (drop height self.old.outer)) free) }
    {
        self.slots.truncate(self.height);
        self.height = height;
        self.free = free;
    }

    /// No operand is known to be there.
    pub(crate) fn is_empty(&self) -> bool
        ensures { result ≡ none_left self.now.here.slots }
    {
        self.slots.len() <= self.height
    }

    /// Nothing is known of the operands of the innermost block.
    pub(crate) fn is_anything(&self) -> bool
        ensures { IsTrue result ↔ (self.now.here ≡ anything) }
    {
        self.free && self.is_empty()
    }
}

/// An operand may have the type.
pub(crate) fn may_be(ty: ValType, slot: Slot) -> bool
    ensures { result ≡ may_be_of ty slot }
{
    match slot {
        None => is_number(ty),
        Some(slot) => same_type(slot, ty),
    }
}
