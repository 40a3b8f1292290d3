// What a plain instruction does to the operand stack.

ghost use Rattle.std.specs.Prelude.{◌≡◌, ◌++◌, [], ◌∷◌, reverse, Some, OnOk};
ghost use Rattle.wasm_syntax.specs.Typing.{results_of};
ghost use Rattle.wasm_syntax.specs.KnownStacks.{push_types, pops, common_slot as common_slot_of, ends};
ghost use Rattle.wasm_validate.specs.Stacks.{PassesAs, then_some};
ghost use Rattle.wasm_validate.specs.Changes.{after_select, after_replace, after_leave, after_change};

use crate::operands::{Operands, Slot, may_be};
use base::NoMemory;
use module_index::is_number;
use wasm_syntax::{FuncType, ValType};

/// A change of the operand stack.
#[derive(Clone, Copy)]
pub(crate) enum Change<'a> {
    /// Operands are taken, `first` on top of `second`, and a result is given.
    Moves {
        first: Option<ValType>,
        second: Option<ValType>,
        result: Option<ValType>,
    },
    /// Three operands are taken, `first` on top of `second`, and that on top of `third`.
    Takes {
        first: ValType,
        second: ValType,
        third: ValType,
    },
    /// The arguments of a call are taken, below the index of a call through the table, and its
    /// results are given.
    Calls {
        index: Option<ValType>,
        ty: &'a FuncType,
    },
    /// An operand of any type is taken.
    Drops,
    /// A condition and two numbers of one type are taken, and one is given.
    Selects,
    /// Control leads to a label, which takes what is below an index.
    Leaves {
        index: Option<ValType>,
        label: Option<ValType>,
    },
}

impl Operands {
    /// Makes the change, if the operands may be there.
    pub(crate) fn apply(&mut self, change: Change) -> Result<bool, NoMemory>
        ensures outer { self.new.outer ≡ self.old.outer }
        ensures here { PassesAs result self.new.here (after_change (Some change.entry) self.old.here) }
    {
        match change {
            Change::Moves {
                first,
                second,
                result,
            } => self.replace(first, second, result),
            Change::Takes {
                first,
                second,
                third,
            } => Ok(self.pop_three(first, second, third)),
            Change::Calls { index, ty } => self.call(index, ty),
            Change::Drops => Ok(self.take().is_some()),
            Change::Selects => self.choose(),
            Change::Leaves { index, label } => Ok(self.go(index, label)),
        }
    }

    /// Takes up to two operands off, and puts a result on.
    fn replace(
        &mut self,
        first: Option<ValType>,
        second: Option<ValType>,
        outcome: Option<ValType>,
    ) -> Result<bool, NoMemory>
        ensures outer { self.new.outer ≡ self.old.outer }
        ensures here { PassesAs result self.new.here
            (after_replace (results_of first ++ results_of second) (results_of outcome) self.old.here) }
    {
        if !self.pop_both(first, second) {
            return Ok(false);
        }
        self.push_known(outcome)?;
        Ok(true)
    }

    /// Takes the arguments of a call off, and puts its results on.
    fn call(&mut self, index: Option<ValType>, ty: &FuncType) -> Result<bool, NoMemory>
        ensures outer { self.new.outer ≡ self.old.outer }
        ensures here { PassesAs result self.new.here
            (after_replace (results_of index ++ reverse ty.now.params) (reverse ty.now.results) self.old.here) }
    {
        if !self.pop_known(index) || !self.pop_list(ty.params.as_slice()) {
            return Ok(false);
        }
        self.push_list(ty.results.as_slice())?;
        Ok(true)
    }

    /// Takes a condition and two numbers of one type off, and puts one back.
    fn choose(&mut self) -> Result<bool, NoMemory>
        ensures outer { self.new.outer ≡ self.old.outer }
        ensures here { PassesAs result self.new.here (after_select self.old.here) }
    {
        if !self.pop(ValType::I32) {
            return Ok(false);
        }
        let Some(first) = self.take() else {
            return Ok(false);
        };
        let Some(second) = self.take() else {
            return Ok(false);
        };
        let Some(slot) = common_slot(first, second) else {
            return Ok(false);
        };
        self.push(slot)?;
        Ok(true)
    }

    /// Pops what a label takes, below an index; after it anything may be on the stack.
    fn go(&mut self, index: Option<ValType>, label: Option<ValType>) -> bool
        ensures outer { self.new.outer ≡ self.old.outer }
        ensures here { then_some result self.new.here
            ≡ after_leave (results_of index ++ results_of label) self.old.here }
    {
        if !self.pop_both(index, label) {
            return false;
        }
        self.restart(true);
        true
    }

    /// Takes operands of these types off, `first` on top, if they may be there.
    fn pop_both(&mut self, first: Option<ValType>, second: Option<ValType>) -> bool
        ensures outer { self.new.outer ≡ self.old.outer }
        ensures here { then_some result self.new.here ≡ pops (results_of first ++ results_of second) self.old.here }
    {
        self.pop_known(first) && self.pop_known(second)
    }

    /// Takes three operands of these types off, `first` on top, if they may be there.
    fn pop_three(&mut self, first: ValType, second: ValType, third: ValType) -> bool
        ensures outer { self.new.outer ≡ self.old.outer }
        ensures here { then_some result self.new.here ≡ pops (first ∷ second ∷ third ∷ []) self.old.here }
    {
        self.pop(first) && self.pop(second) && self.pop(third)
    }

    /// Takes an operand of this type off, if there is a type and it may be one.
    fn pop_known(&mut self, ty: Option<ValType>) -> bool
        ensures outer { self.new.outer ≡ self.old.outer }
        ensures here { then_some result self.new.here ≡ pops (results_of ty) self.old.here }
    {
        match ty {
            None => true,
            Some(ty) => self.pop(ty),
        }
    }

    /// Puts an operand of this type on top, if there is a type.
    pub(crate) fn push_known(&mut self, ty: Option<ValType>) -> Result<(), NoMemory>
        ensures outer { self.new.outer ≡ self.old.outer }
        ensures here { OnOk result (self.new.here ≡ push_types (results_of ty) self.old.here) }
    {
        match ty {
            None => Ok(()),
            Some(ty) => self.push(Some(ty)),
        }
    }

    /// Takes operands of these types off, the last one on top, if they may be there.
    fn pop_list(&mut self, types: &[ValType]) -> bool
        ensures outer { self.new.outer ≡ self.old.outer }
        ensures here { then_some result self.new.here ≡ pops (reverse types.now) self.old.here }
    {
        let mut left = types.len();
        'types: while left > 0 {
            // If anything may be on the stack, there are as many more operands as are wanted.
            if self.is_anything() {
                return true;
            }
            left -= 1;
            if !self.pop(types[left]) {
                return false;
            }
        }
        true
    }

    /// Puts operands of these types on, the last one on top.
    fn push_list(&mut self, types: &[ValType]) -> Result<(), NoMemory>
        ensures outer { self.new.outer ≡ self.old.outer }
        ensures here { OnOk result (self.new.here ≡ push_types (reverse types.now) self.old.here) }
    {
        'types: for ty in types {
            self.push(Some(*ty))?;
        }
        Ok(())
    }

    /// Pops what a block leaves, and returns whether this may be all that there is.
    pub(crate) fn ends(&mut self, left: Option<ValType>) -> bool
        ensures outer { self.new.outer ≡ self.old.outer }
        ensures ends { result ≡ ends (results_of left) (Some self.old.here) }
    {
        self.pop_known(left) && self.is_empty()
    }
}

/// A number that both operands may be.
fn common_slot(one: Slot, other: Slot) -> Option<Slot>
    ensures { result ≡ common_slot_of one other }
{
    match (one, other) {
        (None, None) => Some(None),
        (None, Some(ty)) => is_number(ty).then_some(Some(ty)),
        (Some(ty), other) => (is_number(ty) && may_be(ty, other)).then_some(Some(ty)),
    }
}
