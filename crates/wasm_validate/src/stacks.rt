// The control stack.

ghost use Rattle.std.specs.Prelude.{◌≡◌, [], map, reverse, Option, None, Some, OnOk};
ghost use Rattle.std.specs.Prelude.{slice_get, option_map};
ghost use Rattle.wasm_syntax.specs.Typing.{is_block_type as is_type_of_block, results_of};
ghost use Rattle.wasm_syntax.specs.KnownStacks.{nothing, pop};
ghost use Rattle.wasm_syntax.specs.declared.values.ValType.TheVariants.{I32};
ghost use Rattle.wasm_validate.specs.declared.stacks.Kind.TheVariants.{If};
ghost use Rattle.wasm_validate.specs.Stacks.{PassesAs, then_some};
ghost use Rattle.wasm_validate.specs.Flat.{state, body_start, after_open, after_else, after_end, label_of, label_of_kind};
ghost use Rattle.wasm_validate.specs.Flat.{is_if as is_if_kind, is_closed as is_closed_within, may_close as may_close_of};
ghost use Rattle.wasm_validate.specs.Changes.{after_change};

use crate::changes::Change;
use crate::operands::Operands;
use base::NoMemory;
use module_index::is_number;
use std::alloc::Global;
use std::marker::Model;
use wasm_syntax::ValType;

/// What a block was opened by. The second part of an `if` and the body of a function are as a block.
#[derive(Clone, Copy)]
pub(crate) enum Kind {
    Block,
    Loop,
    If,
}

/// An open block: its kind and its result; and for the block around it where its operands begin, and
/// whether anything may be below them.
#[derive(Clone, Copy)]
pub(crate) struct Frame {
    pub(crate) kind: Kind,
    pub(crate) result: Option<ValType>,
    pub(crate) height: usize,
    pub(crate) free: bool,
}

impl Frame {
    /// What the block's label takes.
    fn label(&self) -> Option<ValType>
        ensures { results_of result ≡ label_of_kind self.now.kind self.now.result }
    {
        match self.kind {
            Kind::Loop => None,
            Kind::Block | Kind::If => self.result,
        }
    }
}

/// The operand stack and the control stack. Contracts see the open blocks with what is known below
/// each, and what is known in the innermost one.
#[derive(Drop)]
pub(crate) struct Stacks {
    operands: Operands,
    frames: Vec<Frame>,
}

impl Model for Stacks {
    ghost use Rattle.std.specs.Prelude.{reverse};
    ghost use Rattle.wasm_validate.specs.Flat.{State, state};
    ghost use Rattle.wasm_validate.specs.Stacks.{levels_of, AreHeights};

    ghost Value = { State };

    ghost view = { λ s. state (levels_of (reverse s.frames.items) s.operands.outer) s.operands.here };

    ghost invariant = { λ s. AreHeights (reverse s.frames.items) s.operands.outer };
}

impl Stacks {
    /// No open block. Takes no memory.
    pub(crate) fn new(alloc: Global) -> Stacks
        ensures { result ≡ state [] nothing }
    {
        Stacks {
            operands: Operands::new(alloc),
            frames: Vec::new(alloc),
        }
    }

    /// Begins the body of a function with this result.
    pub(crate) fn begin(&mut self, outcome: Option<ValType>) -> Result<(), NoMemory>
        ensures { OnOk result (self.new ≡ body_start outcome) }
    {
        self.frames.clear();
        self.operands.clear();
        self.frames.push(Frame {
            kind: Kind::Block,
            result: outcome,
            height: 0,
            free: false,
        })?;
        Ok(())
    }

    /// Whether the body is closed.
    pub(crate) fn is_closed(&self) -> bool
        ensures { result ≡ is_closed_within self.now.levels }
    {
        self.frames.is_empty()
    }

    /// Opens a block with this result.
    pub(crate) fn open(&mut self, kind: Kind, outcome: Option<ValType>) -> Result<bool, NoMemory>
        ensures { PassesAs result self.new (after_open kind outcome self.old.levels (Some self.old.here)) }
    {
        if !is_block_type(outcome) {
            return Ok(false);
        }
        let (height, free) = self.operands.base();
        self.frames.push(Frame {
            kind,
            result: outcome,
            height,
            free,
        })?;
        self.operands.enter();
        Ok(true)
    }

    /// Opens the first part of an `if` with this result, below a condition.
    pub(crate) fn open_if(&mut self, outcome: Option<ValType>) -> Result<bool, NoMemory>
        ensures { PassesAs result self.new (after_open If outcome self.old.levels (pop I32 self.old.here)) }
    {
        if !self.operands.pop(ValType::I32) {
            return Ok(false);
        }
        self.open(Kind::If, outcome)
    }

    /// Ends the first part of an `if`, and begins the second.
    pub(crate) fn part(&mut self) -> bool
        ensures { then_some result self.new ≡ after_else self.old.levels self.old.here }
    {
        let Some(last) = self.frames.len().checked_sub(1) else {
            return false;
        };
        let frame = self.frames[last];
        if !is_if(frame.kind) || !self.operands.ends(frame.result) {
            return false;
        }
        self.frames[last] = Frame {
            kind: Kind::Block,
            ..frame
        };
        self.operands.restart(false);
        true
    }

    /// Closes the innermost block.
    pub(crate) fn close(&mut self) -> Result<bool, NoMemory>
        ensures { PassesAs result self.new (after_end self.old.levels self.old.here) }
    {
        let Some(&frame) = self.frames.last() else {
            return Ok(false);
        };
        if !may_close(frame.kind, frame.result) || !self.operands.ends(frame.result) {
            return Ok(false);
        }
        self.frames.truncate(self.frames.len() - 1);
        self.operands.leave(frame.height, frame.free);
        self.operands.push_known(frame.result)?;
        Ok(true)
    }

    /// Makes a change of the operands, if they may be there.
    pub(crate) fn apply(&mut self, change: Change) -> Result<bool, NoMemory>
        ensures { PassesAs result self.new
            (option_map (state self.old.levels) (after_change (Some change.entry) self.old.here)) }
    {
        self.operands.apply(change)
    }

    /// What the label of this index takes.
    pub(crate) fn label(&self, index: u32) -> Option<Option<ValType>>
        ensures { option_map results_of result ≡ slice_get (map label_of self.now.levels) index }
    {
        let place = self.frames.len().checked_sub(1 + index as usize)?;
        Some(self.frames[place].label())
    }
}

/// A block's result is a number.
fn is_block_type(outcome: Option<ValType>) -> bool
    ensures { result ≡ is_type_of_block outcome }
{
    match outcome {
        None => true,
        Some(ty) => is_number(ty),
    }
}

/// A second part may follow.
fn is_if(kind: Kind) -> bool
    ensures { result ≡ is_if_kind kind }
{
    matches!(kind, Kind::If)
}

/// A block may be closed: an `if` without a second part has no result.
fn may_close(kind: Kind, outcome: Option<ValType>) -> bool
    ensures { result ≡ may_close_of kind outcome }
{
    match kind {
        Kind::If => outcome.is_none(),
        Kind::Block | Kind::Loop => true,
    }
}
