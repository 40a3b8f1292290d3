// The activations of the machine.

ghost use Rattle.std.specs.Prelude.{◌≡◌, List, [], ◌∷◌, OnOk, OnErr};
ghost use Rattle.flat_steps.specs.FlatStep.{frame_at};
ghost use Rattle.wasm_interp.specs.Frames.{top_of, below_of, with_number};

use base::NoMemory;
use flat_steps::FlatFrame;
use std::alloc::Global;
use std::marker::Model;

/// Activations; contracts see the topmost first.
#[derive(Drop)]
pub(crate) struct Frames {
    items: Vec<FlatFrame>,
}

impl Model for Frames {
    ghost use Rattle.std.specs.Prelude.{List, reverse};
    ghost use Rattle.flat_steps.specs.declared.frames.FlatFrame.{FlatFrame};

    ghost Value = { List FlatFrame };

    ghost view = { λ frames. reverse frames.items.items };
}

impl Frames {
    /// No activation. Takes no memory.
    pub(crate) fn new(alloc: Global) -> Frames
        ensures { result ≡ [] }
    {
        Frames {
            items: Vec::new(alloc),
        }
    }

    /// The allocator.
    pub(crate) fn allocator(&self) -> Global {
        *self.items.allocator()
    }

    /// The topmost activation.
    #[inline(always)]
    pub(crate) fn top(&self) -> Option<FlatFrame>
        ensures { result ≡ top_of self.now }
    {
        self.items.last().copied()
    }

    /// Puts an activation on top. After a refusal nothing is changed.
    #[inline(always)]
    pub(crate) fn push(&mut self, frame: FlatFrame) -> Result<(), NoMemory>
        ensures ok { OnOk result (self.new ≡ frame ∷ self.old) }
        ensures err { OnErr result (self.new ≡ self.old) }
    {
        self.items.push(frame)?;
        Ok(())
    }

    /// Puts an activation of a function on top, before its first instruction.
    #[inline(always)]
    pub(crate) fn push_start(&mut self, func: u32, base: usize) -> Result<(), NoMemory>
        ensures ok { OnOk result (self.new ≡ frame_at func 0 base ∷ self.old) }
        ensures err { OnErr result (self.new ≡ self.old) }
    {
        self.push(FlatFrame {
            func,
            number: 0,
            base,
        })
    }

    /// Removes the topmost activation, if there is one.
    #[inline(always)]
    pub(crate) fn pop(&mut self)
        ensures { self.new ≡ below_of self.old }
    {
        let _ = self.items.pop();
    }

    /// Gives the topmost activation, if there is one, another number.
    #[inline(always)]
    pub(crate) fn move_to(&mut self, number: u32)
        ensures { self.new ≡ with_number self.old number }
    {
        let count = self.items.len();
        if count > 0 {
            self.items[count - 1].number = number;
        }
    }
}
