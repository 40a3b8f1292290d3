// The open functions and calls.

ghost use Rattle.std.specs.Prelude.{◌≡◌, [], ◌∷◌, drop, MatchOption, OnOk};
ghost use Rattle.record_replay_spec.specs.Order.{InFunction, with_entered};
ghost use Rattle.hook_order.specs.Frames.{frame_of};

use base::NoMemory;
use std::alloc::Global;
use std::marker::Model;

/// A function that was entered; or a call that began, by the function's index or by the table: its function,
/// `None` if the entry is empty, and whether the function was entered.
#[derive(Clone, Copy)]
pub enum Frame {
    Function(u32),
    Call {
        direct: bool,
        callee: Option<u32>,
        entered: bool,
    },
}

/// The open frames. Contracts see the innermost first.
#[derive(Drop)]
pub struct Frames {
    items: Vec<Frame>,
}

impl Model for Frames {
    ghost use Rattle.std.specs.Prelude.{List, map, reverse};
    ghost use Rattle.record_replay_spec.specs.Order.{OrderFrame};
    ghost use Rattle.hook_order.specs.Frames.{frame_of};

    ghost Value = { List OrderFrame };

    ghost view = { λ frames. map frame_of (reverse frames.items.items) };
}

impl Frames {
    /// No frames. Takes no memory.
    pub fn new(alloc: Global) -> Frames
        ensures { result ≡ [] }
    {
        Frames {
            items: Vec::new(alloc),
        }
    }

    /// The innermost frame.
    #[inline]
    pub fn top(&self) -> Option<Frame>
        ensures { MatchOption result (self.now ≡ []) (λ top. self.now ≡ frame_of top ∷ drop 1 self.now) }
    {
        self.items.last().copied()
    }

    /// Opens a frame within the others.
    ///
    /// # Errors
    /// `NoMemory` if an allocation failed.
    #[inline]
    pub fn push(&mut self, frame: Frame) -> Result<(), NoMemory>
        ensures { OnOk result (self.new ≡ frame_of frame ∷ self.old) }
    {
        self.items.push(frame)?;
        Ok(())
    }

    /// Closes the innermost frame.
    #[inline]
    pub fn pop(&mut self)
        ensures { self.new ≡ drop 1 self.old }
    {
        let _top = self.items.pop();
    }

    /// Opens the frame of a function that is entered in the innermost frame.
    ///
    /// # Errors
    /// `NoMemory` if an allocation failed.
    pub fn enter(&mut self, func: u32) -> Result<(), NoMemory>
        ensures { OnOk result (self.new ≡ InFunction func ∷ with_entered self.old) }
    {
        if let Some(Frame::Call { direct, callee, .. }) = self.top() {
            self.pop();
            self.push(Frame::Call {
                direct,
                callee,
                entered: true,
            })?;
        }
        self.push(Frame::Function(func))
    }
}
