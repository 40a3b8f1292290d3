// The order of hook calls. Each call is checked first, which changes nothing, and then taken.

ghost use Rattle.std.specs.Prelude.{◌≡◌, ◌↔◌, [], IsTrue, OnOk, OnErr};
ghost use Rattle.record_replay_spec.specs.Order.{may_report};
ghost use Rattle.hook_order.specs.Frames.{frame_of};
ghost use Rattle.hook_order.specs.Orders.{parts_at_start, parts_called, parts_closed, parts_entered, parts_pending, state_of};

use crate::frames::{Frame, Frames};
use crate::shape::Shape;
use base::NoMemory;
use std::alloc::Global;
use std::marker::Model;
use wasm_syntax::Val;

/// The state of the order of hook calls: the open frames, and the values that are pending for the next call.
#[derive(Drop)]
pub struct Order {
    pub(crate) shape: Shape,
    pub(crate) frames: Frames,
    pub(crate) pending: Vec<Val>,
}

impl Model for Order {
    ghost use Rattle.hook_order.specs.Orders.{OrderParts};

    ghost Value = { OrderParts };

    ghost view = { λ order. record {
      shape = order.shape;
      frames = order.frames;
      pending = order.pending.items;
    } };
}

impl Order {
    /// The state before any call. Takes no memory.
    pub fn new(alloc: Global, shape: Shape) -> Order
        ensures { result ≡ parts_at_start shape }
    {
        Order {
            shape,
            frames: Frames::new(alloc),
            pending: Vec::new(alloc),
        }
    }

    /// The shape of the module.
    #[inline]
    pub fn shape(&self) -> &Shape
        ensures { result.now ≡ self.now.shape }
    {
        &self.shape
    }

    /// Whether no function and no call is open.
    #[inline]
    pub fn is_outside(&self) -> bool
        ensures { IsTrue result ↔ (self.now.frames ≡ []) }
    {
        match self.frames.top() {
            Some(_) => false,
            None => true,
        }
    }

    /// The values that are pending.
    #[inline]
    pub fn pending(&self) -> &[Val]
        ensures { result.now ≡ self.now.pending }
    {
        self.pending.as_slice()
    }

    /// Whether a function is on top and no value is pending.
    #[inline(always)]
    pub(crate) fn may_report(&self) -> bool
        ensures { result ≡ may_report (state_of 0 self.now) }
    {
        matches!(self.frames.top(), Some(Frame::Function(_))) && self.pending.is_empty()
    }

    /// Takes a value that is passed for the next call.
    ///
    /// # Errors
    /// `NoMemory` if an allocation failed; nothing has changed then.
    #[inline]
    pub fn report(&mut self, value: Val) -> Result<(), NoMemory>
        ensures ok { OnOk result (self.new ≡ parts_pending self.old value) }
        ensures err { OnErr result (self.new ≡ self.old) }
        ensures shape { self.new.shape ≡ self.old.shape }
    {
        self.pending.push(value)?;
        Ok(())
    }

    /// Enters a function.
    ///
    /// # Errors
    /// `NoMemory` if an allocation failed; which call may come next is lost then.
    #[inline]
    pub fn enter(&mut self, func: u32) -> Result<(), NoMemory>
        ensures ok { OnOk result (self.new ≡ parts_entered self.old func) }
        ensures shape { self.new.shape ≡ self.old.shape }
    {
        self.pending.clear();
        self.frames.enter(func)
    }

    /// Begins a call of a function, or of an empty table entry.
    ///
    /// # Errors
    /// `NoMemory` if an allocation failed; which call may come next is lost then.
    #[inline]
    pub fn call(&mut self, direct: bool, callee: Option<u32>) -> Result<(), NoMemory>
        ensures ok { OnOk result (self.new ≡ parts_called self.old direct callee) }
        ensures shape { self.new.shape ≡ self.old.shape }
    {
        self.pending.clear();
        self.frames.push(Frame::Call {
            direct,
            callee,
            entered: false,
        })
    }

    /// Closes the innermost frame. Takes no memory.
    #[inline]
    pub fn close(&mut self)
        ensures { self.new ≡ parts_closed self.old }
    {
        self.pending.clear();
        self.frames.pop();
    }
}
