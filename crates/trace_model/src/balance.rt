// Whether a run can have the events of a log in their order.

ghost use Rattle.std.specs.Prelude.{◌≡◌, [], ◌∷◌, drop, false, IfOk, OnOk, OnErr, MatchOption};
ghost use Rattle.trace_model.specs.Balance.{IsBalance, Takes, balance_start, balanced_step, calls_import, ends_so, enter_frames, first_unbalanced, is_empty_stack, is_function, leave_frames, post_frames};
ghost use Rattle.trace_model.specs.declared.events.Event.TheVariants.{Pre};

use crate::events::{Event, Log};
use base::{NoMemory, Outcome};
use std::alloc::Global;
use std::marker::Model;
use thiserror::Error;

/// Why a log is not balanced, or why it is not known.
#[derive(Clone, Copy, PartialEq, Eq, Debug, Error)]
pub enum BalanceFault {
    /// The first event that is not allowed; the number of events if only the outcome is not allowed.
    #[error("event {0} is out of order")]
    Event(u64),
    /// Out of memory.
    #[error("out of memory")]
    Memory,
}

/// An open function or call.
#[derive(Clone, Copy)]
pub enum Frame {
    /// A function.
    Function(u32),
    /// A call with its callee, `None` if the entry is empty, and whether a function was entered in it.
    Call(Option<u32>, bool),
}

/// The open frames. Contracts see the innermost first.
#[derive(Drop)]
pub struct Frames {
    items: Vec<Frame>,
}

impl Model for Frames {
    ghost use Rattle.std.specs.Prelude.{List, reverse};
    ghost use Rattle.trace_model.specs.declared.balance.Frame.{Frame};

    ghost Value = { List Frame };

    ghost view = { λ frames. reverse frames.items.items };
}

/// The state after some events: the frames; whether the host grew the memory; whether the last event began a
/// call.
#[derive(Drop)]
pub struct Balance {
    pub frames: Frames,
    pub grew: bool,
    pub called: bool,
}

impl Frames {
    /// No frames. Takes no memory.
    fn new(alloc: Global) -> Frames
        ensures { result ≡ [] }
    {
        Frames {
            items: Vec::new(alloc),
        }
    }

    /// The innermost frame.
    pub fn top(&self) -> Option<Frame>
        ensures { MatchOption result (self.now ≡ []) (λ top. self.now ≡ top ∷ drop 1 self.now) }
    {
        self.items.last().copied()
    }

    /// Opens a frame within the others.
    fn push(&mut self, frame: Frame) -> Result<(), NoMemory>
        ensures ok { OnOk result (self.new ≡ frame ∷ self.old) }
        ensures refused { OnErr result (self.new ≡ self.old) }
    {
        self.items.push(frame)?;
        Ok(())
    }

    /// Closes the innermost frame.
    fn pop(&mut self)
        ensures { self.new ≡ drop 1 self.old }
    {
        let _top = self.items.pop();
    }

    /// Whether the innermost frame is a function.
    pub fn is_function(&self) -> bool
        ensures { result ≡ is_function self.now }
    {
        matches!(self.top(), Some(Frame::Function(_)))
    }

    /// Whether the innermost frame is a call of an import.
    pub fn calls_import(&self, imports: u32) -> bool
        ensures { result ≡ calls_import imports self.now }
    {
        match self.top() {
            Some(Frame::Call(Some(callee), _)) => callee < imports,
            _ => false,
        }
    }

    /// Whether no frame is open.
    pub fn is_empty(&self) -> bool
        ensures { result ≡ is_empty_stack self.now }
    {
        self.top().is_none()
    }

    /// Enters a function. Returns whether that is allowed.
    fn enter(&mut self, imports: u32, func: u32) -> Result<bool, NoMemory>
        ensures ok { IfOk result (λ may. Takes may self.new (enter_frames imports func self.old)) }
        ensures kept { IfOk result (λ may. may ≡ false → self.new ≡ self.old) }
        ensures refused { OnErr result (self.new ≡ self.old) }
    {
        self.items.reserve(1)?;
        match self.top() {
            None => {}
            Some(Frame::Call(Some(callee), entered)) => {
                if callee >= imports && (callee != func || entered) {
                    return Ok(false);
                }
                let _call = self.items.pop();
                self.items.push_reserved(Frame::Call(Some(callee), true));
            }
            Some(_) => return Ok(false),
        }
        self.items.push_reserved(Frame::Function(func));
        Ok(true)
    }

    /// Ends a function. Returns whether that is allowed.
    fn leave(&mut self, func: u32) -> bool
        ensures takes { Takes result self.new (leave_frames func self.old) }
        ensures kept { result ≡ false → self.new ≡ self.old }
    {
        match self.top() {
            Some(Frame::Function(top)) if top == func => {
                self.pop();
                true
            }
            _ => false,
        }
    }

    /// Ends a call. Returns whether that is allowed.
    fn post(&mut self, imports: u32) -> bool
        ensures takes { Takes result self.new (post_frames imports self.old) }
        ensures kept { result ≡ false → self.new ≡ self.old }
    {
        match self.top() {
            Some(Frame::Call(Some(callee), entered)) if callee < imports || entered => {
                self.pop();
                true
            }
            _ => false,
        }
    }
}

impl Balance {
    /// The state before any event. Takes no memory.
    pub fn new(alloc: Global) -> Balance
        ensures { result ≡ balance_start }
    {
        Balance {
            frames: Frames::new(alloc),
            grew: false,
            called: false,
        }
    }

    /// Takes an event. Returns whether it is allowed; one that is not changes nothing.
    ///
    /// # Errors
    /// `NoMemory` if an allocation failed; the event is not taken then.
    pub fn step(&mut self, imports: u32, event: &Event) -> Result<bool, NoMemory>
        ensures ok { IfOk result (λ may. Takes may self.new (balanced_step imports self.old event.now)) }
        ensures kept { IfOk result (λ may. may ≡ false → self.new ≡ self.old) }
        ensures refused { OnErr result (self.new ≡ self.old) }
    {
        let may = match event {
            Event::Enter { func, .. } => *func >= imports && self.frames.enter(imports, *func)?,
            Event::Leave { func } => self.frames.leave(*func),
            Event::Pre { callee } => return self.call(*callee),
            Event::Post { .. } => self.frames.post(imports),
            Event::Seen => self.grew && self.frames.is_function(),
            _ => self.frames.is_function(),
        };
        if may {
            self.grew = self.grew || matches!(event, Event::Grow { .. });
            self.called = false;
        }
        Ok(may)
    }

    /// Begins a call. Returns whether that is allowed.
    fn call(&mut self, callee: Option<u32>) -> Result<bool, NoMemory>
        ensures ok { IfOk result (λ may. Takes may self.new (balanced_step 0 self.old (Pre callee))) }
        ensures kept { IfOk result (λ may. may ≡ false → self.new ≡ self.old) }
        ensures refused { OnErr result (self.new ≡ self.old) }
    {
        if !self.frames.is_function() {
            return Ok(false);
        }
        self.frames.push(Frame::Call(callee, false))?;
        self.called = true;
        Ok(true)
    }

    /// Whether a run may end with this outcome.
    pub fn ends_so(&self, imports: u32, outcome: Outcome) -> bool
        ensures { result ≡ ends_so imports self.now outcome }
    {
        match outcome {
            Outcome::Ended => self.frames.is_empty(),
            Outcome::Trapped => self.frames.is_function() || self.called,
            Outcome::HostTrapped => self.frames.calls_import(imports),
        }
    }
}

/// Checks whether a log is balanced.
///
/// # Errors
/// The first event that is not allowed; `Memory` if an allocation failed.
pub fn check_balance(alloc: Global, log: &Log) -> Result<(), BalanceFault>
    ensures { IsBalance (first_unbalanced log.now) result }
{
    let events = log.events.as_slice();
    let mut state = Balance::new(alloc);
    'events: for (number, event) in events.iter().enumerate() {
        let step = state.step(log.imports, event);
        if !step.map_err(|_| BalanceFault::Memory)? {
            return Err(BalanceFault::Event(number as u64));
        }
    }
    if state.ends_so(log.imports, log.outcome) {
        Ok(())
    } else {
        Err(BalanceFault::Event(events.len() as u64))
    }
}
