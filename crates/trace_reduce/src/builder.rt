// A tape under construction: activities of the host begin and end, and the windows after them find what the host
// changed.

ghost use Rattle.std.specs.Prelude.{◌≡◌, ◌∷◌, ◌++◌, List, [], None, is_none, OnOk};
ghost use Rattle.record_replay_spec.specs.LogTapes.{Mark, Begins, Ends, AreLogSegments};
ghost use Rattle.base.specs.declared.outcomes.Outcome.TheVariants.{Trapped};
ghost use Rattle.trace_model.specs.declared.tapes.Origin.TheVariants.{Begin};
ghost use Rattle.trace_model.specs.declared.tapes.Tape.{Tape};
ghost use Rattle.trace_reduce.specs.Answers.{IsWeighed};
ghost use Rattle.trace_reduce.specs.Builder.{IsAtHost, IsInWindow, IsClosed, TakesMark, end_marks, mark_of};

use crate::faults::ReducerFault;
use crate::first_values::Firsts;
use crate::limited_tape::LimitedTape;
use base::{NoMemory, Outcome};
use std::alloc::Global;
use std::mem;
use trace_model::{Effect, Next, Origin, Segment, Tape};

/// What an event reports of the host: an activity begins or ends, or the window after it finds a change.
#[derive(Drop)]
pub(crate) enum Turn {
    Begins(Origin),
    Ends(Next),
    Finds(Effect),
}

/// The segments of the windows that are over; the origin of the last activity, how control left the host if it
/// has left, and what the window after it found first.
#[derive(Drop)]
pub(crate) struct TapeBuilder {
    pub(crate) tape: LimitedTape,
    pub(crate) origin: Origin,
    pub(crate) next: Option<Next>,
    pub(crate) firsts: Firsts,
}

impl TapeBuilder {
    /// Begins the host's first activity, for a tape with this limit of weight. Takes no memory.
    pub(crate) fn new(alloc: Global, most: u64) -> TapeBuilder
        ensures begun { IsAtHost result [] (Begins Begin ∷ []) }
        ensures most { result.tape.most ≡ most }
    {
        TapeBuilder {
            tape: LimitedTape::new(alloc, most),
            origin: Origin::Begin,
            next: None,
            firsts: Firsts::new(alloc),
        }
    }

    /// Whether control is at the host.
    pub(crate) fn is_at_host(&self) -> bool
        ensures { result ≡ is_none self.now.next }
    {
        self.next.is_none()
    }

    /// Adds the segment of the window that is over, if there is one.
    fn close_window(&mut self) -> Result<(), NoMemory>
        ensures closes { OnOk result ((marks : List Mark) → IsInWindow self.old marks → IsClosed self.new marks) }
        ensures stays { OnOk result (self.old.next ≡ None → self.new.tape ≡ self.old.tape) }
        ensures most { self.new.tape.most ≡ self.old.tape.most }
    {
        let Some(next) = self.next.take() else {
            return Ok(());
        };
        let alloc = *self.tape.segments.allocator();
        let effects = self.firsts.effects(alloc)?;
        self.firsts = Firsts::new(alloc);
        self.tape.push(Segment {
            origin: self.origin,
            effects,
            next,
        })?;
        Ok(())
    }

    /// Takes what an event reports.
    ///
    /// # Errors
    /// `NoMemory` if an allocation failed; the tape is lost then.
    pub(crate) fn take(&mut self, turn: Turn) -> Result<(), NoMemory>
        ensures mark { OnOk result (TakesMark self.old (mark_of turn) self.new) }
        ensures most { self.new.tape.most ≡ self.old.tape.most }
    {
        match turn {
            Turn::Begins(origin) => {
                self.close_window()?;
                self.origin = origin;
            }
            Turn::Ends(next) => self.next = Some(next),
            Turn::Finds(effect) => self.firsts.take(&effect)?,
        }
        Ok(())
    }

    /// The tape. An activity that did not leave the host is not part of it.
    fn into_tape(mut self) -> Result<Tape, ReducerFault>
        ensures window { (marks : List Mark) → IsInWindow self marks
            → IsWeighed (λ (tape : Tape). AreLogSegments marks tape.segments) self.tape.most result }
        ensures host { (before marks : List Mark) → IsAtHost self before marks
            → IsWeighed (λ (tape : Tape). AreLogSegments before tape.segments) self.tape.most result }
    {
        let Ok(()) = self.close_window() else {
            return Err(ReducerFault::Memory);
        };
        let TapeBuilder { tape, .. } = self;
        tape.into_tape()
    }

    /// The tape, if control leaves the last activity with `next`.
    fn end(mut self, next: Next) -> Result<Tape, ReducerFault>
        ensures { (before marks : List Mark) → IsAtHost self before marks
            → IsWeighed (λ (tape : Tape). AreLogSegments (marks ++ Ends next ∷ []) tape.segments) self.tape.most
            result }
    {
        let Ok(()) = self.take(Turn::Ends(next)) else {
            return Err(ReducerFault::Memory);
        };
        self.into_tape()
    }

    /// The tape of a run with this outcome.
    ///
    /// # Errors
    /// The tape's weight if it is more than the limit; `Memory` if an allocation failed.
    pub(crate) fn finish(self, outcome: Outcome) -> Result<Tape, ReducerFault>
        ensures window { (marks : List Mark) → outcome ≡ Trapped → IsInWindow self marks
            → IsWeighed (λ (tape : Tape). AreLogSegments marks tape.segments) self.tape.most result }
        ensures host { (before marks : List Mark) → IsAtHost self before marks
            → IsWeighed (λ (tape : Tape). AreLogSegments (end_marks outcome before marks) tape.segments)
            self.tape.most result }
    {
        match outcome {
            Outcome::Ended => self.end(Next::End),
            Outcome::Trapped => self.into_tape(),
            Outcome::HostTrapped => self.end(Next::Trap),
        }
    }
}
