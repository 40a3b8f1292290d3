// The segments of a tape whose weight is limited.

ghost use Rattle.std.specs.Prelude.{◌≡◌, ◌∷◌, ◌++◌, List, [], OnOk};
ghost use Rattle.trace_model.specs.declared.tapes.Segment.{Segment};
ghost use Rattle.trace_model.specs.declared.tapes.Tape.{Tape};
ghost use Rattle.trace_reduce.specs.Answers.{IsWeighed};
ghost use Rattle.trace_reduce.specs.LimitedTape.{IsSoFar};

use crate::faults::ReducerFault;
use base::NoMemory;
use std::alloc::Global;
use trace_model::{Segment, Segments, Tape};

/// The segments so far, held while they weigh no more than the limit, and their weight.
#[derive(Drop)]
pub(crate) struct LimitedTape {
    pub(crate) segments: Vec<Segment>,
    pub(crate) weight: u64,
    pub(crate) most: u64,
}

impl LimitedTape {
    /// No segments. Takes no memory.
    pub(crate) fn new(alloc: Global, most: u64) -> LimitedTape
        ensures none { IsSoFar result [] }
        ensures most { result.most ≡ most }
    {
        LimitedTape {
            segments: Vec::new(alloc),
            weight: 0,
            most,
        }
    }

    /// Appends a segment. If the segments weigh too much with it, all are dropped.
    ///
    /// # Errors
    /// `NoMemory` if an allocation failed; the tape is lost then.
    pub(crate) fn push(&mut self, segment: Segment) -> Result<(), NoMemory>
        ensures more { OnOk result ((segments : List Segment) → IsSoFar self.old segments
            → IsSoFar self.new (segments ++ segment ∷ [])) }
        ensures most { self.new.most ≡ self.old.most }
    {
        self.weight = self.weight.saturating_add(segment.weight());
        if self.weight <= self.most {
            self.segments.push(segment)?;
        } else {
            self.segments.clear();
            self.segments.shrink_to_fit();
        }
        Ok(())
    }

    /// The tape.
    ///
    /// # Errors
    /// The tape's weight if it is more than the limit. No memory holds a tape of the weight 2^64 - 1.
    pub(crate) fn into_tape(self) -> Result<Tape, ReducerFault>
        ensures { (segments : List Segment) → IsSoFar self segments
            → IsWeighed (λ (tape : Tape). tape.segments ≡ segments) self.most result }
    {
        if self.weight > self.most {
            return Err(ReducerFault::TooHeavy {
                weight: self.weight,
            });
        }
        if self.weight == u64::MAX {
            return Err(ReducerFault::Memory);
        }
        let LimitedTape { segments, .. } = self;
        Ok(Tape {
            segments: Segments::from_vec(segments),
        })
    }
}
