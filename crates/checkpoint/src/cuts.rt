// The cut of a tape.

ghost use Rattle.std.specs.Prelude.{◌≡◌, ◌+◌, ◌≤◌, ◌<◌, List, drop, length, IfOk};
ghost use Rattle.trace_model.specs.declared.tapes.Segment.{Segment as Part};
ghost use Rattle.checkpoint.specs.Cuts.{begun, IsCallPlace, IsCut, IsSearched};

use crate::segment_copies::{copied_segment, push_segments};
use base::NoMemory;
use std::alloc::Global;
use thiserror::Error;
use trace_model::{Next, Origin, Segment, Segments, Tape};
use wasm_syntax::List;

/// Why a tape has no cut, or why it is not known.
#[derive(Clone, Copy, PartialEq, Eq, Debug, Error)]
pub enum CutFault {
    /// The tape makes this number of top-level calls, which is at most the number of the call that is looked for.
    #[error("no such call: {calls} top-level calls")]
    NoCall { calls: u64 },
    /// Out of memory.
    #[error("out of memory")]
    Memory,
}

/// A search for a top-level call: its number among the calls that are still to come, and the number of open calls of
/// imports.
#[derive(Clone, Copy)]
struct CallSearch {
    number: u32,
    opened: usize,
}

impl CallSearch {
    /// Takes the next segment. Returns whether it makes the call.
    fn finds(&mut self, segment: &Segment) -> bool
        requires { self.old.opened < usize.MAX }
        ensures searched { (later : List Part) → IsSearched self.old self.new segment.now later result }
        ensures opened { self.new.opened ≤ self.old.opened + 1 }
        ensures number { self.new.number ≤ self.old.number }
    {
        if let Origin::Import(_) = segment.origin {
            self.opened += 1;
        }
        match segment.next {
            Next::Call { .. } if self.opened == 0 => {
                if self.number == 0 {
                    return true;
                }
                self.number -= 1;
            }
            Next::Return { .. } => self.opened = self.opened.saturating_sub(1),
            _ => {}
        }
        false
    }
}

/// The place of the segment that makes the top-level call of this number.
///
/// # Errors
/// The number of top-level calls if there are no more than that.
fn call_place(segments: &[Segment], k: u32) -> Result<usize, u64>
    ensures { IsCallPlace k segments.now result }
{
    let mut search = CallSearch {
        number: k,
        opened: 0,
    };
    'segments: for (place, segment) in segments.iter().enumerate() {
        if search.finds(segment) {
            return Ok(place);
        }
    }
    Err(u64::from(k - search.number))
}

/// Copies of the segments from a place on, the first of which begins a tape.
fn segments_from(alloc: Global, segments: &[Segment], place: usize) -> Result<Segments, NoMemory>
    requires { place < length segments.now }
    ensures { IfOk result (λ copies. copies ≡ begun (drop place segments.now)) }
{
    let mut copies = Vec::with_capacity(alloc, segments.len() - place)?;
    copies.push(copied_segment(alloc, &segments[place], Origin::Begin)?)?;
    push_segments(alloc, &mut copies, &segments[place + 1..])?;
    Ok(List::from_vec(copies))
}

/// The cut of a tape: its segments from the one on that makes the top-level call of number `k`, counted from 0. Takes
/// time in the length of the tape.
///
/// # Errors
/// `NoCall` exactly if the tape makes at most `k` top-level calls; `Memory` if an allocation failed.
pub fn cut(alloc: Global, tape: &Tape, k: u32) -> Result<Tape, CutFault>
    ensures { IsCut k tape.now result }
{
    let segments = tape.segments.as_slice();
    let place = call_place(segments, k).map_err(|calls| CutFault::NoCall { calls })?;
    let segments = segments_from(alloc, segments, place).map_err(|_| CutFault::Memory)?;
    Ok(Tape { segments })
}
