// The events of a log's file, passed to a sink one at a time.

ghost use Rattle.std.specs.Prelude.{◌≡◌, ◌≤◌, ℕ, List, length, Err, Ok, OnOk, IfOk, IfErr, IsErrOf, MatchResult};
ghost use Rattle.trace_model.specs.declared.events.Log.{Log};
ghost use Rattle.trace_format.specs.Answers.{IsItemsFault, IsLogAnswer, IsLogRead};
ghost use Rattle.trace_format.specs.Faults.{IsLogFault, IsLogOf};
ghost use Rattle.trace_format.specs.Files.{Shrinks};
ghost use Rattle.trace_format.specs.Reading as plain;
ghost use Rattle.trace_format.specs.Taken.{AreAllTaken, AreTakenToEnd, BeginsLog, IsLogTaken, TakesEvents, TakesLog, TakesWhole};
ghost use Rattle.trace_format.specs.declared.files.FormatFault.TheVariants as faults;

use crate::files::FormatFault;
use crate::headers::{Digest, end_of_log, header_of, log_start};
use crate::items::next_item;
use crate::laws::event_readers;
use base::NoMemory;
use std::alloc::Global;
use trace_bytes::tags::LOG_MAGIC;
use trace_model::{Event, Outcome};

/// A sink takes the events of a log's file one after another. A step is a relation, so that what each step of a
/// sink leaves unchanged can be proved for all steps together.
pub trait LogSink {
    ghost use Rattle.trace_model.specs.declared.events.Event.{Event};

    // the sink takes an event and changes its state
    ghost takes: { Self → Event → Self → Type 0 };

    /// Takes an event.
    ///
    /// # Errors
    /// `NoMemory` if an allocation failed.
    fn take(&mut self, event: Event) -> Result<(), NoMemory>
        ensures { OnOk result (takes self.old event self.new) };
}

/// The start of a log's file, of either version: the digest, and the number of functions that the recorded
/// module imports. Takes no memory.
///
/// # Errors
/// The version if it is not known; otherwise the place 0 if there is no whole header.
pub fn log_header(bytes: &[u8]) -> Result<(Digest, u32), FormatFault>
    // The file begins with the digest and the number that are returned.
    ensures found { IfOk result (λ header. BeginsLog bytes.now header.0 header.1) }
    // If the file begins with a digest and a number, they are returned.
    ensures only { (digest : List ℕ) (imports : ℕ) → BeginsLog bytes.now digest imports
        → result ≡ Ok (digest, imports) }
    // Every error has a cause, and is not `Memory`.
    ensures fault { IfErr result (λ fault. IsLogFault bytes.now fault) }
    ensures caused { IsErrOf result faults.Memory → ⊥ }
{
    event_readers();
    let (_, digest) = header_of(&LOG_MAGIC, bytes)?;
    match log_start(bytes) {
        Some((imports, _)) => Ok((digest, imports)),
        None => Err(FormatFault::Bad { at: 0 }),
    }
}

/// Passes the events of a log's file, of either version, to the sink, and returns the outcome of the run. Besides
/// the file and the sink, one event at a time is in memory.
///
/// # Errors
/// The version if it is not known; otherwise the place where the file is faulty, after the events before that
/// place have been passed on; or out of memory.
pub fn log_events<S: LogSink>(
    alloc: Global,
    bytes: &[u8],
    sink: &mut S,
) -> Result<Outcome, FormatFault>
    // The sink took the events of a log that the bytes encode, and the outcome is that log's.
    ensures found { IfOk result (λ outcome. IsLogTaken S.takes bytes.now sink.old sink.new outcome) }
    // The sink takes the log that the bytes encode, unless memory runs out.
    ensures only { (digest : List ℕ) (log : Log) → IsLogOf bytes.now digest log
        → IfOk result (λ outcome. TakesLog S.takes sink.old sink.new (digest, log) outcome)
        × IfErr result (λ fault. fault ≡ faults.Memory) }
    // Every error has a cause.
    ensures fault { IfErr result (λ fault. IsLogFault bytes.now fault) }
    // If the place is bad, the sink took exactly the whole events; if the version is not known, it took nothing.
    ensures whole { (at : ℕ) → result ≡ Err (faults.Bad at) → TakesWhole bytes.now S.takes sink.old sink.new }
    ensures unread { (version : ℕ) → result ≡ Err (faults.Version version) → sink.new ≡ sink.old }
{
    event_readers();
    events_in(alloc, bytes, sink)
}

/// Passes the events to the sink, as the plain readers read them.
#[tactic(auto, unfolding(crate::specs::Reading::first_log_header))]
fn events_in<S: LogSink>(alloc: Global, bytes: &[u8], sink: &mut S) -> Result<Outcome, FormatFault>
    ensures answer { MatchResult result
        (λ outcome. (content : List ℕ × Log) × IsLogRead bytes.now content
        × TakesLog S.takes sink.old sink.new content outcome)
        (λ fault. IsLogAnswer bytes.now (Err fault)) }
    ensures whole { (at : ℕ) → result ≡ Err (faults.Bad at) → TakesWhole bytes.now S.takes sink.old sink.new }
    ensures unread { (version : ℕ) → result ≡ Err (faults.Version version) → sink.new ≡ sink.old }
{
    let (version, _) = header_of(&LOG_MAGIC, bytes)?;
    match log_start(bytes) {
        Some((_, start)) => events_after(alloc, version, bytes, start, sink),
        None => Err(FormatFault::Bad { at: 0 }),
    }
}

/// Passes the events that begin at the start to the sink, and returns the outcome after them.
fn events_after<S: LogSink>(
    alloc: Global,
    version: u8,
    bytes: &[u8],
    start: &[u8],
    sink: &mut S,
) -> Result<Outcome, FormatFault>
    requires { length start.now ≤ length bytes.now }
    ensures answer { MatchResult result
        (λ outcome. AreTakenToEnd version start.now S.takes sink.old sink.new outcome)
        (λ fault. IsItemsFault (plain.first_event version) plain.first_outcome bytes.now start.now fault) }
    ensures whole { (at : ℕ) → result ≡ Err (faults.Bad at) → TakesEvents version start.now S.takes sink.old sink.new }
    ensures unread { (found : ℕ) → result ≡ Err (faults.Version found) → sink.new ≡ sink.old }
{
    event_readers();
    let left = whole_events(alloc, version, start, sink)?;
    match end_of_log(bytes, left) {
        Ok(outcome) => Ok(outcome),
        Err(fault) => Err(fault),
    }
}

/// Passes events to the sink as long as they are whole, and returns the bytes left.
///
/// # Errors
/// `NoMemory` if an allocation failed.
fn whole_events<'a, S: LogSink>(
    alloc: Global,
    version: u8,
    bytes: &'a [u8],
    sink: &mut S,
) -> Result<&'a [u8], NoMemory>
    requires { Shrinks (plain.first_event version) }
    ensures took { IfOk result (λ left.
        AreAllTaken (plain.first_event version) S.takes bytes.now left.now sink.old sink.new) }
    ensures shorter { IfOk result (λ left. length left.now ≤ length bytes.now) }
{
    let mut rest = bytes;
    'events: while let Some((event, after)) = next_item::<Event>(alloc, version, rest)? {
        sink.take(event)?;
        rest = after;
    }
    Ok(rest)
}
