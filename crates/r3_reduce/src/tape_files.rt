// `reduce`: the file of the tape of a log's file.

ghost use Rattle.std.specs.Prelude.{◌≡◌, ◌≤◌, ◌⊎◌, ℕ, List, length, IfOk, IfErr, MatchResult};
ghost use Rattle.wasm_syntax.specs.declared.limits.TheConstants.{MAX_TRACE_BYTES};
ghost use Rattle.trace_model.specs.declared.events.Log.{Log};
ghost use Rattle.trace_bytes.specs.declared.tags.TheConstants.{VERSION_2};
ghost use Rattle.trace_bytes.specs.Spelled.{FitSegments, SpellsTape};
ghost use Rattle.trace_format.specs.Faults.{IsLogFault};
ghost use Rattle.r3_faults.specs.Answers.{IsCaused, IsExact};
ghost use Rattle.r3_faults.specs.declared.faults.Fault.TheVariants.{Memory};
ghost use Rattle.r3_reduce.specs.TapeFiles.{HasTakenLog, IsReduced, IsReduceRefusal, IsTaken, IsTapeFile, IsUnbalanced};

use crate::reducer_sink::ReducerSink;
use log_tape_laws::log_tapes_are_writable;
use r3_faults::Fault;
use r3_show::fault_of;
use record_replay_spec::log_tape_is_one;
use std::alloc::Global;
use trace_format::{Digest, FormatFault, log_events, log_files, log_header, write_tape};
use trace_model::{Outcome, Tape};
use trace_reduce::{Reducer, ReducerFault};

/// The file of the tape that the log of a file is reduced to, with the log's digest. The log's file has at most
/// `MAX_TRACE_BYTES`.
///
/// # Errors
///
/// `TraceVersion` and `BadTrace` name why the bytes do not encode a log, `Unbalanced` the first event that is
/// not allowed, or the number of events if only the outcome is not allowed; each is reported if and only if it
/// applies. `Memory` if memory is out.
pub fn reduce_log(alloc: Global, log: &[u8]) -> Result<Vec<u8>, Fault>
    requires { length log.now ≤ MAX_TRACE_BYTES }
    ensures { IsExact (IsReduced log.now) (IsReduceRefusal log.now) result }
{
    log_files();
    log_tape_is_one();
    reduced_file(alloc, log)
}

/// The file of the tape of a log's file, or a fault with its cause.
fn reduced_file(alloc: Global, bytes: &[u8]) -> Result<Vec<u8>, Fault>
    requires { length bytes.now ≤ MAX_TRACE_BYTES }
    ensures { IsCaused (IsReduced bytes.now) (IsReduceRefusal bytes.now) result }
{
    match read_events(alloc, bytes) {
        Ok((digest, reducer, outcome)) => tape_file(alloc, &digest, reducer, outcome),
        Err(cause) => Err(fault_of(cause)),
    }
}

/// The digest of a log's file, the reducer that has taken its events one at a time, and the outcome.
fn read_events(alloc: Global, bytes: &[u8]) -> Result<(Digest, Reducer, Outcome), FormatFault>
    requires { length bytes.now ≤ MAX_TRACE_BYTES }
    ensures { MatchResult result
        (λ read. IsTaken bytes.now read.0 read.1 read.2)
        (λ fault. IsLogFault bytes.now fault) }
{
    let (digest, imports) = log_header(bytes)?;
    let mut sink = ReducerSink::new(alloc, imports);
    match log_events(alloc, bytes, &mut sink) {
        Ok(outcome) => Ok((digest, sink.into_reducer(), outcome)),
        Err(fault) => Err(fault),
    }
}

/// The file of the tape of a log, from a file, whose events are taken.
fn tape_file(
    alloc: Global,
    digest: &Digest,
    reducer: Reducer,
    outcome: Outcome,
) -> Result<Vec<u8>, Fault>
    requires { (bytes : List ℕ) × (length bytes ≤ MAX_TRACE_BYTES) × IsTaken bytes digest.now reducer outcome }
    ensures cause { (log : Log) → HasTakenLog reducer outcome log
        → IfErr result (λ fault. (fault ≡ Memory) ⊎ IsUnbalanced log fault) }
    ensures printed { (log : Log) → HasTakenLog reducer outcome log
        → IfOk result (λ file. IsTapeFile digest.now log file.items) }
{
    log_tapes_are_writable();
    match reducer.finish(outcome) {
        Ok(tape) => file_of_tape(alloc, digest, &tape),
        Err(ReducerFault::Unbalanced { event }) => Err(Fault::Unbalanced { event }),
        // The tape weighs no more than the file of its log has bytes.
        Err(ReducerFault::TooHeavy { .. }) => unreachable!(),
        Err(ReducerFault::Memory) => Err(Fault::Memory),
    }
}

/// The file of a tape.
fn file_of_tape(alloc: Global, digest: &Digest, tape: &Tape) -> Result<Vec<u8>, Fault>
    requires { FitSegments VERSION_2 tape.now.segments }
    ensures cause { IfErr result (λ fault. fault ≡ Memory) }
    ensures printed { IfOk result (λ file. SpellsTape VERSION_2 file.items digest.now tape.now) }
{
    Ok(write_tape(alloc, digest.as_bytes(), tape)?)
}
