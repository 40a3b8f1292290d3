// The bytes that a job prints for the bytes of its files.

ghost use Rattle.r3_core.specs.Jobs.{files_of, form};
ghost use Rattle.r3_core.specs.Words.{AreInRange};
ghost use Rattle.r3_core.specs.Meanings.{IsAnswer};
ghost use Rattle.r3_core.specs.Causes.{bytes_of, AreWithin};

use crate::jobs::Job;
use r3_build::build;
use r3_faults::Fault;
use r3_history::history;
use r3_instances::{foreign, foreign_history, pair, pair_history};
use r3_instrument::instrument_bytes;
use r3_make::{from_call, load_summary, make};
use r3_record::log_run;
use r3_reduce::reduce_log;
use r3_replay::replay_text;
use r3_show::show;
use std::alloc::Global;

/// The bytes that a job prints, one row for each command.
pub(crate) fn output_of(alloc: Global, job: &Job<Vec<u8>>) -> Result<Vec<u8>, Fault>
    requires within { AreWithin (files_of (bytes_of job.now)) }
    requires in_range { AreInRange (form (bytes_of job.now)).numbers }
    ensures { IsAnswer (bytes_of job.now) result }
{
    match job {
        Job::Make {
            module,
            script,
            turns,
        } => make(alloc, module, script, *turns),
        Job::Instrument { module } => instrument_bytes(alloc, module),
        Job::Record {
            hooked,
            script,
            turns,
        } => log_run(alloc, hooked, script, *turns),
        Job::Reduce { log } => reduce_log(alloc, log),
        Job::Build {
            module,
            script,
            tape,
        } => build(alloc, module, script, tape),
        Job::History {
            module,
            script,
            turns,
        } => history(alloc, module, script, *turns),
        Job::Replay { binary, turns } => replay_text(alloc, binary, *turns),
        Job::Show { trace } => show(alloc, trace),
        Job::Load { calls } => load_summary(alloc, *calls),
        Job::Foreign {
            module,
            decls,
            script,
            turns,
        } => foreign(alloc, module, decls, script, *turns),
        Job::ForeignHistory {
            module,
            decls,
            script,
            turns,
        } => foreign_history(alloc, module, decls, script, *turns),
        Job::Pair {
            left,
            right,
            script,
            turns,
        } => pair(alloc, left, right, script, *turns),
        Job::PairHistory {
            left,
            right,
            script,
            turns,
        } => pair_history(alloc, left, right, script, *turns),
        Job::From {
            module,
            script,
            turns,
            call,
        } => from_call(alloc, module, script, *turns, *call),
    }
}
