// The lines on the run of an accepted module under a script, and on the tape that it needs.

ghost use Rattle.std.specs.Prelude.{◌≡◌, ◌≤◌, ◌⊎◌, ◌++◌, IfErr, IfOk, OnOk, length};
ghost use Rattle.wasm_syntax.specs.declared.limits.TheConstants.{MAX_TAPE_WEIGHT};
ghost use Rattle.type_safety.specs.Supplies.{HasBytes};
ghost use Rattle.trace_model.specs.Weight.{tape_weight};
ghost use Rattle.accepted_runs.specs.Runnable.{CanRun};
ghost use Rattle.r3_faults.specs.Answers.{IsCaused, IsReplayAnswer};
ghost use Rattle.r3_faults.specs.declared.faults.Fault.TheVariants.{Memory};
ghost use Rattle.r3_faults.specs.Lines.{with_number};
ghost use Rattle.r3_make.specs.Records.{IsOriginalModule};
ghost use Rattle.r3_make.specs.Refusals.{IsUnmade};
ghost use Rattle.r3_make.specs.Tapes.{NeedsLightTape};
ghost use Rattle.r3_make.specs.Summaries.{HasCounts, IsSummaryOf, summary_text};

use crate::needed_tape;
use accepted_runs::{printed_run, start_store};
use base::NoMemory;
use history_spec::runs_have_one_result_at_most;
use host_script::Script;
use itoa::Buffer;
use r3_faults::Fault;
use std::alloc::Global;
use trace_model::Tape;
use wasm_validate::Checked;

/// The number of turns of a run, and of the entries of its history.
#[derive(Clone, Copy)]
pub struct Counts {
    pub(crate) turns: u64,
    pub(crate) entries: u64,
}

/// The lines on the run of a module under a script that fits it.
pub(crate) fn lines_of(
    alloc: Global,
    checked: &Checked,
    script: Script,
    turns: u64,
) -> Result<Vec<u8>, Fault>
    requires original { IsOriginalModule checked.now }
    requires runnable { CanRun checked.now script }
    ensures { IsReplayAnswer (IsSummaryOf checked.now script turns) (IsUnmade checked.now script turns)
        (NeedsLightTape checked.now script turns) result }
{
    runs_have_one_result_at_most();
    printed_lines(alloc, checked, script, turns)
}

/// The lines on a run, or a fault with its cause.
fn printed_lines(
    alloc: Global,
    checked: &Checked,
    script: Script,
    turns: u64,
) -> Result<Vec<u8>, Fault>
    requires original { IsOriginalModule checked.now }
    requires runnable { CanRun checked.now script }
    ensures { IsCaused (IsSummaryOf checked.now script turns) (IsUnmade checked.now script turns) result }
{
    runs_have_one_result_at_most();
    let counts = counts_of_run(alloc, checked, &script, turns)?;
    let found = needed_tape(alloc, checked, script, turns)?;
    let text = summary_text(alloc, counts, &found.tape)?;
    Ok(text)
}

/// The counts of a run.
fn counts_of_run(
    alloc: Global,
    checked: &Checked,
    script: &Script,
    turns: u64,
) -> Result<Counts, Fault>
    requires runnable { CanRun checked.now script.now }
    requires bytes { HasBytes checked.now }
    ensures counts { IfOk result (λ counts. HasCounts checked.now script.now turns counts) }
    ensures cause { IfErr result (λ fault. (fault ≡ Memory) ⊎ IsUnmade checked.now script.now turns fault) }
{
    let store = start_store(alloc, checked, script)?;
    let printed_history = printed_run(alloc, checked, script, store, turns)?;
    Ok(Counts {
        turns: printed_history.turns,
        entries: printed_history.entries,
    })
}

/// The lines of a run with these counts and of its tape.
fn summary_text(alloc: Global, counts: Counts, tape: &Tape) -> Result<Vec<u8>, NoMemory>
    requires light { tape_weight tape.now ≤ MAX_TAPE_WEIGHT }
    ensures { IfOk result (λ text. text.items
        ≡ summary_text counts.turns counts.entries (length tape.now.segments) (tape_weight tape.now)) }
{
    let mut text = Vec::new(alloc);
    put_line(&mut text, b"turns ", counts.turns)?;
    put_line(&mut text, b"entries ", counts.entries)?;
    put_line(
        &mut text,
        b"segments ",
        tape.segments.as_slice().len() as u64,
    )?;
    put_line(&mut text, b"weight ", weight_of(tape))?;
    Ok(text)
}

/// The weight of a tape that is light enough.
fn weight_of(tape: &Tape) -> u64
    requires { tape_weight tape.now ≤ MAX_TAPE_WEIGHT }
    ensures { result ≡ tape_weight tape.now }
{
    tape.weight()
}

/// Appends a line of a word and a number.
fn put_line(text: &mut Vec<u8>, word: &[u8], number: u64) -> Result<(), NoMemory>
    ensures { OnOk result (text.new.items ≡ text.old.items ++ with_number word.now number) }
{
    let mut buffer = Buffer::new();
    text.extend_from_slice(word)?;
    text.extend_from_slice(buffer.format(number).as_bytes())?;
    text.extend_from_slice(b"\n")?;
    Ok(())
}
