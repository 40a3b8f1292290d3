//! The laws of tapes at worked examples: the tapes that the runs of small modules need replay them, and with effects
//! removed from the tapes the runs differ.
#![tactic(auto)]

ghost use Rattle.worked_laws.specs.Dropped.{WorkedDrops};
ghost use Rattle.worked_laws.specs.Replayed.{WorkedReplays};

use record_replay_spec::tested_segments_are_needed;
use tape_laws::{needed_tape_replays, nothing_can_be_dropped};
use wasm_syntax::validity_is_decided;

/// The tapes that the runs of the example modules need replay them, and their runs never disagree; with a byte, a
/// size, an entry or a global removed from the tapes the runs differ, and a byte that a copy reads first can't be
/// removed.
pub fn laws_of_tapes_hold_at_examples()
    ensures replayed { WorkedReplays }
    ensures taken_out { WorkedDrops }
{
    needed_tape_replays();
    nothing_can_be_dropped();
    tested_segments_are_needed();
    validity_is_decided();
}

ghost use Rattle.worked_laws.specs.ShownRuns.{WorkedShown};

use replay_theorem::runs_are_replayed;

/// The replay modules of the tapes that the runs of the example modules need show the histories and outcomes of these
/// runs, and make exactly the effects of the tapes.
pub fn examples_are_shown()
    ensures { WorkedShown }
{
    runs_are_replayed();
    tested_segments_are_needed();
    validity_is_decided();
}
