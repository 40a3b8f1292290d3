// What `replay` prints of what `foreign` and `pair` print.

ghost use Rattle.replay_text_laws.specs.Histories.{ForeignReplaysPrintHistories, PairReplaysPrintHistories};

use crate::modules::print_laws;
use decl_text::{declarations_are_within_texts, declarations_that_are_read_fit};
use instance_laws::{widened_are_accepted, widened_outcomes_follow};
use pair_laws::{linked_are_accepted, linked_outcomes_follow};
use wasm_syntax::lists_of_encoding;

/// Where `foreign` prints bytes, `replay` prints of these exactly what `foreign-history` prints of the run.
pub fn foreign_replays_print_histories()
    ensures { ForeignReplaysPrintHistories }
{
    print_laws();
    lists_of_encoding();
    declarations_are_within_texts();
    declarations_that_are_read_fit();
    widened_are_accepted();
    widened_outcomes_follow();
}

/// Where `pair` prints bytes, `replay` prints of these exactly what `pair-history` prints of the run.
pub fn pair_replays_print_histories()
    ensures { PairReplaysPrintHistories }
{
    print_laws();
    lists_of_encoding();
    linked_are_accepted();
    linked_outcomes_follow();
}
