// The laws, each the contract of a function; the statements are in `specs/`.

ghost use Rattle.rest_laws.specs.Calls.{CallsAreOfRuns};
ghost use Rattle.rest_laws.specs.FittingCuts.{CutsAreLast, CutsAreLight, CutsFit};
ghost use Rattle.rest_laws.specs.KnownStores.{KnownStoresAreTyped};
ghost use Rattle.rest_laws.specs.Laws.{CountsDoNotMatter, CutsAreNeeded, CutsAreThere, KnownBeforeIsKept, RestsAreThere};
ghost use Rattle.rest_laws.specs.Replays.{CutTapesReplayRests};

use record_replay_spec::known_is_kept;
use tape_laws::{known_values_are_typed, laws_of_runs, laws_of_steps, runs_read_what_is_there};

/// A history has a rest from a top-level call on exactly where the call's number is below the number of such calls.
pub fn rests_are_there()
    ensures { RestsAreThere }
{}

/// A tape has a cut at a top-level call exactly where the call's number is below the number of those that it makes.
pub fn cuts_are_there()
    ensures { CutsAreThere }
{}

/// What is known before a top-level call, by a search of all observations, is what is known one observation at a time.
pub fn known_before_is_kept()
    ensures { KnownBeforeIsKept }
{
    known_is_kept();
}

/// A run whose history has a rest from a top-level call on makes this call where only the host's own actions are on the
/// stack, or as the call of the start function; and its observations have what is known there, and those that are left.
pub fn calls_are_of_runs()
    ensures { CallsAreOfRuns }
{}

/// A needed tape has a cut at a top-level call exactly where the observations have this call; the cut is needed by what
/// is left of the observations.
pub fn cuts_are_needed()
    ensures { CutsAreNeeded }
{}

/// A tape's run that comes to an outcome does so, with the same history, whatever calls of imports were counted before.
pub fn counts_do_not_matter()
    ensures { CountsDoNotMatter }
{}

/// The cut of the tape that a run needs, at a top-level call, replays the rest of the run: its run from each store that
/// holds what is known before the call ends with the run's outcome and exactly the rest of its history.
pub fn cut_tapes_replay_rests()
    ensures { CutTapesReplayRests }
{
    known_before_is_kept();
    laws_of_steps();
    laws_of_runs();
    runs_read_what_is_there();
}

/// What is known before a top-level call makes a store that is well typed for the module, holds just what is known, and
/// has the maxima and the immutable globals of the store in which the run begins.
pub fn known_stores_are_typed()
    ensures { KnownStoresAreTyped }
{
    known_before_is_kept();
    laws_of_steps();
    laws_of_runs();
    runs_read_what_is_there();
    known_values_are_typed();
}

/// A cut fits each module that its tape fits.
pub fn cuts_fit()
    ensures { CutsFit }
{}

/// A cut has the last segments of its tape, the first of them as one that begins a run.
pub fn cuts_are_last()
    ensures { CutsAreLast }
{}

/// A cut weighs at most what its tape does.
pub fn cuts_are_light()
    ensures { CutsAreLight }
{}
