// Laws of the definitions, each the contract of a function; the statements are in `specs/Budget.antt`.

ghost use Rattle.history_spec.specs.Budget.{RunsHaveOneResultAtMost, RunsHaveSomeResult};

/// Within a budget of turns a run has one result at most: it is over, by an outcome or a fault of
/// the script, or its turns are spent. This holds under every meter.
pub fn runs_have_one_result_at_most()
    ensures { RunsHaveOneResultAtMost }
{}

/// If each step is a turn, a run has some result within each budget.
pub fn runs_have_some_result()
    ensures { RunsHaveSomeResult }
{}
