// Runs with foreign functions.

ghost use Rattle.worked_instances.specs.ForeignHistories.{WorkedForeignRuns};
ghost use Rattle.worked_instances.specs.WidenedModules.{WorkedWidened};

/// The runs of the example modules with foreign functions have the histories that are stated for them.
pub fn foreign_runs_have_their_histories()
    ensures { WorkedForeignRuns }
{}

/// An example module has the widened module that is stated for it, whose run has the same history.
pub fn widened_modules_run_alike()
    ensures { WorkedWidened }
{}
