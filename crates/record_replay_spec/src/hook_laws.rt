// Laws of hooks, instrumented modules and logs, each the contract of a function; the statements are in
// `specs/HookLaws.antt`.

ghost use Rattle.record_replay_spec.specs.HookLaws.{BodiesAreInstrumented, DifferingBytesAreReported, HooksAreAnswered, IndicesAreRenumbered, InstrumentedAreHooked, InstrumentedKeepIndices, LogTapeIsOne, OrderKnowsTable, TestedTapesAreOfLogs};

/// A function of the original has one index in the instrumented module, which is no hook's.
pub fn indices_are_renumbered()
    ensures { IndicesAreRenumbered }
{}

/// In a run of an instrumented module imports are answered as the script does, and hooks by doing nothing.
pub fn hooks_are_answered()
    ensures { HooksAreAnswered }
{}

/// Instrumented bodies are nested, each of their instructions has a weight, and these add up to the original's number
/// of instructions; the added locals follow the function's own.
pub fn bodies_are_instrumented()
    ensures { BodiesAreInstrumented }
{}

/// Functions, tables, memories and globals of an instrumented module are the original's, by their indices, and the
/// hooks are among its functions.
pub fn instrumented_keep_indices()
    ensures { InstrumentedKeepIndices }
{}

/// An instrumented module has the hooked form, if the original imports nothing from the hooks' module.
pub fn instrumented_are_hooked()
    ensures { InstrumentedAreHooked }
{}

/// The order of hook calls knows the size of the table that the log knows.
pub fn order_knows_table()
    ensures { OrderKnowsTable }
{}

/// The bytes that a load or a copy reads and that are not the known ones are reported in longest runs.
pub fn differing_bytes_are_reported()
    ensures { DifferingBytesAreReported }
{}

/// A log has at most one tape.
pub fn log_tape_is_one()
    ensures { LogTapeIsOne }
{}

/// A tape that passes the computable test is the tape of the log.
pub fn tested_tapes_are_of_logs()
    ensures { TestedTapesAreOfLogs }
{}
