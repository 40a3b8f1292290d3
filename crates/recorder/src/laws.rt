// The laws of a recorder's runs.

ghost use Rattle.recorder.specs.Laws.{CallsAreRecorded, LogsAreRecorded, StepsAreRecorded};

use trace_model::EventSink;

/// From a recorder's state, a call that is accepted leads to the next states of the order and of the log, and the
/// sink took its events; only a call out of order is refused as such; and a freeze keeps both states.
pub fn steps_are_recorded<S: EventSink>()
    ensures { StepsAreRecorded S.has_taken }
{}

/// From a recorder's state, a run of calls that are all accepted gives its sink exactly the events of their log;
/// if a call is refused as out of order, it is the first such call.
pub fn calls_are_recorded<S: EventSink>()
    ensures { CallsAreRecorded S.has_taken }
{}

/// From a new recorder, whose sink has taken nothing, a run of calls that are all accepted gives its sink
/// exactly the events of the calls' log.
pub fn logs_are_recorded<S: EventSink>()
    ensures { LogsAreRecorded S.has_taken }
{}
