// Sinks, which take events one after another.

ghost use Rattle.std.specs.Prelude.{[], ◌∷◌, OnOk, OnErr};
ghost use Rattle.trace_model.specs.Sink.{TookAlso};

use crate::events::{Event, Events};
use base::NoMemory;

/// A sink takes the events of a log one after another. What it has taken is a relation, since it need not keep
/// the events. The relation also names the sink before its first event, which says what the sink was made with.
pub trait EventSink {
    ghost use Rattle.std.specs.Prelude.{List};
    ghost use Rattle.trace_model.specs.declared.events.Event.{Event};

    // the sink that began as the first has become the second by taking these events
    ghost has_taken: { Self → Self → List Event → Type 0 };

    /// Takes an event.
    ///
    /// # Errors
    /// `NoMemory` if an allocation failed; the event is not taken then.
    fn event(&mut self, event: Event) -> Result<(), NoMemory>
        ensures ok { OnOk result (TookAlso has_taken self.old self.new (event ∷ [])) }
        ensures refused { OnErr result (TookAlso has_taken self.old self.new []) };
}

/// A list of events has taken exactly the events that it holds after those that it began with.
impl EventSink for Events {
    ghost use Rattle.std.specs.Prelude.{◌≡◌, ◌++◌};

    ghost has_taken = { λ first events taken. events ≡ first ++ taken };

    fn event(&mut self, event: Event) -> Result<(), NoMemory> {
        self.push(event)
    }
}
