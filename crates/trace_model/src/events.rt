// The events of a log: what the host did, and what the module observed of it.

ghost use Rattle.std.specs.Prelude.{◌≡◌, [], ◌∷◌, ◌++◌, OnOk, OnErr};

use base::{NoMemory, Outcome};
use std::alloc::Global;
use std::marker::Model;
use wasm_syntax::{Bytes, Val, Vals};

/// An event. Functions are named by their indices in the original module.
#[derive(Drop)]
pub enum Event {
    /// A defined function begins.
    Enter { func: u32, args: Vals },
    /// The function ends.
    Leave { func: u32 },
    /// A call begins, of a function or of an empty table entry.
    Pre { callee: Option<u32> },
    /// The call ends.
    Post { result: Option<Val> },
    /// The host left the memory with this number of pages.
    Grow { pages: u32 },
    /// The module reads the memory's size.
    Seen,
    /// The module finds the table with this number of entries.
    Table { size: u32 },
    /// The module finds these bytes from the address on.
    Bytes { addr: u32, bytes: Bytes },
    /// The module finds this function in the table, or an empty entry.
    Entry { index: u32, func: Option<u32> },
    /// The module finds this value in a global.
    Global { global: u32, value: Val },
}

/// The log of a run of a module with this number of imported functions.
#[derive(Drop)]
pub struct Log {
    pub imports: u32,
    pub events: Events,
    pub outcome: Outcome,
}

/// A list of events.
#[derive(Drop)]
pub struct Events {
    items: Vec<Event>,
}

impl Model for Events {
    ghost use Rattle.std.specs.Prelude.{List};
    ghost use Rattle.trace_model.specs.declared.events.Event.{Event};

    ghost Value = { List Event };

    ghost view = { λ events. events.items.items };
}

impl Events {
    /// No events. Takes no memory.
    pub fn new(alloc: Global) -> Events
        ensures { result ≡ [] }
    {
        Events {
            items: Vec::new(alloc),
        }
    }

    /// The events of a vector. Takes no memory.
    pub fn from_vec(items: Vec<Event>) -> Events
        ensures { result ≡ items.items }
    {
        Events { items }
    }

    /// The events as a slice.
    pub fn as_slice(&self) -> &[Event]
        ensures { result.now ≡ self.now }
    {
        self.items.as_slice()
    }

    /// Appends an event.
    ///
    /// # Errors
    /// `NoMemory` if an allocation failed; nothing is appended then.
    pub fn push(&mut self, event: Event) -> Result<(), NoMemory>
        ensures ok { OnOk result (self.new ≡ self.old ++ event ∷ []) }
        ensures refused { OnErr result (self.new ≡ self.old) }
    {
        self.items.push(event)?;
        Ok(())
    }
}
