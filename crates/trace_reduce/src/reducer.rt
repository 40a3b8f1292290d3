// The reducer: it takes events one after another, and keeps only the tape of their log.

ghost use Rattle.std.specs.Prelude.{◌≡◌, ◌+◌, ◌∷◌, List, [], Some, None, is_none, IsErr, OnOk, OnErr};
ghost use Rattle.record_replay_spec.specs.LogTapes.{LogFrame, event_marks, import_marks, is_at_host};
ghost use Rattle.trace_model.specs.Balance.{balanced_step};
ghost use Rattle.trace_model.specs.Sink.{TookAlso};
ghost use Rattle.trace_reduce.specs.Answers.{IsAnswer};
ghost use Rattle.trace_reduce.specs.Builder.{TakesMarks, turn_marks};
ghost use Rattle.trace_reduce.specs.Reducer.{HasLost, HasTaken, HasTakenSince, TakesEvent, Reports, imports_of, log_frames, most_of};
ghost use Rattle.trace_reduce.specs.declared.reducer.Progress.TheVariants.{InOrder};

use crate::builder::{TapeBuilder, Turn};
use crate::faults::ReducerFault;
use base::{NoMemory, Outcome};
use std::alloc::Global;
use trace_model::balance::Frames;
use trace_model::{Balance, Effect, Event, EventSink, Next, Origin, Tape};

/// The state of a reducer: all events so far are balanced; the number reported for the first unbalanced event; or
/// memory was out.
#[derive(Clone, Copy)]
pub(crate) enum Progress {
    InOrder,
    Unbalanced(u64),
    Lost,
}

/// Takes the events of a log one after another and keeps the tape that they make, and no event.
#[derive(Drop)]
pub struct Reducer {
    pub(crate) imports: u32,
    pub(crate) balance: Balance,
    pub(crate) builder: TapeBuilder,
    pub(crate) size: u32,
    pub(crate) count: u64,
    pub(crate) progress: Progress,
}

/// Whether control is at the host.
fn is_at_host(frames: &Frames, imports: u32) -> bool
    ensures { result ≡ is_at_host imports (log_frames frames.now) }
{
    frames.is_empty() || frames.calls_import(imports)
}

/// What the call of an import reports; the call of another function reports nothing.
fn import_turn(callee: Option<u32>, imports: u32) -> Option<Turn>
    ensures { turn_marks result ≡ import_marks imports callee }
{
    match callee {
        Some(callee) if callee < imports => Some(Turn::Begins(Origin::Import(callee))),
        _ => None,
    }
}

/// What an event reports of the host, by whether control was there before it and is there after it, and by the
/// size that the last growth reported.
fn turn_of(event: Event, imports: u32, was_at_host: bool, at_host: bool, size: u32) -> Option<Turn>
    ensures { (before after : List LogFrame) → is_at_host imports before ≡ was_at_host
        → is_at_host imports after ≡ at_host → turn_marks result ≡ event_marks imports before after size event }
{
    match event {
        Event::Enter { func, args } if was_at_host => Some(Turn::Ends(Next::Call { func, args })),
        Event::Leave { .. } if at_host => Some(Turn::Begins(Origin::Back)),
        Event::Pre { callee } => import_turn(callee, imports),
        Event::Post { result } if was_at_host => Some(Turn::Ends(Next::Return { result })),
        Event::Seen => Some(Turn::Finds(Effect::Grow { pages: size })),
        Event::Table { size } => Some(Turn::Finds(Effect::Table { size })),
        Event::Bytes { addr, bytes } => Some(Turn::Finds(Effect::Bytes { addr, bytes })),
        Event::Entry { index, func } => Some(Turn::Finds(Effect::Entry { index, func })),
        Event::Global { global, value } => Some(Turn::Finds(Effect::Global { global, value })),
        _ => None,
    }
}

impl Reducer {
    /// A reducer that has taken no event, for a log of a module with this number of imported functions and a
    /// tape with this limit of weight. Takes no memory.
    pub fn new(alloc: Global, imports: u32, most: u64) -> Reducer
        ensures taken { HasTaken result [] }
        ensures keeps { HasLost result → ⊥ }
        ensures imports { imports_of result ≡ imports }
        ensures most { most_of result ≡ most }
    {
        Reducer {
            imports,
            balance: Balance::new(alloc),
            builder: TapeBuilder::new(alloc, most),
            size: 0,
            count: 0,
            progress: Progress::InOrder,
        }
    }

    /// The number of functions that the module imports.
    pub fn imports(&self) -> u32
        ensures { result ≡ imports_of self.now }
    {
        self.imports
    }

    /// Takes an event.
    ///
    /// # Errors
    /// `NoMemory` if an allocation failed; the tape is lost then and only then, and each later call fails so too.
    pub fn push(&mut self, event: Event) -> Result<(), NoMemory>
        ensures ok { OnOk result (TookAlso HasTakenSince self.old self.new (event ∷ [])) }
        ensures refused { OnErr result (TookAlso HasTakenSince self.old self.new []) }
        ensures keeps { OnOk result (HasLost self.new → ⊥) }
        ensures loses { OnErr result (HasLost self.new) }
        ensures lost { HasLost self.old → IsErr result }
        ensures imports { imports_of self.new ≡ imports_of self.old }
        ensures most { most_of self.new ≡ most_of self.old }
    {
        match self.progress {
            Progress::InOrder => {}
            Progress::Unbalanced(_) => return Ok(()),
            Progress::Lost => return Err(NoMemory),
        }
        let taken = self.step(event);
        if taken.is_err() {
            self.progress = Progress::Lost;
        }
        taken
    }

    /// Takes an event after balanced events.
    fn step(&mut self, event: Event) -> Result<(), NoMemory>
        ensures takes { OnOk result (self.old.progress ≡ InOrder → TakesEvent self.old event self.new) }
        ensures keeps { OnOk result (HasLost self.new → HasLost self.old) }
        ensures imports { self.new.imports ≡ self.old.imports }
        ensures most { most_of self.new ≡ most_of self.old }
    {
        if !self.balance.step(self.imports, &event)? {
            self.progress = Progress::Unbalanced(self.count);
            return Ok(());
        }
        self.count = self.count.saturating_add(1);
        self.report(event)
    }

    /// Passes an event to the tape, after the balance has taken it.
    fn report(&mut self, event: Event) -> Result<(), NoMemory>
        ensures reports { OnOk result (Reports self.old event self.new) }
        ensures progress { self.new.progress ≡ self.old.progress }
        ensures imports { self.new.imports ≡ self.old.imports }
        ensures most { most_of self.new ≡ most_of self.old }
    {
        let size = self.size;
        if let Event::Grow { pages } = &event {
            self.size = *pages;
        }
        let at_host = is_at_host(&self.balance.frames, self.imports);
        let turn = turn_of(
            event,
            self.imports,
            self.builder.is_at_host(),
            at_host,
            size,
        );
        if let Some(turn) = turn {
            self.builder.take(turn)?;
        }
        Ok(())
    }

    /// The tape of the log of the events, whose run ended with this outcome.
    ///
    /// # Errors
    /// The first unbalanced event, or the outcome, by its number from 0, which stays at `u64::MAX`; the tape's weight
    /// if it is more than the limit; `Memory` if an allocation failed.
    pub fn finish(self, outcome: Outcome) -> Result<Tape, ReducerFault>
        ensures { (taken : List Event) → HasTaken self taken
            → IsAnswer (most_of self) (record { imports = imports_of self; events = taken; outcome = outcome })
            result }
    {
        match self.progress {
            Progress::InOrder => {}
            Progress::Unbalanced(event) => return Err(ReducerFault::Unbalanced { event }),
            Progress::Lost => return Err(ReducerFault::Memory),
        }
        if !self.balance.ends_so(self.imports, outcome) {
            return Err(ReducerFault::Unbalanced { event: self.count });
        }
        let Reducer { builder, .. } = self;
        builder.finish(outcome)
    }
}

impl EventSink for Reducer {
    ghost use Rattle.trace_reduce.specs.Reducer.{HasTakenSince};

    ghost has_taken = { HasTakenSince };

    fn event(&mut self, event: Event) -> Result<(), NoMemory>
        ensures ok { OnOk result (TookAlso HasTakenSince self.old self.new (event ∷ [])) }
        ensures refused { OnErr result (TookAlso HasTakenSince self.old self.new []) }
        ensures keeps { OnOk result (HasLost self.new → ⊥) }
        ensures loses { OnErr result (HasLost self.new) }
    {
        self.push(event)
    }
}
