// The tape of a log that is whole in memory.

ghost use Rattle.std.specs.Prelude.{◌≡◌, ℕ, ◌^◌, ◌-◌, ◌≤◌, List, [], ◌∷◌, length, IfOk, OnOk};
ghost use Rattle.trace_model.specs.declared.events.Event.{Event};
ghost use Rattle.trace_model.specs.declared.events.Log.{Log};
ghost use Rattle.trace_reduce.specs.Answers.{IsAnswer, IsReduction};
ghost use Rattle.trace_reduce.specs.Reducer.{IsPart};

use crate::faults::{ReduceFault, ReducerFault};
use crate::reducer::Reducer;
use base::NoMemory;
use std::alloc::Global;
use trace_model::{Event, Log, Tape};

/// A copy of an event.
fn copy_of(event: &Event) -> Result<Event, NoMemory>
    ensures { IfOk result (λ copy. copy ≡ event.now) }
{
    Ok(match event {
        Event::Enter { func, args } => Event::Enter {
            func: *func,
            args: args.clone()?,
        },
        &Event::Leave { func } => Event::Leave { func },
        &Event::Pre { callee } => Event::Pre { callee },
        &Event::Post { result } => Event::Post { result },
        &Event::Grow { pages } => Event::Grow { pages },
        Event::Seen => Event::Seen,
        &Event::Table { size } => Event::Table { size },
        Event::Bytes { addr, bytes } => Event::Bytes {
            addr: *addr,
            bytes: bytes.clone()?,
        },
        &Event::Entry { index, func } => Event::Entry { index, func },
        &Event::Global { global, value } => Event::Global { global, value },
    })
}

/// Takes the next event of a log.
fn push_copy(reducer: &mut Reducer, event: &Event) -> Result<(), NoMemory>
    ensures { OnOk result ((n most : ℕ) (all later : List Event) → IsPart n most all (event.now ∷ later) reducer.old
        → IsPart n most all later reducer.new) }
{
    let copy = copy_of(event)?;
    reducer.push(copy)
}

/// Takes the remaining events of a log.
fn push_all(reducer: &mut Reducer, events: &[Event]) -> Result<(), NoMemory>
    ensures { OnOk result ((n most : ℕ) (all : List Event) → IsPart n most all events.now reducer.old
        → IsPart n most all [] reducer.new) }
{
    'events: for event in events {
        push_copy(reducer, event)?;
    }
    Ok(())
}

/// The result without a limit of weight.
fn of_any_weight(answer: Result<Tape, ReducerFault>) -> Result<Tape, ReduceFault>
    ensures { (most : ℕ) (log : Log) → length log.events ≤ 2 ^ 64 - 1 → IsAnswer most log answer
        → IsReduction log result }
{
    match answer {
        Ok(tape) => Ok(tape),
        Err(ReducerFault::Unbalanced { event }) => Err(ReduceFault::Unbalanced { event }),
        Err(_) => Err(ReduceFault::Memory),
    }
}

/// The tape of a log: what its host did, as far as the module observed it.
///
/// # Errors
/// The first unbalanced event, or the outcome; `Memory` if an allocation failed.
pub fn reduce(alloc: Global, log: &Log) -> Result<Tape, ReduceFault>
    ensures { IsReduction log.now result }
{
    let mut reducer = Reducer::new(alloc, log.imports, u64::MAX);
    let Ok(()) = push_all(&mut reducer, log.events.as_slice()) else {
        return Err(ReduceFault::Memory);
    };
    of_any_weight(reducer.finish(log.outcome))
}
