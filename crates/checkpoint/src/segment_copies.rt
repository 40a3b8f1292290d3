// Copies of segments.

ghost use Rattle.std.specs.Prelude.{◌≡◌, ◌++◌, IfOk, OnOk};

use base::NoMemory;
use std::alloc::Global;
use trace_model::{Effect, Effects, Next, Origin, Segment};
use wasm_syntax::List;

/// A copy of a segment that has this origin.
pub(crate) fn copied_segment(
    alloc: Global,
    segment: &Segment,
    origin: Origin,
) -> Result<Segment, NoMemory>
    ensures { IfOk result (λ copy. copy ≡ record segment.now { origin = origin }) }
{
    let effects = copied_effects(alloc, segment.effects.as_slice())?;
    let next = copied_next(&segment.next)?;
    Ok(Segment {
        origin,
        effects,
        next,
    })
}

/// Appends copies of segments.
pub(crate) fn push_segments(
    alloc: Global,
    copies: &mut Vec<Segment>,
    segments: &[Segment],
) -> Result<(), NoMemory>
    ensures { OnOk result (copies.new.items ≡ copies.old.items ++ segments.now) }
{
    copies.reserve(segments.len())?;
    'segments: for segment in segments {
        copies.push(copied_segment(alloc, segment, segment.origin)?)?;
    }
    Ok(())
}

/// Copies of effects.
fn copied_effects(alloc: Global, effects: &[Effect]) -> Result<Effects, NoMemory>
    ensures { IfOk result (λ copies. copies ≡ effects.now) }
{
    let mut copies = Vec::with_capacity(alloc, effects.len())?;
    'effects: for effect in effects {
        copies.push(copied_effect(effect)?)?;
    }
    Ok(List::from_vec(copies))
}

/// A copy of an effect.
fn copied_effect(effect: &Effect) -> Result<Effect, NoMemory>
    ensures { IfOk result (λ copy. copy ≡ effect.now) }
{
    Ok(match effect {
        &Effect::Grow { pages } => Effect::Grow { pages },
        &Effect::Table { size } => Effect::Table { size },
        Effect::Bytes { addr, bytes } => Effect::Bytes {
            addr: *addr,
            bytes: bytes.clone()?,
        },
        &Effect::Entry { index, func } => Effect::Entry { index, func },
        &Effect::Global { global, value } => Effect::Global { global, value },
    })
}

/// A copy of how control leaves the host.
fn copied_next(next: &Next) -> Result<Next, NoMemory>
    ensures { IfOk result (λ copy. copy ≡ next.now) }
{
    Ok(match next {
        Next::Call { func, args } => Next::Call {
            func: *func,
            args: args.clone()?,
        },
        &Next::Return { result } => Next::Return { result },
        Next::End => Next::End,
        Next::Trap => Next::Trap,
    })
}
