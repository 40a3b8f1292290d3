// The order of a segment's effects.

ghost use Rattle.std.specs.Prelude.{◌≡◌};
ghost use Rattle.trace_model.specs.Effects.{are_ordered, is_before};

use crate::tapes::Effect;

/// Whether the effects are in the order of a tape.
pub(crate) fn are_ordered(effects: &[Effect]) -> bool
    ensures { result ≡ are_ordered effects.now }
{
    let Some((first, others)) = effects.split_first() else {
        return true;
    };
    let mut last = first;
    'others: for next in others {
        if !is_before(last, next) {
            return false;
        }
        last = next;
    }
    true
}

/// Whether an effect may come directly before another.
fn is_before(effect: &Effect, next: &Effect) -> bool
    ensures { result ≡ is_before effect.now next.now }
{
    match effect {
        Effect::Grow { .. } => !matches!(next, Effect::Grow { .. }),
        Effect::Table { .. } => !matches!(next, Effect::Grow { .. } | Effect::Table { .. }),
        Effect::Bytes { addr, bytes } => match next {
            Effect::Grow { .. } | Effect::Table { .. } => false,
            Effect::Bytes { addr: other, .. } => {
                u64::from(*addr).saturating_add(bytes.as_slice().len() as u64) < u64::from(*other)
            }
            _ => true,
        },
        Effect::Entry { index, .. } => match next {
            Effect::Entry { index: other, .. } => index < other,
            _ => matches!(next, Effect::Global { .. }),
        },
        Effect::Global { global, .. } => match next {
            Effect::Global { global: other, .. } => global < other,
            _ => false,
        },
    }
}
