// The arguments of hook calls, by the types that hooks take.

ghost use Rattle.std.specs.Prelude.{◌≡◌, [], ◌∷◌, false, MatchOption};
ghost use Rattle.wasm_syntax.specs.declared.values.ValType.TheVariants.{I32, I64};
ghost use Rattle.wasm_syntax.specs.Alike.{same_types};
ghost use Rattle.history_spec.specs.Code.{types_of};
ghost use Rattle.hook_order.specs.Args.{AreArgs};

use module_index::same_type;
use wasm_syntax::{Val, ValType};

/// Whether a value has this type.
#[inline(always)]
fn is(value: &Val, ty: ValType) -> bool
    ensures { result ≡ same_types (ty ∷ []) (types_of (value.now ∷ [])) }
{
    same_type(ty, value.ty)
}

/// Whether there are no arguments.
#[inline(always)]
pub(crate) fn none(args: &[Val]) -> bool
    ensures { result ≡ same_types [] (types_of args.now) }
{
    args.is_empty()
}

/// The bits of one argument.
#[inline(always)]
pub(crate) fn one(args: &[Val]) -> Option<u64>
    ensures { MatchOption result (same_types (I32 ∷ []) (types_of args.now) ≡ false)
        (λ a. AreArgs (I32 ∷ []) args.now (a ∷ [])) }
{
    match args {
        [a] if is(a, ValType::I32) => Some(a.bits),
        _ => None,
    }
}

/// The bits of two arguments; the second has 64 bits.
#[inline(always)]
pub(crate) fn two(args: &[Val]) -> Option<(u64, u64)>
    ensures { MatchOption result (same_types (I32 ∷ I64 ∷ []) (types_of args.now) ≡ false)
        (λ a. AreArgs (I32 ∷ I64 ∷ []) args.now (a.0 ∷ a.1 ∷ [])) }
{
    match args {
        [a, b] if is(a, ValType::I32) && is(b, ValType::I64) => Some((a.bits, b.bits)),
        _ => None,
    }
}

/// The bits of three arguments.
#[inline(always)]
pub(crate) fn three(args: &[Val]) -> Option<(u64, u64, u64)>
    ensures { MatchOption result (same_types (I32 ∷ I32 ∷ I32 ∷ []) (types_of args.now) ≡ false)
        (λ a. AreArgs (I32 ∷ I32 ∷ I32 ∷ []) args.now (a.0 ∷ a.1 ∷ a.2 ∷ [])) }
{
    match args {
        [a, b, c] if is(a, ValType::I32) && is(b, ValType::I32) && is(c, ValType::I32) => {
            Some((a.bits, b.bits, c.bits))
        }
        _ => None,
    }
}

/// The bits of four arguments; the last has 64 bits.
#[inline(always)]
pub(crate) fn four(args: &[Val]) -> Option<(u64, u64, u64, u64)>
    ensures { MatchOption result (same_types (I32 ∷ I32 ∷ I32 ∷ I64 ∷ []) (types_of args.now) ≡ false)
        (λ a. AreArgs (I32 ∷ I32 ∷ I32 ∷ I64 ∷ []) args.now (a.0 ∷ a.1 ∷ a.2 ∷ a.3 ∷ [])) }
{
    match args {
        [a, b, c, d]
            if is(a, ValType::I32)
                && is(b, ValType::I32)
                && is(c, ValType::I32)
                && is(d, ValType::I64) => { Some((a.bits, b.bits, c.bits, d.bits)) }
        _ => None,
    }
}
