// Types (Core 1.0, 5.3).

ghost use Rattle.std.specs.Prelude.{◌≡◌, ◌^◌, ◌<◌, ◌≤◌, ◌++◌, ◌∷◌, [], length, OnOk};
ghost use Rattle.wasm_syntax.specs.Encoding.Shortest.{block_type_bytes, global_type_bytes, limits_bytes};

use crate::lengths::u32_length;
use crate::parts::{push_marked, push_pair};
use base::NoMemory;
use base::marks::{LIMITS_MIN, LIMITS_MIN_MAX, TYPE_EMPTY};
use leb_bytes::push_u32;
use wasm_syntax::{GlobalType, Limits, ValType};

/// How many bytes limits have.
#[tactic(auto, unfolding(wasm_syntax::specs::Encoding::Shortest::limits_bytes))]
pub(crate) fn limits_length(limits: &Limits) -> u64
    ensures length { result ≡ length (limits_bytes limits.now) }
    ensures few { result < 2 ^ 8 }
{
    let least = u32_length(u64::from(limits.min));
    match limits.max {
        None => 1 + least,
        Some(most) => 1 + least + u32_length(u64::from(most)),
    }
}

/// Appends limits (Core 1.0, 5.3.4).
#[tactic(auto, unfolding(wasm_syntax::specs::Encoding::Shortest::limits_bytes))]
pub(crate) fn write_limits(limits: &Limits, out: &mut Vec<u8>) -> Result<(), NoMemory>
    ensures { OnOk result (out.new.items ≡ out.old.items ++ limits_bytes limits.now) }
{
    match limits.max {
        None => push_marked(out, LIMITS_MIN, limits.min),
        Some(most) => {
            push_marked(out, LIMITS_MIN_MAX, limits.min)?;
            push_u32(out, most)
        }
    }
}

/// How many bytes the type of a global has.
#[tactic(auto, unfolding(wasm_syntax::specs::Encoding::Shortest::global_type_bytes))]
pub(crate) fn global_type_length(_ty: GlobalType) -> u64
    ensures length { result ≡ length (global_type_bytes _ty) }
    ensures few { result ≤ 2 }
{
    2
}

/// Appends the type of a global (Core 1.0, 5.3.7).
#[tactic(auto, unfolding(wasm_syntax::specs::Encoding::Shortest::global_type_bytes))]
pub(crate) fn write_global_type(ty: GlobalType, out: &mut Vec<u8>) -> Result<(), NoMemory>
    ensures { OnOk result (out.new.items ≡ out.old.items ++ global_type_bytes ty) }
{
    push_pair(out, ty.ty.byte(), u8::from(ty.mutable))
}

/// The byte of a block's type (Core 1.0, 5.3.2).
pub(crate) fn block_type_byte(ty: Option<ValType>) -> u8
    ensures { block_type_bytes ty ≡ result ∷ [] }
{
    match ty {
        None => TYPE_EMPTY,
        Some(result_type) => result_type.byte(),
    }
}
