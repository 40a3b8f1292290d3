// Whether what an import comes to matches the import.

ghost use Rattle.std.specs.Prelude.{◌≡◌, false};
ghost use Rattle.std.specs.Option.{option_copied, option_map_or};
ghost use Rattle.host_script.specs.Supply.{keeps_max as max_kept};
ghost use Rattle.wasm_syntax.specs.Alike as alike;
ghost use Rattle.pair_spec.specs.Faults.{declared_match as do_match, is_signature as is_same, same_global_type as same_global};

use module_index::same_type;
use wasm_syntax::{FuncType, GlobalType, Limits};

/// Whether types of globals are equal.
pub(crate) fn same_global_type(given: GlobalType, wanted: GlobalType) -> bool
    ensures { result ≡ same_global given wanted }
{
    same_type(given.ty, wanted.ty) && given.mutable == wanted.mutable
}

/// Whether there is a maximum of at most what an import wants, if the import wants one.
fn keeps_max(given: Option<u32>, wanted: Option<u32>) -> bool
    ensures { result ≡ max_kept given wanted }
{
    match (given, wanted) {
        (_, None) => true,
        (None, Some(_)) => false,
        (Some(given), Some(wanted)) => given <= wanted,
    }
}

/// Whether declared limits match those of an import.
pub(crate) fn declared_match(given: Limits, wanted: Limits) -> bool
    ensures { result ≡ do_match given wanted }
{
    wanted.min <= given.min && keeps_max(given.max, wanted.max)
}

/// Whether limits are there and match those of an import.
pub(crate) fn limits_match(given: Option<Limits>, wanted: Limits) -> bool
    ensures { result ≡ option_map_or (λ limits. do_match limits wanted) given false }
{
    match given {
        Some(limits) => declared_match(limits, wanted),
        None => false,
    }
}

/// Whether the type of a global is there and is that of an import.
pub(crate) fn global_matches(given: Option<GlobalType>, wanted: GlobalType) -> bool
    ensures { result ≡ option_map_or (λ ty. same_global ty wanted) given false }
{
    match given {
        Some(ty) => same_global_type(ty, wanted),
        None => false,
    }
}

/// Whether function types are equal in structure.
fn same_signature(given: &FuncType, wanted: &FuncType) -> bool
    ensures { result ≡ alike.same_signature given.now wanted.now }
{
    *given == *wanted
}

/// Whether a function type is there and is that of an import.
pub(crate) fn is_signature(given: Option<&FuncType>, wanted: Option<&FuncType>) -> bool
    ensures { result ≡ is_same (option_copied given.entry) (option_copied wanted.entry) }
{
    let Some(wanted) = wanted else {
        return false;
    };
    match given {
        Some(given) => same_signature(given, wanted),
        None => false,
    }
}
