// Whether what is supplied for an import matches it (Core 1.0, 4.5.2).

ghost use Rattle.std.specs.Prelude.{◌≡◌, None};
ghost use Rattle.host_script.specs.Supply.{is_within as within, keeps_max as max_kept, limits_match as limits_alike, match_of_limits, match_of_value, fault_or};

use host_script::{LinkFault, is_type};
use wasm_syntax::{GlobalType, Limits, Val};

/// Whether a size is at most a maximum, if there is one.
fn is_within(size: u32, most: Option<u32>) -> bool
    ensures { result ≡ within size most }
{
    match most {
        Some(max) => size <= max,
        None => true,
    }
}

/// Whether there is a maximum of at most what an import wants, if the import wants one.
fn keeps_max(given: Option<u32>, wanted: Option<u32>) -> bool
    ensures { result ≡ max_kept given wanted }
{
    match (given, wanted) {
        (_, None) => true,
        (None, Some(_)) => false,
        (Some(given), Some(wanted)) => given <= wanted,
    }
}

/// Whether supplied limits match an import's, and are within the most that anything may begin with.
fn limits_match(most: u32, given: Limits, wanted: Limits) -> bool
    ensures { result ≡ limits_alike most given wanted }
{
    wanted.min <= given.min
        && keeps_max(given.max, wanted.max)
        && is_within(given.min, given.max)
        && given.min <= most
}

/// The fault of an imported memory or table, if there is one.
pub(crate) fn limits_fault(
    import: u32,
    most: u32,
    given: Option<Limits>,
    wanted: Limits,
) -> Option<LinkFault>
    ensures { result ≡ fault_or (match_of_limits most given wanted) import None }
{
    match given {
        None => Some(LinkFault::Missing { import }),
        Some(given) if limits_match(most, given, wanted) => None,
        Some(_) => Some(LinkFault::Mismatch { import }),
    }
}

/// The fault of an imported global, if there is one.
pub(crate) fn value_fault(import: u32, given: Option<Val>, wanted: GlobalType) -> Option<LinkFault>
    ensures { result ≡ fault_or (match_of_value given wanted) import None }
{
    match given {
        None => Some(LinkFault::Missing { import }),
        Some(given) if is_type(given.ty, wanted.ty) => None,
        Some(_) => Some(LinkFault::Mismatch { import }),
    }
}
