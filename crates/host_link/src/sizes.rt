// The sizes with which a memory and a table begin, found without making them.

ghost use Rattle.std.specs.Prelude.{◌≡◌};
ghost use Rattle.history_spec.specs.Instantiation.{memory_length, new_store, table_length};
ghost use Rattle.wasm_store.specs.Parts.{minimum_of};
ghost use Rattle.host_link.specs.Link.{HasLimits, first_of};

use host_script::Supply;
use wasm_syntax::limits::PAGE_SIZE;
use wasm_syntax::{Limits, Module};

/// The number of bytes with which the memory begins, 0 without one.
#[tactic(auto, using(crate::proofs::FirstSizes::bytes_at_first))]
pub(crate) fn memory_size(module: &Module, supply: &Supply) -> u64
    requires { HasLimits «module».now supply.now }
    ensures { result ≡ memory_length (new_store «module».now supply.now).memory }
{
    let pages = minimum(first_of(supply.memory, module.memories.as_slice()));
    u64::from(pages) * u64::from(PAGE_SIZE)
}

/// The number of entries with which the table begins, 0 without one.
#[tactic(auto, using(crate::proofs::FirstSizes::entries_at_first))]
pub(crate) fn table_size(module: &Module, supply: &Supply) -> u64
    requires { HasLimits «module».now supply.now }
    ensures { result ≡ table_length (new_store «module».now supply.now).table }
{
    u64::from(minimum(first_of(supply.table, module.tables.as_slice())))
}

/// The limits that are supplied, or else those that are declared first.
pub(crate) fn first_of(supplied: Option<Limits>, declared: &[Limits]) -> Option<Limits>
    ensures { result ≡ first_of supplied declared.now }
{
    match supplied {
        Some(limits) => Some(limits),
        None => declared.first().copied(),
    }
}

/// The least size that limits allow, 0 without any.
fn minimum(limits: Option<Limits>) -> u32
    ensures { result ≡ minimum_of limits }
{
    match limits {
        Some(limits) => limits.min,
        None => 0,
    }
}
