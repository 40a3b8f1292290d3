// Limits of the memory and of the table: the supplied ones if it is imported, else those that
// are declared.

ghost use Rattle.std.specs.Prelude.{◌≡◌, cond, slice_get};
ghost use Rattle.history_spec.specs.Instantiation as history;

use host_script::Supply;
use host_supply::{imports_memory, imports_table};
use wasm_syntax::{Limits, Module};

/// The limits that are supplied, if there is an import for them, or those that are declared first.
fn chosen_limits(is_imported: bool, supplied: Option<Limits>, declared: &[Limits]) -> Option<Limits>
    ensures { result ≡ cond is_imported supplied (slice_get declared.now 0) }
{
    if is_imported {
        supplied
    } else {
        declared.first().copied()
    }
}

/// The limits of the memory; None if there is no memory.
pub fn memory_limits(module: &Module, supply: &Supply) -> Option<Limits>
    ensures { result ≡ history.memory_limits «module».now supply.now }
{
    let is_imported = imports_memory(module.imports.as_slice());
    chosen_limits(is_imported, supply.memory, module.memories.as_slice())
}

/// The limits of the table; None if there is no table.
pub fn table_limits(module: &Module, supply: &Supply) -> Option<Limits>
    ensures { result ≡ history.table_limits «module».now supply.now }
{
    let is_imported = imports_table(module.imports.as_slice());
    chosen_limits(is_imported, supply.table, module.tables.as_slice())
}
