// What a script supplies for a module's imports (Core 1.0, 4.5.2).

ghost use Rattle.std.specs.Prelude.{◌≡◌, ◌≤◌, None, Some, Ok, Err, IfOk, IfErr, OnOk, option_and_then, slice_get, cond, is_some};
ghost use Rattle.std.specs.List.{list_any};
ghost use Rattle.host_script.specs.declared.scripts.LinkFault.TheVariants.{Memory};
ghost use Rattle.host_script.specs.Supply.{import_match, globals_in as global_count, fault_or, first_fault, given_values as values_given, supply_of as supply_meant};
ghost use Rattle.wasm_syntax.specs.Index.{memory_import, table_import};

use crate::match_rules::{limits_fault, value_fault};
use base::NoMemory;
use host_script::{LinkFault, Script, Supply};
use std::alloc::Global;
use wasm_syntax::limits::{MAX_ENTRIES, MAX_PAGES};
use wasm_syntax::{Import, ImportKind, Limits, List, Module, Val, Vals};

/// The value given for an imported global, by its place among these.
fn given_at(script: &Script, global: usize) -> Option<Val>
    ensures { result ≡ option_and_then (λ value. value) (slice_get script.now.globals global) }
{
    match script.globals.as_slice().get(global) {
        Some(value) => *value,
        None => None,
    }
}

/// The fault of one import that has `globals` imported globals before it.
fn import_fault(script: &Script, globals: usize, import: u32, kind: ImportKind) -> Option<LinkFault>
    ensures { result ≡ fault_or (import_match script.now globals kind) import None }
{
    match kind {
        ImportKind::Func(_) => None,
        ImportKind::Table(wanted) => limits_fault(import, MAX_ENTRIES, script.table, wanted),
        ImportKind::Memory(wanted) => limits_fault(import, MAX_PAGES, script.memory, wanted),
        ImportKind::Global(wanted) => value_fault(import, given_at(script, globals), wanted),
    }
}

/// The number of globals that an import adds: 1 for a global, else 0.
fn globals_in(kind: ImportKind) -> usize
    ensures value { result ≡ global_count kind }
    ensures bound { result ≤ 1 }
{
    match kind {
        ImportKind::Global(_) => 1,
        _ => 0,
    }
}

/// Tests that what is supplied for each import matches it.
fn check_imports(imports: &[Import], script: &Script) -> Result<(), LinkFault>
    ensures ok { OnOk result (first_fault script.now imports.now 0 0 ≡ None) }
    ensures err { IfErr result (λ fault. (fault ≡ Memory → ⊥)
        → first_fault script.now imports.now 0 0 ≡ Some fault) }
{
    let mut globals: usize = 0;
    'imports: for (index, import) in imports.iter().enumerate() {
        // More imports than 32 bits count do not fit into memory.
        let Ok(number) = u32::try_from(index) else {
            return Err(LinkFault::Memory);
        };
        if let Some(fault) = import_fault(script, globals, number, import.kind) {
            return Err(fault);
        }
        globals += globals_in(import.kind);
    }
    Ok(())
}

/// The values that are given.
fn given_values(alloc: Global, given: &[Option<Val>]) -> Result<Vals, NoMemory>
    ensures { IfOk result (λ values. values ≡ values_given given.now) }
{
    let mut values = Vec::new(alloc);
    'given: for value in given {
        match value {
            Some(value) => values.push(*value)?,
            None => {}
        }
    }
    Ok(List::from_vec(values))
}

/// Whether a memory is imported.
pub fn imports_memory(imports: &[Import]) -> bool
    ensures { result ≡ list_any (λ import. is_some (memory_import import.kind)) imports.now }
{
    imports
        .iter()
        .any(|import| matches!(import.kind, ImportKind::Memory(_)))
}

/// Whether a table is imported.
pub fn imports_table(imports: &[Import]) -> bool
    ensures { result ≡ list_any (λ import. is_some (table_import import.kind)) imports.now }
{
    imports
        .iter()
        .any(|import| matches!(import.kind, ImportKind::Table(_)))
}

/// The limits that a script supplies, if something of their kind is imported.
fn limits_if(is_imported: bool, limits: Option<Limits>) -> Option<Limits>
    ensures { result ≡ cond is_imported limits None }
{
    if is_imported { limits } else { None }
}

/// What a script supplies for the imports of a module (Core 1.0, 4.5.2). The script fits the module.
///
/// # Errors
/// `Missing` or `Mismatch` with its place, for the first import that is not supplied or does
/// not match; `Memory` if an allocation failed. Never `Segment`.
pub fn supply_of(alloc: Global, module: &Module, script: &Script) -> Result<Supply, LinkFault>
    ensures ok { IfOk result (λ supply. supply_meant «module».now script.now ≡ Ok supply) }
    ensures err { IfErr result (λ fault. (fault ≡ Memory → ⊥)
        → supply_meant «module».now script.now ≡ Err fault) }
{
    let imports = module.imports.as_slice();
    check_imports(imports, script)?;
    let Ok(globals) = given_values(alloc, script.globals.as_slice()) else {
        return Err(LinkFault::Memory);
    };
    Ok(Supply {
        memory: limits_if(imports_memory(imports), script.memory),
        table: limits_if(imports_table(imports), script.table),
        globals,
    })
}
