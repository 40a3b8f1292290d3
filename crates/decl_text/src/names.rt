// Names that declarations can't have.

ghost use Rattle.std.specs.Prelude.{◌≡◌, IfOk, map, option_map};
ghost use Rattle.decl_text.specs.Walk.{Gives};
ghost use Rattle.decl_text.specs.Texts.{first_reserved as reserved_in, first_taken as taken_in, export_names, refuse};
ghost use Rattle.decl_text.specs.Names.{HoldsNames};
ghost use Rattle.decl_text.specs.declared.faults.DeclFault.TheVariants.{Reserved, Taken};

use crate::faults::DeclFault;
use base::NoMemory;
use indexmap::IndexSet;
use instance_spec::Decl;
use std::alloc::Global;
use wasm_syntax::{Module, Name};

/// The place of the first import from `foreign`.
fn first_reserved(module: &Module) -> Option<usize>
    ensures { result ≡ reserved_in 0 «module».now.imports }
{
    'imports: for (place, import) in module.imports.as_slice().iter().enumerate() {
        if import.module.as_str() == "foreign" {
            return Some(place);
        }
    }
    None
}

/// Tests that the module imports nothing from `foreign`.
pub(crate) fn refuse_reserved(module: &Module) -> Result<(), DeclFault>
    ensures { Gives result (refuse Reserved (reserved_in 0 «module».now.imports)) }
{
    let Some(place) = first_reserved(module) else {
        return Ok(());
    };
    match u32::try_from(place) {
        Ok(import) => Err(DeclFault::Reserved { import }),
        // More than 2^32 imports do not fit into memory.
        Err(_) => Err(DeclFault::Memory),
    }
}

/// The names of the module's exports.
fn exported_names<'a>(alloc: Global, module: &'a Module) -> Result<IndexSet<&'a str>, NoMemory>
    ensures { IfOk result (λ names. HoldsNames names.keys (export_names «module».now)) }
{
    let mut names = IndexSet::new(alloc);
    'exports: for export in module.exports.as_slice() {
        names.insert(export.name.as_str())?;
    }
    Ok(names)
}

/// The first declared name that is an export's or that of an earlier declaration.
fn first_taken<'a>(
    alloc: Global,
    module: &'a Module,
    decls: &'a [Decl],
) -> Result<Option<&'a Name>, NoMemory>
    ensures { IfOk result (λ name. option_map (λ n. n.now) name
        ≡ taken_in (export_names «module».now) decls.now) }
{
    let mut names = exported_names(alloc, module)?;
    'decls: for decl in decls {
        let name = decl.name.as_str();
        if names.contains(name) {
            return Ok(Some(&decl.name));
        }
        names.insert(name)?;
    }
    Ok(None)
}

/// Tests that no declared name is an export's or that of an earlier declaration.
pub(crate) fn refuse_taken(alloc: Global, module: &Module, decls: &[Decl]) -> Result<(), DeclFault>
    ensures { Gives result (refuse Taken (taken_in (export_names «module».now) decls.now)) }
{
    let Ok(taken) = first_taken(alloc, module, decls) else {
        return Err(DeclFault::Memory);
    };
    match taken {
        Some(name) => match name.clone() {
            Ok(name) => Err(DeclFault::Taken { name }),
            Err(_) => Err(DeclFault::Memory),
        },
        None => Ok(()),
    }
}
