// What a module imports, by the names of modules and of imports.

ghost use Rattle.std.specs.Prelude.{◌≡◌, IfOk, OnOk, filter, map, option_map};
ghost use Rattle.module_names.specs.Indexes.{HoldsModules, HoldsTypes, HoldsFirsts, AddsType};
ghost use Rattle.module_names.specs.Names.{is_in, import_type as type_of_import};

use crate::index_spaces::Space;
use base::NoMemory;
use indexmap::{IndexMap, IndexSet};
use std::alloc::Global;
use wasm_syntax::{FuncType, Import, ImportKind, Module};

/// The names of an import: of its module, and its own.
pub type Names<'a> = (&'a str, &'a str);

/// The types of the functions imported under two names, in the module's order.
pub(crate) type TypesByNames<'a> = IndexMap<Names<'a>, Vec<&'a FuncType>>;

/// The index of the first import under two names.
pub type FirstsByNames<'a> = IndexMap<Names<'a>, usize>;

/// The imports of one index space, in the module's order.
pub(crate) fn imports_of<'a>(
    alloc: Global,
    module: &'a Module,
    space: Space,
) -> Result<Vec<&'a Import>, NoMemory>
    ensures { IfOk result (λ found. map (λ import. import.now) found.items
        ≡ filter (is_in space) «module».now.imports) }
{
    let imports = module.imports.as_slice();
    let mut found = Vec::new(alloc);
    'imports: for import in imports {
        if space.has_import(import) {
            found.push(import)?;
        }
    }
    Ok(found)
}

/// The names of the modules that these are imported from.
pub(crate) fn modules_of<'a>(
    alloc: Global,
    imports: &[&'a Import],
) -> Result<IndexSet<&'a str>, NoMemory>
    ensures { IfOk result (λ names. HoldsModules names.keys (map (λ import. import.now) imports.now)) }
{
    let mut names = IndexSet::new(alloc);
    'imports: for import in imports {
        let import: &'a Import = *import;
        names.insert(import.module.as_str())?;
    }
    Ok(names)
}

/// The index among these imports of the first under two names.
///
/// # Errors
///
/// `NoMemory` if an allocation failed.
pub fn firsts_by_names<'a>(
    alloc: Global,
    imports: &[&'a Import],
) -> Result<FirstsByNames<'a>, NoMemory>
    ensures { IfOk result (λ firsts. HoldsFirsts firsts.entries (map (λ import. import.now) imports.now)) }
{
    let mut firsts = IndexMap::new(alloc);
    'imports: for (index, import) in imports.iter().enumerate() {
        let import: &'a Import = *import;
        let names = (import.module.as_str(), import.name.as_str());
        if !firsts.contains_key(&names) {
            firsts.insert(names, index)?;
        }
    }
    Ok(firsts)
}

/// Notes the type of an imported function under its names.
fn add_type<'a>(
    alloc: Global,
    types: &mut TypesByNames<'a>,
    import: &'a Import,
    ty: Option<&'a FuncType>,
) -> Result<(), NoMemory>
    ensures { OnOk result (AddsType types.old.entries types.new.entries import.now
        (option_map (λ t. t.now) ty.entry)) }
{
    let names = (import.module.as_str(), import.name.as_str());
    let mut found = types.swap_remove(&names).unwrap_or(Vec::new(alloc));
    match ty {
        Some(ty) => found.push(ty)?,
        None => {}
    }
    types.insert(names, found)?;
    Ok(())
}

/// The types of the imported functions under two names.
pub(crate) fn types_by_names<'a>(
    alloc: Global,
    module: &'a Module,
    imports: &[&'a Import],
) -> Result<TypesByNames<'a>, NoMemory>
    ensures { IfOk result (λ types. HoldsTypes types.entries «module».now
        (map (λ import. import.now) imports.now)) }
{
    let mut types = IndexMap::new(alloc);
    'imports: for import in imports {
        let import: &'a Import = *import;
        add_type(alloc, &mut types, import, import_type(module, import))?;
    }
    Ok(types)
}

/// The type of an imported function.
fn import_type<'a>(module: &'a Module, import: &Import) -> Option<&'a FuncType>
    ensures { option_map (λ ty. ty.now) result ≡ type_of_import «module».now import.now }
{
    match import.kind {
        ImportKind::Func(ty) => module.types.as_slice().get(ty as usize),
        _ => None,
    }
}
