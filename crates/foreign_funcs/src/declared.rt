// What a widened module has for declared functions: types, imports and exports, behind those of the module.

ghost use Rattle.std.specs.Prelude.{◌≡◌, ◌+◌, ◌<◌, ◌≤◌, ◌^◌, ◌++◌, codes, length, map, IfOk};
ghost use Rattle.wasm_syntax.specs.declared.modules.ExportKind.TheVariants.{Func as FuncExport};
ghost use Rattle.wasm_syntax.specs.declared.modules.ImportKind.TheVariants.{Func as FuncImport};
ghost use Rattle.instance_spec.specs.declared.decls.Decl.{Decl as Declared};
ghost use Rattle.instance_spec.specs.Widened.{foreign_exports, foreign_imports};

use base::NoMemory;
use instance_spec::Decl;
use std::alloc::Global;
use wasm_syntax::{
    Export, ExportKind, Exports, FuncTypes, Import, ImportKind, Imports, Item, List, Module, Name,
};

/// The types of a module, and after them those of declared functions.
pub(crate) fn widened_types(module: &Module, decls: &[Decl]) -> Result<FuncTypes, NoMemory>
    ensures { IfOk result (λ types. types ≡ «module».now.types ++ map (λ (d : Declared). d.ty) decls.now) }
{
    let mut types = module.types.clone()?.into_vec();
    types.reserve(decls.len())?;
    'decls: for decl in decls {
        types.push(decl.ty.copy()?)?;
    }
    Ok(List::from_vec(types))
}

/// The imports of a module, and after them those of declared functions.
pub(crate) fn widened_imports(
    alloc: Global,
    module: &Module,
    decls: &[Decl],
) -> Result<Imports, NoMemory>
    requires { length «module».now.types + length decls.now ≤ 2 ^ 32 }
    ensures { IfOk result (λ imports. imports
        ≡ «module».now.imports ++ foreign_imports (length «module».now.types) decls.now) }
{
    let types = module.types.as_slice().len();
    let mut imports = module.imports.clone()?.into_vec();
    imports.reserve(decls.len())?;
    'decls: for (place, decl) in decls.iter().enumerate() {
        imports.push(foreign_import(alloc, (types + place) as u32, decl)?)?;
    }
    Ok(List::from_vec(imports))
}

/// The import of a declared function, whose type has this index.
fn foreign_import(alloc: Global, ty: u32, decl: &Decl) -> Result<Import, NoMemory>
    ensures { IfOk result (λ import. import
        ≡ record { «module» = codes "foreign"; name = decl.now.name; kind = FuncImport ty }) }
{
    let module = Name::from_string(String::from_str(alloc, "foreign")?);
    let name = decl.name.clone()?;
    Ok(Import {
        module,
        name,
        kind: ImportKind::Func(ty),
    })
}

/// Exports, and after them those of declared functions, which are one after another from the index `first` on.
pub(crate) fn with_foreign_exports(
    exports: Exports,
    first: u32,
    decls: &[Decl],
) -> Result<Exports, NoMemory>
    requires { first + length decls.now < 2 ^ 32 }
    ensures { IfOk result (λ list. list ≡ exports ++ foreign_exports first decls.now) }
{
    let mut list = exports.into_vec();
    list.reserve(decls.len())?;
    'decls: for (place, decl) in decls.iter().enumerate() {
        list.push(foreign_export(first + place as u32, decl)?)?;
    }
    Ok(List::from_vec(list))
}

/// The export of a declared function, which has this index.
fn foreign_export(func: u32, decl: &Decl) -> Result<Export, NoMemory>
    ensures { IfOk result (λ export. export ≡ record { name = decl.now.name; kind = FuncExport func }) }
{
    let name = decl.name.clone()?;
    Ok(Export {
        name,
        kind: ExportKind::Func(func),
    })
}
