// Widened modules.

ghost use Rattle.std.specs.Prelude.{◌≡◌, ◌+◌, ◌<◌, ◌≤◌, ◌^◌, ◌++◌, length, map, option_map, IfOk};
ghost use Rattle.wasm_syntax.specs.Index.{imported_funcs};
ghost use Rattle.instance_spec.specs.declared.decls.Decl.{Decl as Declared};
ghost use Rattle.instance_spec.specs.Widened.{foreign_exports, foreign_imports, renamed_elem, renamed_export, renamed_func, widened};
ghost use Rattle.instance_spec.specs.WidenedLaws.{AreWritable};
ghost use Rattle.foreign_funcs.specs.Numbers.{foreign_numbers};
ghost use Rattle.foreign_funcs.specs.Parts.{module_of_parts};

use crate::declared::{widened_imports, widened_types, with_foreign_exports};
use crate::numbers::{ForeignNumbers, count_of_imports};
use base::NoMemory;
use instance_laws::widened_are_valid;
use instance_spec::{Decl, Decls};
use renamed_modules::{renamed_elems, renamed_exports, renamed_funcs, renamed_start};
use std::alloc::Global;
use wasm_syntax::{
    Customs, DataSegs, ElemSegs, Exports, FuncTypes, Funcs, Globals, Imports, LimitsList, Module,
};
use wasm_validate::Checked;

/// The types, imports and functions of a widened module.
#[derive(Drop)]
pub(crate) struct CodeParts {
    types: FuncTypes,
    imports: Imports,
    funcs: Funcs,
}

/// What else a widened module has that names functions by their numbers.
#[derive(Drop)]
pub(crate) struct NumberedParts {
    exports: Exports,
    elems: ElemSegs,
    start: Option<u32>,
}

/// What a widened module keeps of the original.
#[derive(Drop)]
pub(crate) struct KeptParts {
    tables: LimitsList,
    memories: LimitsList,
    globals: Globals,
    datas: DataSegs,
    customs: Customs,
}

/// The widened module of a module: each declared function is imported from `foreign` and exported by its name. It is
/// valid. The imports keep their indices, then come the declared functions, then those that the module defines. Takes
/// time in the lengths of the module and of the declarations.
///
/// # Errors
///
/// `NoMemory` if an allocation failed.
pub fn widen(alloc: Global, module: &Checked, decls: &Decls) -> Result<Checked, NoMemory>
    requires { AreWritable «module».now decls.now }
    ensures { IfOk result (λ wide. wide ≡ widened «module».now decls.now) }
{
    // A widened module is always valid and needs no validation.
    widened_are_valid();
    let original = module.module();
    let wide = widened_module(alloc, original, decls.as_slice())?;
    Ok(Checked::new(wide))
}

/// The widened module, not yet known to be valid.
fn widened_module(alloc: Global, module: &Module, decls: &[Decl]) -> Result<Module, NoMemory>
    requires { AreWritable «module».now decls.now }
    ensures { IfOk result (λ wide. wide ≡ widened «module».now decls.now) }
{
    let imports = count_of_imports(alloc, module)?;
    let declared = decls.len() as u32;
    let numbers = ForeignNumbers { imports, declared };
    let code = code_parts(alloc, module, &numbers, decls)?;
    let numbered = numbered_parts(alloc, module, &numbers, decls)?;
    let kept = kept_parts(module)?;
    Ok(joined_parts(code, numbered, kept))
}

/// The types, imports and functions of a widened module.
fn code_parts(
    alloc: Global,
    module: &Module,
    numbers: &ForeignNumbers,
    decls: &[Decl],
) -> Result<CodeParts, NoMemory>
    requires { length «module».now.types + length decls.now ≤ 2 ^ 32 }
    ensures types { IfOk result (λ code. code.types
        ≡ «module».now.types ++ map (λ (d : Declared). d.ty) decls.now) }
    ensures imports { IfOk result (λ code. code.imports
        ≡ «module».now.imports ++ foreign_imports (length «module».now.types) decls.now) }
    ensures funcs { IfOk result (λ code. code.funcs
        ≡ map (renamed_func (foreign_numbers numbers.now.imports numbers.now.declared)) «module».now.funcs) }
{
    let types = widened_types(module, decls)?;
    let imports = widened_imports(alloc, module, decls)?;
    let funcs = renamed_funcs(alloc, numbers, module.funcs.as_slice())?;
    Ok(CodeParts {
        types,
        imports,
        funcs,
    })
}

/// The exports, the element segments and the start function of a widened module.
fn numbered_parts(
    alloc: Global,
    module: &Module,
    numbers: &ForeignNumbers,
    decls: &[Decl],
) -> Result<NumberedParts, NoMemory>
    requires { numbers.now.imports + length decls.now < 2 ^ 32 }
    ensures exports { IfOk result (λ numbered. numbered.exports
        ≡ map (renamed_export (foreign_numbers numbers.now.imports numbers.now.declared)) «module».now.exports
        ++ foreign_exports numbers.now.imports decls.now) }
    ensures elems { IfOk result (λ numbered. numbered.elems
        ≡ map (renamed_elem (foreign_numbers numbers.now.imports numbers.now.declared)) «module».now.elems) }
    ensures start { IfOk result (λ numbered. numbered.start
        ≡ option_map (foreign_numbers numbers.now.imports numbers.now.declared).funcs «module».now.start) }
{
    let exports = renamed_exports(alloc, numbers, module.exports.as_slice())?;
    let exports = with_foreign_exports(exports, numbers.imports, decls)?;
    let elems = renamed_elems(alloc, numbers, module.elems.as_slice())?;
    Ok(NumberedParts {
        exports,
        elems,
        start: renamed_start(numbers, module.start),
    })
}

/// What a widened module keeps of the original.
fn kept_parts(module: &Module) -> Result<KeptParts, NoMemory>
    ensures tables { IfOk result (λ kept. kept.tables ≡ «module».now.tables) }
    ensures memories { IfOk result (λ kept. kept.memories ≡ «module».now.memories) }
    ensures globals { IfOk result (λ kept. kept.globals ≡ «module».now.globals) }
    ensures datas { IfOk result (λ kept. kept.datas ≡ «module».now.datas) }
    ensures customs { IfOk result (λ kept. kept.customs ≡ «module».now.customs) }
{
    let tables = module.tables.clone()?;
    let memories = module.memories.clone()?;
    let globals = module.globals.clone()?;
    let datas = module.datas.clone()?;
    let customs = module.customs.clone()?;
    Ok(KeptParts {
        tables,
        memories,
        globals,
        datas,
        customs,
    })
}

/// The module of these parts.
fn joined_parts(code: CodeParts, numbered: NumberedParts, kept: KeptParts) -> Module
    ensures { result ≡ module_of_parts code numbered kept }
{
    let CodeParts {
        types,
        imports,
        funcs,
    } = code;
    let NumberedParts {
        exports,
        elems,
        start,
    } = numbered;
    let KeptParts {
        tables,
        memories,
        globals,
        datas,
        customs,
    } = kept;
    Module {
        types,
        imports,
        funcs,
        tables,
        memories,
        globals,
        exports,
        start,
        elems,
        datas,
        customs,
    }
}
