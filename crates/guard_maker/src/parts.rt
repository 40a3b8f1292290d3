// What a guarded module has of its own besides functions: types, globals, exports and the section that marks it.

ghost use Rattle.std.specs.Prelude.{◌≡◌, ◌∷◌, [], ◌++◌, ◌<◌, ◌^◌, IfOk, OnOk, length};
ghost use Rattle.guarded_module_spec.specs.GuardedModules as spec;
ghost use Rattle.guard_maker.specs.Bounds.{HasRoom};

use crate::fronts::i32_const;
use crate::numbers::start_place;
use base::NoMemory;
use guarded_module_spec::Numbers;
use replay_gen::{counter, one_type, push_group_type};
use std::alloc::Global;
use wasm_syntax::{
    Bytes, Custom, Customs, Export, ExportKind, Exports, FuncType, FuncTypes, Global as GlobalDef,
    GlobalType, Globals, Instr, List, Name, ValType,
};

/// Types with those of the guarded module's own after them.
pub(crate) fn with_own_types(alloc: Global, types: FuncTypes) -> Result<FuncTypes, NoMemory>
    ensures { IfOk result (λ made. made ≡ types ++ spec.own_types) }
{
    let mut types = types.into_vec();
    types.push(FuncType {
        params: List::new(alloc),
        results: List::new(alloc),
    })?;
    types.push(FuncType {
        params: one_type(alloc, ValType::I64)?,
        results: List::new(alloc),
    })?;
    types.push(FuncType {
        params: List::new(alloc),
        results: one_type(alloc, ValType::I64)?,
    })?;
    push_group_type(alloc, &mut types, ValType::I64)?;
    Ok(List::from_vec(types))
}

/// The global that has the number of all checks.
fn checks_global(alloc: Global, words: usize) -> Result<GlobalDef, NoMemory>
    requires { words < 2 ^ 32 }
    ensures { IfOk result (λ global. global ≡ spec.checks_global words) }
{
    let mut init = Vec::with_capacity(alloc, 2)?;
    init.push_reserved(i32_const(words as u64));
    init.push_reserved(Instr::End);
    Ok(GlobalDef {
        ty: GlobalType {
            ty: ValType::I32,
            mutable: false,
        },
        init: List::from_vec(init),
    })
}

/// Globals with those of the guarded module's own after them.
pub(crate) fn with_own_globals(
    alloc: Global,
    globals: Globals,
    words: usize,
) -> Result<Globals, NoMemory>
    requires { words < 2 ^ 32 }
    ensures { IfOk result (λ made. made ≡ globals ++ spec.own_globals words) }
{
    let mut globals = globals.into_vec();
    globals.push(counter(alloc)?)?;
    globals.push(counter(alloc)?)?;
    globals.push(checks_global(alloc, words)?)?;
    Ok(List::from_vec(globals))
}

/// Appends the export of a global.
fn push_global_export(
    alloc: Global,
    exports: &mut Vec<Export>,
    name: &str,
    global: u32,
) -> Result<(), NoMemory>
    ensures { OnOk result (exports.new.items ≡ exports.old.items ++ spec.global_export name.now global ∷ []) }
{
    exports.push(Export {
        name: Name::from_string(String::from_str(alloc, name)?),
        kind: ExportKind::Global(global),
    })?;
    Ok(())
}

/// The exports of the guarded module.
pub(crate) fn own_exports(alloc: Global, n: Numbers) -> Result<Exports, NoMemory>
    requires { HasRoom n }
    ensures { IfOk result (λ exports. exports ≡ spec.own_exports n) }
{
    let mut exports = Vec::with_capacity(alloc, 4)?;
    exports.push(Export {
        name: Name::from_string(String::from_str(alloc, "_start")?),
        kind: ExportKind::Func(start_place(n)),
    })?;
    push_global_export(alloc, &mut exports, "begun", n.globals)?;
    push_global_export(alloc, &mut exports, "passed", n.globals + 1)?;
    push_global_export(alloc, &mut exports, "checks", n.globals + 2)?;
    Ok(List::from_vec(exports))
}

/// Custom sections with that which marks a guarded module after them.
pub(crate) fn with_section(alloc: Global, customs: Customs) -> Result<Customs, NoMemory>
    ensures { IfOk result (λ made. made ≡ customs ++ spec.guard_section ∷ []) }
{
    let mut customs = customs.into_vec();
    customs.push(Custom {
        name: Name::from_string(String::from_str(alloc, "r3.guard")?),
        bytes: Bytes::new(alloc),
    })?;
    Ok(List::from_vec(customs))
}
