//! Each call that allocates, once with ample memory: no contract says that memory is left.

use crate::tests::encoded_modules::{name, one};
use std::alloc::{AllocError, Global as Heap};
use std::test::Fail;
use wasm_syntax::{
    Body, Custom, Customs, DataSeg, DataSegs, ElemSeg, ElemSegs, Export, ExportKind, Exports, Func,
    FuncType, FuncTypes, Funcs, Global, GlobalType, Globals, Import, ImportKind, Imports, Instr,
    Limits, List, Module, Run, Types, Val, ValType,
};

fn constant(alloc: Heap, bits: u64) -> Result<Body, AllocError> {
    let ty = ValType::I32;
    let mut body = Vec::new(alloc);
    body.push(Instr::Const(Val { ty, bits }))?;
    body.push(Instr::End)?;
    Ok(List::from_vec(body))
}

// The one instruction that owns memory.
fn switch(alloc: Heap) -> Result<Body, AllocError> {
    let labels = one(alloc, 3)?;
    one(alloc, Instr::BrTable(labels, 4))
}

fn types(alloc: Heap) -> Result<FuncTypes, AllocError> {
    let params = one(alloc, ValType::I32)?;
    let results = one(alloc, ValType::F64)?;
    one(alloc, FuncType { params, results })
}

fn imports(alloc: Heap) -> Result<Imports, AllocError> {
    let module = name(alloc, "env")?;
    let name = name(alloc, "read")?;
    let kind = ImportKind::Func(0);
    one(alloc, Import { module, name, kind })
}

fn exports(alloc: Heap) -> Result<Exports, AllocError> {
    let name = name(alloc, "g")?;
    let kind = ExportKind::Func(1);
    one(alloc, Export { name, kind })
}

fn funcs(alloc: Heap) -> Result<Funcs, AllocError> {
    let ty = ValType::I64;
    let locals = one(alloc, Run { count: 2, ty })?;
    let body = switch(alloc)?;
    one(
        alloc,
        Func {
            ty: 0,
            locals,
            body,
        },
    )
}

fn globals(alloc: Heap) -> Result<Globals, AllocError> {
    let ty = GlobalType {
        ty: ValType::I32,
        mutable: true,
    };
    let init = constant(alloc, 7)?;
    one(alloc, Global { ty, init })
}

fn elems(alloc: Heap) -> Result<ElemSegs, AllocError> {
    let active = ElemSeg::Active {
        table: 0,
        offset: constant(alloc, 1)?,
        funcs: one(alloc, 1)?,
    };
    let funcs = one(alloc, 0)?;
    let mut elems = one(alloc, active)?.into_vec();
    elems.push(ElemSeg::Declared { funcs })?;
    Ok(List::from_vec(elems))
}

fn datas(alloc: Heap) -> Result<DataSegs, AllocError> {
    let offset = constant(alloc, 8)?;
    let bytes = one(alloc, 0x41)?;
    one(
        alloc,
        DataSeg {
            memory: 0,
            offset,
            bytes,
        },
    )
}

fn customs(alloc: Heap) -> Result<Customs, AllocError> {
    let name = name(alloc, "r3.layout")?;
    let bytes = one(alloc, 1)?;
    one(alloc, Custom { name, bytes })
}

/// Gives a module a part of each kind, but for its segments and custom sections.
fn add_definitions(alloc: Heap, module: &mut Module) -> Result<(), AllocError> {
    let limits = Limits {
        min: 1,
        max: Some(2),
    };
    module.types = types(alloc)?;
    module.imports = imports(alloc)?;
    module.funcs = funcs(alloc)?;
    module.tables = one(alloc, limits)?;
    module.memories = one(alloc, limits)?;
    module.globals = globals(alloc)?;
    module.exports = exports(alloc)?;
    module.start = Some(1);
    Ok(())
}

/// Gives a module segments of each kind and a custom section.
fn add_segments(alloc: Heap, module: &mut Module) -> Result<(), AllocError> {
    module.elems = elems(alloc)?;
    module.datas = datas(alloc)?;
    module.customs = customs(alloc)?;
    Ok(())
}

/// A module with a part of each kind.
fn whole(alloc: Heap) -> Result<Module, AllocError> {
    let mut module = Module::empty(alloc);
    add_definitions(alloc, &mut module)?;
    add_segments(alloc, &mut module)?;
    Ok(module)
}

/// The text of a module for a programmer.
fn text_of(alloc: Heap, module: &Module) -> Result<String, AllocError> {
    format!(in alloc; "{module:?}")
}

/// Whether the copy of a module has the text of the module.
fn is_copied(alloc: Heap, module: &Module) -> Result<bool, Fail> {
    let text = text_of(alloc, module)?;
    let copy = module.clone()?;
    let copied = text_of(alloc, &copy)?;
    Ok(copied.as_str() == text.as_str())
}

#[test]
fn a_module_with_every_part_is_cloned(rt: HostRuntime) -> Result<(), Fail> {
    let alloc = rt.alloc();
    let module = whole(alloc)?;
    assert!(rt; is_copied(alloc, &module)?);
    Ok(())
}

/// The type of functions that have these parameters and results.
fn type_of(alloc: Heap, params: &[ValType], results: &[ValType]) -> Result<FuncType, AllocError> {
    let params = List::from_vec(Vec::from_slice(alloc, params)?);
    let results = List::from_vec(Vec::from_slice(alloc, results)?);
    Ok(FuncType { params, results })
}

/// The numbers of types after five others, in the order in which they are asked for here, and the list of them.
fn numbers_of(
    alloc: Heap,
    none: &FuncType,
    some: &FuncType,
    other: &FuncType,
) -> Result<([u32; 5], FuncTypes), Fail> {
    let mut types = Types::after(alloc, 5);
    let first = types.number(some)?;
    let second = types.number(none)?;
    let again = types.number(some)?;
    let third = types.number(other)?;
    let numbers = [first, second, again, third, types.number(none)?];
    Ok((numbers, types.into_list()?))
}

#[test]
fn appended_types_are_numbered_once_each(rt: HostRuntime) -> Result<(), Fail> {
    let alloc = rt.alloc();
    let none = type_of(alloc, &[], &[])?;
    let some = type_of(alloc, &[ValType::I32], &[])?;
    let other = type_of(alloc, &[], &[ValType::I32])?;
    let (numbers, list) = numbers_of(alloc, &none, &some, &other)?;
    assert!(rt; numbers == [5, 6, 5, 7, 6]);
    assert!(rt; list.as_slice() == [some, none, other].as_slice());
    Ok(())
}
