//! A generated part that was written by hand, merged with a module.

ghost use Rattle.std.specs.Prelude.{◌≡◌, [], ◌∷◌, IfOk, codes, true};
ghost use Rattle.wasm_syntax.specs.declared.instructions.Instr.TheVariants.{Const, End};
ghost use Rattle.wasm_syntax.specs.declared.values.ValType.TheVariants.{I32};
ghost use Rattle.worked_histories.specs.Build as build;
ghost use Rattle.worked_replay_modules.specs.HandmadePart as written;

use base::opcodes::I32_ADD;
use host_script::Supply;
use module_merge::merge;
use replay_module_spec::Fragment;
use sample_inputs::module_without_parts;
use std::alloc::{AllocError, Global as Heap};
use std::test::Fail;
use wasm_encode::encode;
use wasm_syntax::{
    DataSeg, DataSegs, Export, ExportKind, Exports, Func, FuncType, FuncTypes, Funcs, Global,
    GlobalType, Globals, Import, ImportKind, Imports, Instr, Limits, List, Module, Name, Run, Val,
    ValType, ValTypes,
};
use wasm_validate::Checked;
use worked_replay_modules::handmade_part_fits;

// ---- the parts of both

fn i32_of(bits: u32) -> Val
    ensures { result ≡ build.i32 bits }
{
    let bits = bits as u64;
    Val {
        ty: ValType::I32,
        bits,
    }
}

fn constant(bits: u32) -> Instr
    ensures { result ≡ Const (build.i32 bits) }
{
    Instr::Const(i32_of(bits))
}

fn name(alloc: Heap, text: &str) -> Result<Name, AllocError>
    ensures { IfOk result (λ name. name ≡ text.now) }
{
    Ok(Name::from_string(String::from_str(alloc, text)?))
}

/// The one type of functions without parameters that have these results.
fn type_of(alloc: Heap, results: ValTypes) -> Result<FuncTypes, AllocError>
    ensures { IfOk result (λ types. types ≡ build.func_type [] results ∷ []) }
{
    let params = List::new(alloc);
    let types = Vec::from_array(alloc, [FuncType { params, results }])?;
    Ok(List::from_vec(types))
}

/// A function without locals.
fn func(alloc: Heap, ty: u32, body: Vec<Instr>) -> Func
    ensures { result ≡ build.func ty [] body.items }
{
    Func {
        ty,
        locals: List::new(alloc),
        body: List::from_vec(body),
    }
}

/// One mutable global of type i32, whose initial value is that of an instruction.
fn global(alloc: Heap, value: Instr) -> Result<Globals, AllocError>
    ensures { IfOk result (λ globals.
        globals ≡ build.global (build.global_type I32 true) (value ∷ End ∷ []) ∷ []) }
{
    let init = List::from_vec(Vec::from_array(alloc, [value, Instr::End])?);
    let ty = GlobalType {
        ty: ValType::I32,
        mutable: true,
    };
    let globals = Vec::from_array(alloc, [Global { ty, init }])?;
    Ok(List::from_vec(globals))
}

// ---- the module

fn import(alloc: Heap, text: &str, kind: ImportKind) -> Result<Import, AllocError>
    ensures { IfOk result (λ import. import ≡ build.import_of (codes "env") text.now kind) }
{
    let module = name(alloc, "env")?;
    let name = name(alloc, text)?;
    Ok(Import { module, name, kind })
}

fn imports(alloc: Heap) -> Result<Imports, AllocError>
    ensures { IfOk result (λ imports. imports ≡ written.doubling.imports) }
{
    let base = GlobalType {
        ty: ValType::I32,
        mutable: false,
    };
    let next = import(alloc, "next", ImportKind::Func(0))?;
    let base = import(alloc, "base", ImportKind::Global(base))?;
    let imports = Vec::from_array(alloc, [next, base])?;
    Ok(List::from_vec(imports))
}

/// The function that doubles an answer.
fn double(alloc: Heap) -> Result<Funcs, AllocError>
    ensures { IfOk result (λ funcs. funcs ≡ written.doubling.funcs) }
{
    let run = Run {
        count: 1,
        ty: ValType::I32,
    };
    let locals = List::from_vec(Vec::from_array(alloc, [run])?);
    let add = Instr::Numeric(I32_ADD);
    let body = [
        Instr::Call(0),
        Instr::LocalTee(0),
        Instr::LocalGet(0),
        add,
        Instr::End,
    ];
    let body = List::from_vec(Vec::from_array(alloc, body)?);
    let funcs = Vec::from_array(
        alloc,
        [Func {
            ty: 0,
            locals,
            body,
        }],
    )?;
    Ok(List::from_vec(funcs))
}

fn exports(alloc: Heap) -> Result<Exports, AllocError>
    ensures { IfOk result (λ exports. exports ≡ written.doubling.exports) }
{
    let name = name(alloc, "double")?;
    let kind = ExportKind::Func(1);
    let exports = Vec::from_array(alloc, [Export { name, kind }])?;
    Ok(List::from_vec(exports))
}

/// A byte at the imported address.
fn datas(alloc: Heap) -> Result<DataSegs, AllocError>
    ensures { IfOk result (λ datas. datas ≡ written.doubling.datas) }
{
    let offset = List::from_vec(Vec::from_array(alloc, [Instr::GlobalGet(0), Instr::End])?);
    let bytes = List::from_vec(Vec::from_array(alloc, [65])?);
    let segment = DataSeg {
        memory: 0,
        offset,
        bytes,
    };
    let datas = Vec::from_array(alloc, [segment])?;
    Ok(List::from_vec(datas))
}

/// The module's types, functions, imports and exports alone.
fn functions(alloc: Heap) -> Result<Module, AllocError>
    ensures { IfOk result (λ m. m ≡
        record written.doubling { tables = []; memories = []; globals = []; datas = [] }) }
{
    let results = List::from_vec(Vec::from_array(alloc, [ValType::I32])?);
    Ok(Module {
        types: type_of(alloc, results)?,
        imports: imports(alloc)?,
        funcs: double(alloc)?,
        exports: exports(alloc)?,
        ..module_without_parts(alloc)
    })
}

fn original(alloc: Heap) -> Result<Module, AllocError>
    ensures { IfOk result (λ m. m ≡ written.doubling) }
{
    let table = Limits { min: 1, max: None };
    let memory = Limits {
        min: 1,
        max: Some(2),
    };
    Ok(Module {
        tables: List::from_vec(Vec::from_array(alloc, [table])?),
        memories: List::from_vec(Vec::from_array(alloc, [memory])?),
        globals: global(alloc, Instr::GlobalGet(0))?,
        datas: datas(alloc)?,
        ..functions(alloc)?
    })
}

fn supply(alloc: Heap) -> Result<Supply, AllocError>
    ensures { IfOk result (λ supply. supply ≡ written.supplied_eight) }
{
    let globals = List::from_vec(Vec::from_array(alloc, [i32_of(8)])?);
    Ok(Supply {
        memory: None,
        table: None,
        globals,
    })
}

// ---- the generated part

/// The body of the import, which calls a helper.
fn bodies(alloc: Heap) -> Result<Funcs, AllocError>
    ensures { IfOk result (λ bodies. bodies ≡ written.handmade_part.bodies) }
{
    let body = Vec::from_array(alloc, [Instr::Call(2), Instr::End])?;
    let bodies = Vec::from_array(alloc, [func(alloc, 0, body)])?;
    Ok(List::from_vec(bodies))
}

/// Seven more than the last time.
fn answer(alloc: Heap) -> Result<Vec<Instr>, AllocError>
    ensures { IfOk result (λ body. body.items ≡ written.answer_body) }
{
    let body = [
        Instr::GlobalGet(2),
        constant(7),
        Instr::Numeric(I32_ADD),
        Instr::GlobalSet(2),
        Instr::GlobalGet(2),
        Instr::End,
    ];
    Ok(Vec::from_array(alloc, body)?)
}

/// A call by the index and a call by the table.
fn two_calls(alloc: Heap) -> Result<Vec<Instr>, AllocError>
    ensures { IfOk result (λ body. body.items ≡ written.two_calls_body) }
{
    let body = [
        constant(0),
        Instr::RefFunc(1),
        Instr::TableSet(0),
        Instr::Call(1),
        Instr::Drop,
        constant(0),
        Instr::CallIndirect(0),
        Instr::Drop,
        Instr::End,
    ];
    Ok(Vec::from_array(alloc, body)?)
}

fn helpers(alloc: Heap) -> Result<Funcs, AllocError>
    ensures { IfOk result (λ helpers. helpers ≡ written.handmade_part.helpers) }
{
    let answer = func(alloc, 0, answer(alloc)?);
    let start = func(alloc, 1, two_calls(alloc)?);
    let helpers = Vec::from_array(alloc, [answer, start])?;
    Ok(List::from_vec(helpers))
}

fn part(alloc: Heap) -> Result<Fragment, AllocError>
    ensures { IfOk result (λ part. part ≡ written.handmade_part) }
{
    Ok(Fragment {
        bodies: bodies(alloc)?,
        helpers: helpers(alloc)?,
        entry: 3,
        types: type_of(alloc, List::new(alloc))?,
        globals: global(alloc, constant(14))?,
        declared: List::from_vec(Vec::from_array(alloc, [1])?),
    })
}

// ---- the replay module

/// The bytes of the replay module, written section by section (Core 1.0, 5.5; the declared segment: Core 2.0, 5.5.12).
// (module (type (func (result i32))) (type (func)) (table 1 funcref) (memory 1 2)
//   (global i32 (i32.const 8)) (global (mut i32) (i32.const 8)) (global (mut i32) (i32.const 14))
//   (export "_start" (func 3)) (elem declare func 1) (func (type 0) call 2)
//   (func (type 0) (local i32) call 0 local.tee 0 local.get 0 i32.add)
//   (func (type 0) global.get 2 i32.const 7 i32.add global.set 2 global.get 2)
//   (func (type 1) i32.const 0 ref.func 1 table.set 0 call 1 drop i32.const 0 call_indirect (type 0) drop)
//   (data (i32.const 8) "A")), with a custom section "r3.layout" of the bytes 01 01 at the end
const REPLAY: &str = "0061736d01000000\
    0108026000017f600000\
    03050400000001\
    040401700001\
    050401010102\
    0610037f0041080b7f0141080b7f01410e0b\
    070a01065f73746172740003\
    09050103000101\
    0a3004040010020b0b01017f1000220020006a0b\
    0b00230241076a240223020b11004100d201260010011a41001100001a0b\
    0b07010041080b0141\
    000c0972332e6c61796f75740101";

/// As many bytes as the replay module has.
const LENGTH: u32 = 147;

fn merged(alloc: Heap) -> Result<Checked, Fail>
    ensures { IfOk result (λ replay. replay ≡ written.handmade_replay) }
{
    handmade_part_fits();
    let supply = supply(alloc)?;
    let part = part(alloc)?;
    let module = Checked::new(original(alloc)?);
    Ok(merge(alloc, module, &supply, part)?)
}

fn encoded(alloc: Heap) -> Result<Vec<u8>, Fail> {
    handmade_part_fits();
    let replay = merged(alloc)?;
    Ok(encode(alloc, replay.module(), LENGTH)?)
}

/// Whether the replay module has the bytes written above.
fn has_its_bytes(alloc: Heap) -> Result<bool, Fail> {
    let wanted = hex::decode(alloc, REPLAY)?;
    Ok(encoded(alloc)?.as_slice() == wanted.as_slice())
}

#[test]
fn a_part_that_was_written_by_hand_is_merged(rt: HostRuntime) -> Result<(), Fail> {
    assert!(rt; has_its_bytes(rt.alloc())?);
    Ok(())
}
