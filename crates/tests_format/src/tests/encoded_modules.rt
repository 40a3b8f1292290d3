//! A module and a body in bytes that were written by hand, with ample memory.

ghost use Rattle.std.specs.Prelude.{◌≡◌, ◌∷◌, [], IfOk};
ghost use Rattle.base.specs.declared.opcodes.TheConstants.{I32_ADD};
ghost use Rattle.wasm_syntax.specs.Encoding.Encodable.{IsEncodable};
ghost use Rattle.wasm_syntax.specs.declared.forms.Form.TheVariants.{Replay};
ghost use Rattle.wasm_syntax.specs.declared.instructions.Instr.TheVariants.{Call, End, Numeric};

use crate::tests::decoded_modules::{are_later_instructions, module_with_body};
use base::opcodes::I32_ADD;
use std::alloc::{AllocError, Global as Heap};
use std::test::Fail;
use wasm_decode::decode;
use wasm_encode::{EncodeFault, encode};
use wasm_syntax::{
    Body, Export, ExportKind, Form, Func, FuncType, Import, ImportKind, Instr, List, Module, Name,
    ValType, shortest_encoding,
};

// examples/two_answers.wat
const TWO_ANSWERS: [u8; 46] = [
    0x00, 0x61, 0x73, 0x6d, 0x01, 0x00, 0x00, 0x00, // preamble
    0x01, 0x05, 0x01, 0x60, 0x00, 0x01, 0x7f, // types
    0x02, 0x07, 0x01, 0x01, 0x68, 0x01, 0x66, 0x00, 0x00, // imports
    0x03, 0x02, 0x01, 0x00, // functions
    0x07, 0x05, 0x01, 0x01, 0x67, 0x00, 0x01, // exports
    0x0a, 0x09, 0x01, 0x07, 0x00, 0x10, 0x00, 0x10, 0x00, 0x6a, 0x0b, // code
];

pub fn name(alloc: Heap, text: &str) -> Result<Name, AllocError>
    ensures { IfOk result (λ name. name ≡ text.now) }
{
    Ok(Name::from_string(String::from_str(alloc, text)?))
}

pub fn one<T: Drop>(alloc: Heap, item: T) -> Result<List<T>, AllocError>
    ensures { IfOk result (λ list. list ≡ item ∷ []) }
{
    let mut items = Vec::new(alloc);
    items.push(item)?;
    Ok(List::from_vec(items))
}

fn both_answers(alloc: Heap) -> Result<Body, AllocError>
    ensures { IfOk result (λ body. body ≡ Call 0 ∷ Call 0 ∷ Numeric I32_ADD ∷ End ∷ []) }
{
    let mut body = Vec::new(alloc);
    body.push(Instr::Call(0))?;
    body.push(Instr::Call(0))?;
    body.push(Instr::Numeric(I32_ADD))?;
    body.push(Instr::End)?;
    Ok(List::from_vec(body))
}

fn two_answers(alloc: Heap) -> Result<Module, AllocError>
    ensures { IfOk result (IsEncodable Replay) }
{
    let results = one(alloc, ValType::I32)?;
    let params = List::new(alloc);
    let import = Import {
        module: name(alloc, "h")?,
        name: name(alloc, "f")?,
        kind: ImportKind::Func(0),
    };
    let func = Func {
        ty: 0,
        locals: List::new(alloc),
        body: both_answers(alloc)?,
    };
    let export = Export {
        name: name(alloc, "g")?,
        kind: ExportKind::Func(1),
    };
    Ok(Module {
        types: one(alloc, FuncType { params, results })?,
        imports: one(alloc, import)?,
        funcs: one(alloc, func)?,
        tables: List::new(alloc),
        memories: List::new(alloc),
        globals: List::new(alloc),
        exports: one(alloc, export)?,
        start: None,
        elems: List::new(alloc),
        datas: List::new(alloc),
        customs: List::new(alloc),
    })
}

#[test]
fn two_answers_in_46_bytes(rt: HostRuntime) -> Result<(), Fail> {
    let module = two_answers(rt.alloc())?;
    let bytes = encode(rt.alloc(), &module, 46)?;
    assert!(rt; bytes.as_slice() == TWO_ANSWERS.as_slice());
    Ok(())
}

#[test]
fn two_answers_not_in_45_bytes(rt: HostRuntime) -> Result<(), Fail> {
    let module = two_answers(rt.alloc())?;
    let refused = encode(rt.alloc(), &module, 45).err();
    assert!(rt; refused == Some(EncodeFault::TooLong));
    Ok(())
}

/// The module that bytes encode in the form of replay binaries, encoded again in at most this many bytes.
fn encoded_again(
    alloc: Heap,
    bytes: &[u8],
    most: u32,
) -> Result<Result<Vec<u8>, EncodeFault>, Fail> {
    shortest_encoding();
    let module = decode(alloc, bytes, Form::Replay)?;
    Ok(encode(alloc, &module, most))
}

/// The later instructions, in numbers that are longer than they need to be.
const LATER_INSTRUCTIONS: &str = "fc8a000000fc8b8080800000fc8f008300fc9080808000ac8200c40b";

/// The encoding of a module with one function in at most this many bytes. The function is read from numbers that are
/// longer than they need to be.
fn later_instructions(alloc: Heap, most: u32) -> Result<Result<Vec<u8>, EncodeFault>, Fail> {
    if !are_later_instructions(alloc, LATER_INSTRUCTIONS)? {
        return Err(Fail::from("other instructions"));
    }
    let body = hex::decode(alloc, LATER_INSTRUCTIONS)?;
    let bytes = module_with_body(alloc, body.as_slice())?;
    encoded_again(alloc, bytes.as_slice(), most)
}

/// The module of the later instructions.
const LATER: [u8; 39] = [
    0x00, 0x61, 0x73, 0x6d, 0x01, 0x00, 0x00, 0x00, // preamble
    0x01, 0x04, 0x01, 0x60, 0x00, 0x00, // types
    0x03, 0x02, 0x01, 0x00, // functions
    0x0a, 0x13, 0x01, 0x11, 0x00, // code
    0xfc, 0x0a, 0x00, 0x00, // memory.copy
    0xfc, 0x0b, 0x00, // memory.fill
    0xfc, 0x0f, 0x03, // table.grow 3
    0xfc, 0x10, 0xac, 0x02, // table.size 300
    0xc4, // i64.extend32_s
    0x0b, // end
];

#[test]
fn later_instructions_in_16_bytes(rt: HostRuntime) -> Result<(), Fail> {
    let bytes = later_instructions(rt.alloc(), 39)??;
    assert!(rt; bytes.as_slice() == LATER.as_slice());
    let refused = later_instructions(rt.alloc(), 38)?.err();
    assert!(rt; refused == Some(EncodeFault::TooLong));
    Ok(())
}
