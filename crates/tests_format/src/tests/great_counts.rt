//! What decoding takes of the stack and of memory.

use crate::tests::decoded_modules::{module_with_body, place};
use std::alloc::Global;
use std::test::Fail;
use wasm_decode::decode;
use wasm_syntax::{Form, Module};

/// The beginnings of 100,000 blocks, one within the other, and 100,000 ends.
fn nested_blocks(alloc: Global, ends: usize) -> Result<Vec<u8>, Fail> {
    let mut body = Vec::new(alloc);
    append_blocks(&mut body)?;
    append_ends(&mut body, ends)?;
    Ok(body)
}

fn append_blocks(body: &mut Vec<u8>) -> Result<(), Fail> {
    for _ in 0..100_000 {
        body.push(0x02)?;
        body.push(0x40)?;
    }
    Ok(())
}

fn append_ends(body: &mut Vec<u8>, ends: usize) -> Result<(), Fail> {
    for _ in 0..ends {
        body.push(0x0b)?;
    }
    Ok(())
}

/// The place of the fault in a module with this body; None if it is decoded.
fn place_in_body(alloc: Global, body: &[u8]) -> Result<Option<u64>, Fail> {
    let bytes = module_with_body(alloc, body)?;
    place(alloc, bytes.as_slice(), Form::Core)
}

/// How many instructions the only function of a module has.
fn instruction_count(module: &Module) -> Option<usize> {
    match module.funcs.as_slice() {
        [func] => Some(func.body.as_slice().len()),
        _ => None,
    }
}

/// How many instructions are decoded of this body.
fn decoded_count(alloc: Global, body: &[u8]) -> Result<Option<usize>, Fail> {
    let bytes = module_with_body(alloc, body)?;
    Ok(instruction_count(&decode(alloc, bytes.as_slice(), Form::Core)?))
}

#[test]
fn deeply_nested_blocks_take_no_stack(rt: HostRuntime) -> Result<(), Fail> {
    let alloc = rt.alloc();
    let unended = nested_blocks(alloc, 0)?;
    assert!(rt; place_in_body(alloc, unended.as_slice())? == Some(18));
    let ended = nested_blocks(alloc, 100_001)?;
    assert!(rt; decoded_count(alloc, ended.as_slice())? == Some(200_001));
    Ok(())
}

#[test]
fn a_great_count_takes_no_memory(rt: HostRuntime) -> Result<(), Fail> {
    let alloc = rt.alloc();
    // malformed: a section that says 2^32 - 1 functions, and has the index of one
    let bytes = hex::decode(alloc, "0061736d010000000306ffffffff0f00")?;
    assert!(rt; place(alloc, bytes.as_slice(), Form::Core)? == Some(8));
    Ok(())
}
