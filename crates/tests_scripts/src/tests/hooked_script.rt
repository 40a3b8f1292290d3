//! A script whose host calls functions and sets entries of a table, by itself and when it is called.

use hooked_scripts::script_with_hooks;
use host_script::{Answer, Script};
use r3_inputs::{module_of, script_of};
use sample_inputs::importers::EVERY_KIND;
use std::alloc::Global;
use std::test::Fail;
use wasm_syntax::limits::MAX_FILE_BYTES;

/// Of the imports, the functions 0 to 5, only the first has an answer.
const SCRIPT: &str = r#"{"imports":{"h":{"f":{
    "calls":[{"do":[{"call":"go"},{"set_table":0,"func":"run"},{"set_table":1,"func":"own"}],"return":{"i32":9}}],
    "rest":{"do":[{"set_table":1,"func":null},{"call_table":1}],"trap":true}}}},
    "main":[{"call":"run","args":[{"i32":5},{"i64":6}]},{"write":8,"bytes":"0102"},{"set_table":0,"func":"go"}]}"#;

/// What the host does by itself.
const MAIN: &str = "List { items: [Call { func: 21, \
    args: List { items: [Val { ty: I32, bits: 5 }, Val { ty: I64, bits: 6 }] } }, \
    Write { to: Fixed(8), bytes: List { items: [1, 2] } }, SetTable { index: 0, func: Some(22) }] }";

/// The answer to the first import, and to each hook.
const ANSWER: &str = "Some(Answer { calls: List { items: [Response { actions: List { items: [\
    Call { func: 22, args: List { items: [] } }, SetTable { index: 0, func: Some(21) }, \
    SetTable { index: 1, func: Some(0) }] }, end: Return(Some(Val { ty: I32, bits: 9 })) }] }, \
    rest: Some(Response { actions: List { items: [SetTable { index: 1, func: None }, \
    CallTable { index: 1, args: List { items: [] } }] }, end: Trap }) })";

const HOOK: &str = "Some(Answer { calls: List { items: [] }, \
    rest: Some(Response { actions: List { items: [] }, end: Return(None) }) })";

/// The script for the instrumented module.
fn script_of_every_kind(alloc: Global) -> Result<Script, Fail> {
    let bytes = hex::decode(alloc, EVERY_KIND)?;
    if bytes.len() > MAX_FILE_BYTES as usize {
        return Err(Fail::from("a long text"));
    }
    let Ok(checked) = module_of(alloc, bytes.as_slice()) else {
        return Err(Fail::from("a refused module"));
    };
    let Ok(script) = script_of(alloc, SCRIPT.as_bytes(), &checked) else {
        return Err(Fail::from("a refused script"));
    };
    Ok(script_with_hooks(alloc, checked.module(), script)?)
}

/// The expected answer to an import.
fn wanted(import: usize) -> &'static str {
    if import == 0 {
        ANSWER
    } else if import < 6 {
        "None"
    } else {
        HOOK
    }
}

/// Whether the host's own actions are those of `MAIN`.
fn is_main(alloc: Global, script: &Script) -> Result<bool, Fail> {
    let mut text = String::new(alloc);
    write!(text, "{:?}", script.main)?;
    Ok(text.as_str() == MAIN)
}

fn is_wanted(alloc: Global, import: usize, answer: &Option<Answer>) -> Result<bool, Fail> {
    let mut text = String::new(alloc);
    write!(text, "{answer:?}")?;
    Ok(text.as_str() == wanted(import))
}

/// The first import with another answer.
fn first_other(alloc: Global, script: &Script) -> Result<Option<usize>, Fail> {
    for (import, answer) in script.imports.as_slice().iter().enumerate() {
        if !is_wanted(alloc, import, answer)? {
            return Ok(Some(import));
        }
    }
    Ok(None)
}

#[test]
fn functions_are_renumbered_and_hooks_answered(rt: HostRuntime) -> Result<(), Fail> {
    let script = script_of_every_kind(rt.alloc())?;
    assert!(rt; is_main(rt.alloc(), &script)?);
    assert!(rt; script.imports.as_slice().len() == 21);
    assert_eq!(rt; first_other(rt.alloc(), &script)?, None);
    Ok(())
}
