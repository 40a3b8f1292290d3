//! The module and the script of a load. The bytes and the texts were worked out by hand.

use load_maker::make_load;
use std::alloc::Global;
use std::test::Fail;

/// The module of a load, in hexadecimal.
const MODULE: &str =
    // (module (type (func (param i32) (result i32))) (type (func)) (import "h" "f" (func (type 0)))
    //   (func (type 0) (local i32 i32) loop local.get 2 local.get 1 call 0 i32.add local.get 1 i32.load8_u i32.add
    //     local.set 2 local.get 1 i32.const 1 i32.add local.tee 1 local.get 0 i32.lt_u br_if 0 end local.get 2)
    //   (func (type 1) global.get 0 i32.const 1 i32.add global.set 0)
    //   (memory 1) (global (mut i32) (i32.const 0))
    //   (export "run" (func 1)) (export "tick" (func 2)) (export "m" (memory 0)))
    "0061736d0100000001090260017f017f600000020701016801660000030302000105030100010606017f0141000b\
     0712030372756e0001047469636b0002016d02000a30022401027f03402002200110006a20012d00006a21022001\
     41016a22012000490d000b20020b0900230041016a24000b";

/// The script for two calls.
const TWO: &str = "{\"imports\":{\"h\":{\"f\":{\"calls\":[\
     {\"do\":[{\"write\":{\"arg\":0},\"bytes\":\"03\"}],\"return\":{\"i32\":0}},\
     {\"do\":[{\"write\":{\"arg\":0},\"bytes\":\"0a\"}],\"return\":{\"i32\":1}}\
     ]}}},\"main\":[{\"call\":\"run\",\"args\":[{\"i32\":2}]}]}";

/// The response to the sixteenth call.
const SIXTEENTH: &str =
    ",{\"do\":[{\"write\":{\"arg\":0},\"bytes\":\"6c\"},{\"call\":\"tick\"}],\"return\":{\"i32\":15}}";

#[test]
fn two_calls(rt: HostRuntime) -> Result<(), Fail> {
    let alloc = rt.alloc();
    let (module, script) = make_load(alloc, 2)?;
    assert!(rt; hex::encode(alloc, module.as_slice())?.as_str() == MODULE);
    assert!(rt; script.as_slice() == TWO.as_bytes());
    Ok(())
}

#[test]
fn sixteen_calls(rt: HostRuntime) -> Result<(), Fail> {
    let alloc = rt.alloc();
    let (_module, script) = make_load(alloc, 16)?;
    let text = std::str::from_utf8(script.as_slice())?;
    assert!(rt; text.contains(SIXTEENTH));
    Ok(())
}
