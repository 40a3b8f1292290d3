//! Modules written by hand from the grammar (Core 1.0, section 5), and the example modules.

use leb_bytes::push_u32;
use std::alloc::Global;
use std::test::Fail;
use wasm_decode::{DecodeFault, decode};
use wasm_syntax::{Form, Instr, Module};

const PREAMBLE: &[u8] = b"\0asm\x01\0\0\0";

/// The place of the fault; None if the bytes are decoded.
///
/// # Errors
///
/// When memory runs out.
pub fn place(alloc: Global, bytes: &[u8], form: Form) -> Result<Option<u64>, Fail> {
    match decode(alloc, bytes, form) {
        Ok(_module) => Ok(None),
        Err(DecodeFault::Malformed { at }) => Ok(Some(at)),
        Err(DecodeFault::Memory) => Err(Fail::from("out of memory")),
    }
}

/// A module of one function without parameters, results and locals, with this body of at most a million bytes. Its code
/// section begins at 18.
///
/// # Errors
///
/// When memory runs out.
pub fn module_with_body(alloc: Global, body: &[u8]) -> Result<Vec<u8>, Fail> {
    let mut function = Vec::new(alloc);
    let size = body.len().min(1_000_000) as u32;
    push_u32(&mut function, size + 1)?;
    function.push(0)?;
    function.extend_from_slice(body)?;
    let mut bytes = hex::decode(
        alloc,
        // malformed: a function without code
        "0061736d0100000001040160000003020100",
    )?;
    bytes.push(10)?;
    let size = function.len().min(2_000_000) as u32;
    push_u32(&mut bytes, size + 1)?;
    bytes.push(1)?;
    bytes.extend_from_slice(function.as_slice())?;
    Ok(bytes)
}

/// Sections in a form, and the place of their fault, None if they are decoded. They are behind the preamble, so the
/// place of a fault in the first one is 8.
const SECTIONS: &[(Form, &str, Option<u64>)] = &[
    // Nothing; custom sections, which may be anywhere.
    (Form::Core, "", None),
    (Form::Core, "000301610001040160000000020162", None),
    // A name that is no UTF-8, or passes the end of its section.
    (Form::Core, "000201ff", Some(8)),
    (Form::Core, "00020261", Some(8)),
    // Types.
    (Form::Core, "01060160017f017c", None),
    (Form::Core, "010401610000", Some(8)),
    (Form::Core, "01050160017000", Some(8)),
    // Imports of each kind; a kind that isn't one, another type of references.
    (
        Form::Core,
        "021604000000000000017000000000020101020000037f01",
        None,
    ),
    (Form::Core, "02050100000400", Some(8)),
    (Form::Core, "0207010000016f0000", Some(8)),
    // Functions without code.
    (Form::Core, "01040160000003020100", Some(18)),
    // Tables.
    (Form::Core, "040401700001", None),
    (Form::Core, "04050170010102", None),
    (Form::Core, "040401700201", Some(8)),
    // Memories.
    (Form::Core, "0503010001", None),
    (Form::Core, "0503010201", Some(8)),
    // Globals; mutability 2, bytes after the last one.
    (Form::Core, "060b027f0041000b7e0142000b", None),
    (Form::Core, "0606017f0241000b", Some(8)),
    (Form::Core, "0607017f0041000b00", Some(8)),
    // Exports of each kind.
    (Form::Core, "07110401610000016201000163020001640300", None),
    (Form::Core, "07050101610400", Some(8)),
    // The start function; a byte after it.
    (Form::Core, "080100", None),
    (Form::Core, "08020000", Some(8)),
    // Element segments: of any table in Core, of table 0 or declared in replay binaries.
    (Form::Core, "0907010541000b0100", None),
    (Form::Replay, "0907010541000b0100", Some(8)),
    (Form::Replay, "0907010041000b0100", None),
    (Form::Replay, "09050103000100", None),
    (Form::Replay, "09050103010100", Some(8)),
    (Form::Core, "09050103000100", Some(8)),
    // Data segments; one that passes the end of its section.
    (Form::Core, "0b07010041000b0161", None),
    (Form::Core, "0b07010041000b0261", Some(8)),
    // Out of order, twice, an id that isn't one, a section that passes the end.
    (Form::Core, "020100010100", Some(11)),
    (Form::Core, "010100010100", Some(11)),
    (Form::Core, "0101000c0100", Some(11)),
    (Form::Core, "010100020500", Some(11)),
    // A size in five bytes, and in six; a byte after the last type.
    (Form::Core, "01818080800000", None),
    (Form::Core, "0181808080800000", Some(8)),
    (Form::Core, "01020000", Some(8)),
    // Code without functions; runs of 0 and 2^32 - 1 locals, of 2^32; a size that is too large.
    (Form::Core, "0a040102000b", Some(14)),
    (
        Form::Core,
        "010401600000030201000a0c010a02007fffffffff0f7e0b",
        None,
    ),
    (
        Form::Core,
        "010401600000030201000a0c010a02017fffffffff0f7e0b",
        Some(18),
    ),
    (Form::Core, "010401600000030201000a040103000b", Some(18)),
];

/// The place of the fault in sections behind the preamble.
fn place_in_sections(alloc: Global, sections: &str, form: Form) -> Result<Option<u64>, Fail> {
    let mut bytes = Vec::from_slice(alloc, PREAMBLE)?;
    bytes.extend_from_slice(hex::decode(alloc, sections)?.as_slice())?;
    place(alloc, bytes.as_slice(), form)
}

#[test]
fn sections_are_decoded_or_have_their_place(rt: HostRuntime) -> Result<(), Fail> {
    for &(form, sections, at) in SECTIONS {
        assert!(rt;
            place_in_sections(rt.alloc(), sections, form)? == at,
            "{sections}"
        );
    }
    Ok(())
}

/// Instructions of a body in a form, and whether they are decoded.
const BODIES: &[(Form, &str, bool)] = &[
    // Blocks.
    (Form::Core, "000102400b037f41000b0440050b0b", true),
    (Form::Core, "02410b0b", false),
    // `else` in a block, twice in an `if`, in the body itself; an `end` that is missing, or one too many.
    (Form::Core, "0240050b0b", false),
    (Form::Core, "044005050b0b", false),
    (Form::Core, "050b", false),
    (Form::Core, "02400b", false),
    (Form::Core, "0b0b", false),
    // Branches, calls.
    (Form::Core, "0c000d000e020001000f10001100000b", true),
    (Form::Core, "0e03000b", false),
    (Form::Core, "1100010b", false),
    (Form::Core, "060b", false),
    // Operands and variables; an index of more than 32 bits.
    (Form::Core, "1a1b200021002200230024000b", true),
    (Form::Core, "1c0b", false),
    (Form::Core, "2080808080100b", false),
    // Memory.
    (
        Form::Core,
        "2802003500003600003eff01ffffffff0f3f0040000b",
        true,
    ),
    (Form::Core, "28020b", false),
    (Form::Core, "3f010b", false),
    (Form::Core, "40010b", false),
    // Constants, the longest too; unused bits that differ from the sign.
    (
        Form::Core,
        "417f41ffffffff7f428080808080808080800043000000004400000000000000000b",
        true,
    ),
    (Form::Core, "41ffffffff0f0b", false),
    (Form::Core, "42ffffffffffffffffff800b", false),
    (Form::Core, "430000000b", false),
    // Numeric instructions.
    (Form::Core, "45a0bfc0c1c2c3c40b", true),
    (Form::Core, "c50b", false),
    // Copying and filling memory, the number after the prefix in one byte, in two and in five.
    (Form::Core, "fc0a0000fc0b000b", true),
    (Form::Replay, "fc0a0000fc0b000b", true),
    (Form::Core, "fc8a000000fc8b80808000000b", true),
    // The number in six bytes, past 32 bits, cut short.
    (Form::Core, "fc8a808080800000000b", false),
    (Form::Core, "fc8b8080801000000b", false),
    (Form::Core, "fc8b", false),
    // A byte after it that is not zero, one that is missing.
    (Form::Core, "fc0a01000b", false),
    (Form::Core, "fc0a00010b", false),
    (Form::Core, "fc0a000b", false),
    (Form::Core, "fc0b010b", false),
    (Form::Core, "fc0b0b", false),
    // Numbers of other instructions: `i32.trunc_sat_f32_s`, `data.drop`, `table.copy`, `table.fill`; 266, whose
    // low byte is that of `memory.copy`.
    (Form::Replay, "fc000b", false),
    (Form::Replay, "fc09000b", false),
    (Form::Replay, "fc0e00000b", false),
    (Form::Replay, "fc11000b", false),
    (Form::Core, "fc8a0200000b", false),
    // References and table entries, in replay binaries alone.
    (Form::Replay, "2600d070d2000b", true),
    (Form::Replay, "d06f0b", false),
    (Form::Core, "26000b", false),
    (Form::Core, "d0700b", false),
    (Form::Core, "d2000b", false),
    // Growing tables and their sizes, in replay binaries alone; numbers in more bytes than they need.
    (Form::Replay, "fc0f00fc10010b", true),
    (Form::Replay, "fc8f00ffffffff0ffc90808080008080000b", true),
    (Form::Replay, "fc0fffffffff1f0b", false),
    (Form::Core, "fc0f000b", false),
    (Form::Core, "fc10000b", false),
];

/// Whether a body is decoded or the code section has the fault.
fn is_decoded(alloc: Global, instructions: &str, form: Form) -> Result<bool, Fail> {
    let body = hex::decode(alloc, instructions)?;
    let bytes = module_with_body(alloc, body.as_slice())?;
    match place(alloc, bytes.as_slice(), form)? {
        None => Ok(true),
        Some(18) => Ok(false),
        Some(_) => Err(Fail::from("another place than that of the code section")),
    }
}

#[test]
fn bodies_are_decoded_or_not(rt: HostRuntime) -> Result<(), Fail> {
    for &(form, instructions, is_good) in BODIES {
        assert!(rt;
            is_decoded(rt.alloc(), instructions, form)? == is_good,
            "{instructions}"
        );
    }
    Ok(())
}

/// Whether a module has one function, whose body is these instructions.
fn has_later_instructions(module: &Module) -> bool {
    let [func] = module.funcs.as_slice() else {
        return false;
    };
    matches!(
        func.body.as_slice(),
        [
            Instr::MemoryCopy,
            Instr::MemoryFill,
            Instr::TableGrow(3),
            Instr::TableSize(300),
            Instr::Numeric(0xc4),
            Instr::End,
        ]
    )
}

/// Whether the module with a body has the instructions of `has_later_instructions`.
///
/// # Errors
///
/// When memory runs out or the module is not decoded.
pub fn are_later_instructions(alloc: Global, body: &str) -> Result<bool, Fail> {
    let body = hex::decode(alloc, body)?;
    let bytes = module_with_body(alloc, body.as_slice())?;
    Ok(has_later_instructions(&decode(alloc, bytes.as_slice(), Form::Replay)?))
}

#[test]
fn later_instructions_are_distinguished(rt: HostRuntime) -> Result<(), Fail> {
    // The numbers after the prefix in one byte, in two, in three and in five.
    let body = "fc0a0000fc8b0000fc8f800003fc9080808000ac02c40b";
    assert!(rt; are_later_instructions(rt.alloc(), body)?);
    Ok(())
}

const EXAMPLES: &[&str] = &[
    // examples/c_buffers.wat
    "0061736d0100000001110360037f7f7f017f60017f017f6000017f020c0103656e7604726561640000030302020104050170\
         01020205030100020608017f01418088040b071002066d656d6f727902000372756e00010907010041010b01020a3a023001\
         017f230041106b2200240020004104200041086a10001a200028020020002802086a4101110100200041106a24000b070020\
         004101740b",
    // examples/empty.wat
    "0061736d01000000",
    // examples/float_body.wat
    "0061736d010000000104016000000304030000000a1f0302000b02000b170001440000000000000000440000000000000000a01a0b",
    // examples/float_global.wat
    "0061736d010000000108026000006000017d020701016801660000030201010609017d0143000000000b0709020167000101\
         7803000a08010600100023000b",
    // examples/grow_access.wat
    "0061736d0100000001040160000002070101680166000003020100050301000107090201670001016d02000a0f010d001000\
         4180800441093a00000b",
    // examples/grow_failed.wat
    "0061736d010000000108026000006000017f0207010168016600000302010105040101040a07090201670001016d02000a0a\
         0108001000410340000b",
    // examples/imported_offset.wat
    "0061736d010000000105016000017f02080101680162037f00030201000503010001070501016700000a0901070041102d00\
         000b0b07010023000b0141",
    // examples/nested_call.wat
    "0061736d010000000105016000017f02070101680166000003030200000503010001070d030167000101650002016d02000a\
         11020a00100041002d00006a0b040010000b",
    // examples/nested_trap.wat
    "0061736d010000000105016000017f02070101680166000003030200000503010001070d030167000101650002016d02000a\
         11020a00100041002d00006a0b0400006a0b",
    // examples/overwrite.wat
    "0061736d010000000108026000006000017f02070101680166000003020101050301000107090201670001016d02000a1201\
         10001000410841013b010041082802000b",
    // examples/replay_two_answers.wat
    "0061736d010000000108026000017f6000000304030000010606017f0141000b070a01065f737461727400020a2303130023\
         00230041016a2400047f41070541050b0b0700100010006a0b050010011a0b000c0972332e6c61796f75740101",
    // examples/table_entry.wat
    "0061736d010000000108026000006000017f020701016801660000030403010100040401700002070d030167000101620003\
         017401000907010041000b01020a13030900100041001101000b040041070b02000b",
    // examples/two_answers.wat
    "0061736d010000000105016000017f02070101680166000003020100070501016700010a09010700100010006a0b",
];

/// The place of the fault in the bytes that hexadecimal digits give.
fn place_in_digits(alloc: Global, text: &str, form: Form) -> Result<Option<u64>, Fail> {
    place(alloc, hex::decode(alloc, text)?.as_slice(), form)
}

#[test]
fn example_modules_are_decoded(rt: HostRuntime) -> Result<(), Fail> {
    for &text in EXAMPLES {
        assert!(rt;
            place_in_digits(rt.alloc(), text, Form::Core)? == None,
            "{text}"
        );
        assert!(rt;
            place_in_digits(rt.alloc(), text, Form::Replay)? == None,
            "{text}"
        );
    }
    Ok(())
}

/// Modules, and the place of their fault, None if they are decoded.
const TWO_ANSWERS: &[(&str, Option<u64>)] = &[
    (
        // malformed: the first 40 bytes of examples/two_answers.wasm
        "0061736d010000000105016000017f02070101680166000003020100070501016700010a09010700",
        Some(35),
    ),
    (
        // (module (import "h" "f" (func (result i32))) (func (result i32) call 0 call 0 i32.add)
        // (export "g" (func 1))), with the index of the function's type in five bytes
        "0061736d010000000105016000017f0207010168016600000306018080808000070501016700010a09010700100010006a0b",
        None,
    ),
    (
        // malformed: the index of the function's type in six bytes
        "0061736d010000000105016000017f020701016801660000030701808080808000070501016700010a09010700100010006a0b",
        Some(24),
    ),
];

#[test]
fn two_answers_cut_short_and_encoded_long(rt: HostRuntime) -> Result<(), Fail> {
    for &(text, at) in TWO_ANSWERS {
        assert!(rt;
            place_in_digits(rt.alloc(), text, Form::Core)? == at,
            "{text}"
        );
    }
    Ok(())
}

/// The bytes of a module.
const C_BUFFERS: &str =
    // examples/c_buffers.wat
    "0061736d0100000001110360037f7f7f017f60017f017f6000017f020c0103656e7604726561640000030302020104050170\
     01020205030100020608017f01418088040b071002066d656d6f727902000372756e00010907010041010b01020a3a023001\
     017f230041106b2200240020004104200041086a10001a200028020020002802086a4101110100200041106a24000b070020\
     004101740b";

/// The ends of its preamble and of its sections.
const ENDS: &[usize] = &[8, 27, 41, 46, 53, 58, 68, 86, 95, 155];

/// Those of its fronts that have as many functions as bodies.
const MODULES: &[usize] = &[8, 27, 41, 155];

/// The greatest end that is not past a length, 0 if the length is before all of them.
fn end_within(length: usize) -> u64 {
    let mut found = 0;
    for &end in ENDS {
        if end <= length {
            found = end as u64;
        }
    }
    found
}

/// The length of the first front of a module that has another place.
fn first_other_front(alloc: Global, bytes: &[u8]) -> Result<Option<usize>, Fail> {
    for length in 0..=bytes.len() {
        let want = if MODULES.contains(&length) {
            None
        } else {
            Some(end_within(length))
        };
        if place(alloc, &bytes[..length], Form::Core)? != want {
            return Ok(Some(length));
        }
    }
    Ok(None)
}

#[test]
fn each_front_of_a_module_has_its_place(rt: HostRuntime) -> Result<(), Fail> {
    let bytes = hex::decode(rt.alloc(), C_BUFFERS)?;
    assert_eq!(rt; first_other_front(rt.alloc(), bytes.as_slice())?, None);
    Ok(())
}
