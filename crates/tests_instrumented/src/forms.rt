// Which modules have the hooked form. The modules were encoded by hand.

ghost use Rattle.wasm_flat.specs.Sizes.{IsShort};

use hook_insert::hooked_form;
use r3_inputs::{ModuleFile, module_in};
use sample_inputs::{examples, hooked_modules};
use std::alloc::Global;
use std::test::Fail;
use wasm_syntax::limits::MAX_INSTRUMENTED_BYTES;
use wasm_validate::Checked;

/// The custom section at the end of `hooked_modules::TWO_ANSWERS`: the digest, and the numbers of functions that the
/// original imports and defines.
const SECTION: &str =
    "002c0972332e686f6f6b656407070707070707070707070707070707070707070707070707070707070707070101";

/// A module: what the row tests, its bytes in hexadecimal, without their last section if it is `SECTION`, the
/// sections that follow, and whether the module has the form.
type Row = (&'static str, &'static str, &'static [&'static str], bool);

const ROWS: &[Row] = &[
    (
        "two answers, not instrumented",
        examples::TWO_ANSWERS,
        &[],
        false,
    ),
    (
        "two answers, instrumented",
        hooked_modules::TWO_ANSWERS,
        &[SECTION],
        true,
    ),
    (
        "two sections of the name",
        hooked_modules::TWO_ANSWERS,
        &[SECTION, SECTION],
        false,
    ),
    (
        "a digest of 31 bytes",
        hooked_modules::TWO_ANSWERS,
        &[
            "002b0972332e686f6f6b6564070707070707070707070707070707070707070707070707070707070707070101",
        ],
        false,
    ),
    (
        "other numbers in the section",
        hooked_modules::TWO_ANSWERS,
        &[
            "002c0972332e686f6f6b656407070707070707070707070707070707070707070707070707070707070707070102",
        ],
        false,
    ),
    (
        "a hook of another type",
        // `hooked_modules::TWO_ANSWERS`, except that `grow` has type 1 and that the section is apart
        "0061736d01000000011e066000017f60027f7e0060017f0060000060037f7f7f0060047f7f7f7e00029f0110016801660000\
         02723303617267000102723305656e7465720002027233056c65617665000202723303707265000202723304706f73740002\
         027233046970726500020272330569706f73740003027233046c6f616400040272330573746f726500050272330473697a65\
         00030272330467726f770001027233046767657400010272330467736574000102723304636f707900040272330466696c6c\
         000403020100070501016700100a44014204027f017e017d017c41011002027f410010041000210141ff002001ad10014100\
         10052001410010041000210141ff002001ad10014100100520016a0b410110030b",
        &[SECTION],
        false,
    ),
    (
        "one import more from the module of the hooks",
        // `hooked_modules::TWO_ANSWERS`, except that `arg` is imported twice and that the section is apart
        "0061736d01000000011e066000017f60027f7e0060017f0060000060037f7f7f0060047f7f7f7e0002a80111016801660000\
         02723303617267000102723303617267000102723305656e7465720002027233056c65617665000202723303707265000202\
         723304706f73740002027233046970726500020272330569706f73740003027233046c6f616400040272330573746f726500\
         050272330473697a6500030272330467726f770002027233046767657400010272330467736574000102723304636f707900\
         040272330466696c6c000403020100070501016700110a44014204027f017e017d017c41011003027f410010051000210141\
         ff002001ad1002410010062001410010051000210141ff002001ad10024100100620016a0b410110040b",
        &[
            "002c0972332e686f6f6b656407070707070707070707070707070707070707070707070707070707070707070201",
        ],
        false,
    ),
    (
        "no section of the name",
        hooked_modules::TWO_ANSWERS,
        &[],
        false,
    ),
];

/// The bytes of a row's module.
fn bytes_of(alloc: Global, module: &str, sections: &[&str]) -> Result<Vec<u8>, Fail> {
    let mut bytes = hex::decode(alloc, module.strip_suffix(SECTION).unwrap_or(module))?;
    for section in sections {
        bytes.extend_from_slice(hex::decode(alloc, section)?.as_slice())?;
    }
    Ok(bytes)
}

/// Whether a module has the form, of one function and one import, with a digest of bytes 7.
fn is_form(checked: &Checked) -> bool
    requires { IsShort checked.now }
{
    match hooked_form(checked) {
        Ok(form) => form.digest == [7; 32] && form.imports == 1 && form.defined == 1,
        Err(_) => false,
    }
}

/// Whether a file is of a module that has the form, of one function and one import, with a digest of bytes 7.
fn has_form(alloc: Global, bytes: &[u8]) -> Result<bool, Fail> {
    if bytes.len() > MAX_INSTRUMENTED_BYTES as usize {
        return Err(Fail::from("a long text"));
    }
    match module_in(alloc, ModuleFile::Instrumented, bytes) {
        Ok(checked) => Ok(is_form(&checked)),
        Err(_) => Err(Fail::from("a refused module")),
    }
}

#[test]
fn modules_have_the_hooked_form_or_not(rt: HostRuntime) -> Result<(), Fail> {
    let alloc = rt.alloc();
    for &(name, module, sections, want) in ROWS {
        let bytes = bytes_of(alloc, module, sections)?;
        if has_form(alloc, bytes.as_slice())? != want {
            return Err(Fail::new(format_args!("{name}")));
        }
    }
    Ok(())
}
