//! Texts, the keys of a script, names, and the texts under them.

use crate::tests::answers::{answer_to, check_rows, check_table, module};
use sample_inputs::examples::TWO_ANSWERS;
use sample_inputs::importers::{EVERY_KIND, EXPORTED_IMPORT};
use std::alloc::Global;
use std::test::Fail;
use wasm_validate::Checked;

const ROWS: &str = r#"
- an open object | { => script: not json
- something after it | {} 1 => script: not json
- a single surrogate | {"main":["\ud800"]} => script: not json
- a number with a leading zero | {"main":[{"grow":01}]} => script: not json
- a float past all floats | {"main":[{"grow":1e999}]} => script: not json
- an empty object | {} => taken
- a key twice, the last one good | {"main":[{"call":"zz"}],"main":[]} => taken
- a key twice, the last one bad | {"main":[],"main":[{"call":"zz"}]} => script: unknown zz
- a lead key twice | {"main":[{"grow":-1,"grow":1}]} => taken
- a name twice | {"imports":{"h":{"v":5,"v":{}}}} => taken
- a key by escapes | {"\u006dain":5} => script: shape /main
- memory first | {"main":5,"imports":5,"globals":5,"table":5,"memory":5} => script: shape /memory
- then the table | {"main":5,"imports":5,"globals":5,"table":5,"memory":{"pages":1}} => script: shape /table
- then the globals | {"main":5,"imports":5,"globals":5,"table":{"size":1}} => script: shape /globals
- then the imports | {"main":5,"imports":5,"globals":{}} => script: shape /imports
- main last | {"main":5,"imports":{}} => script: shape /main
- limits | {"memory":{"pages":1,"max":2},"table":{"size":1,"max":2}} => taken
- limits without a maximum | {"memory":{"pages":0},"table":{"size":0}} => taken
- a memory that is a number | {"memory":1} => script: shape /memory
- a memory without pages | {"memory":{}} => script: shape /memory
- no pages beside a wrong maximum | {"memory":{"max":-1}} => script: shape /memory
- wrong pages beside a wrong maximum | {"memory":{"max":-1,"pages":-1}} => script: shape /memory/pages
- a wrong maximum | {"memory":{"max":null,"pages":1}} => script: shape /memory/max
- a size of a memory | {"memory":{"pages":1,"size":1}} => script: shape /memory
- too many pages | {"memory":{"pages":4294967296}} => script: shape /memory/pages
- a table of pages | {"table":{"pages":1}} => script: shape /table
- a wrong size | {"table":{"size":"1"}} => script: shape /table/size
- a wrong maximum of a table | {"table":{"size":1,"max":1.5}} => script: shape /table/max
- values of globals | {"globals":{"h":{"g":{"i32":1},"k":{"i64":1}},"a/b":{"c~d":{"f32":1}}}} => taken
- a value of another type, which linking looks at | {"globals":{"h":{"g":{"f64":1}}}} => taken
- a module name that is a number | {"globals":{"h":5}} => script: shape /globals/h
- an unknown module name | {"globals":{"zz":5}} => script: unknown zz
- an unknown name | {"globals":{"h":{"zz":5}}} => script: unknown zz
- a function as a global | {"globals":{"h":{"f":{"i32":1}}}} => script: unknown f
- a wrong value | {"globals":{"h":{"g":5}}} => script: shape /globals/h/g
- names in the order of their bytes | {"globals":{"zz":5,"h":{"k":5,"g":5}}} => script: shape /globals/h/g
- upper case first | {"globals":{"h":{"g":5,"Z":5}}} => script: unknown Z
- a name that begins another one first | {"globals":{"h":{"gg":5,"g":5}}} => script: shape /globals/h/g
- a path with both escapes | {"globals":{"a/b":{"c~d":5}}} => script: shape /globals/a~1b/c~0d
- a path with both escapes, to a key | {"globals":{"a/b":{"c~d":{"f32":-1}}}} => script: shape /globals/a~1b/c~0d/f32
- an unknown name with a line feed and letters past ASCII | {"globals":{"\n\\é":5}} => script: unknown \0a\5c\c3\a9
- no answers | {"imports":{"h":{"f":{},"v":{"calls":[]}}}} => taken
- an unknown module of functions | {"imports":{"zz":5}} => script: unknown zz
- an unknown function | {"imports":{"h":{"zz":5}}} => script: unknown zz
- a global as a function | {"imports":{"h":{"g":{}}}} => script: unknown g
- answers that are a number | {"imports":{"h":{"f":5}}} => script: shape /imports/h/f
- an unlisted key of answers | {"imports":{"h":{"f":{"call":[],"calls":5}}}} => script: shape /imports/h/f
- calls that are no list | {"imports":{"h":{"f":{"calls":{}}}}} => script: shape /imports/h/f/calls
- a call that is a number | {"imports":{"h":{"v":{"calls":[{},5]}}}} => script: shape /imports/h/v/calls/1
- a rest that is a list | {"imports":{"h":{"f":{"rest":[]}}}} => script: shape /imports/h/f/rest
- calls before the rest | {"imports":{"h":{"f":{"rest":5,"calls":5}}}} => script: shape /imports/h/f/calls
- the rest after good calls | {"imports":{"h":{"v":{"rest":5,"calls":[{}]}}}} => script: shape /imports/h/v/rest
- answers by a path with both escapes | {"imports":{"a/b":{"c~d":5}}} => script: unknown a/b
- main that is an object | {"main":{}} => script: shape /main
- the first of two faults | {"main":[{"call":"zz"},{"grow":-1}]} => script: unknown zz
- a later action | {"main":[{"grow":1},{"grow":1},{"grow":-1}]} => script: shape /main/2/grow
- imports before main | {"main":[{"call":"zz"}],"imports":{"h":{"f":5}}} => script: shape /imports/h/f
"#;

/// Rows with white space at an end of the script or of the answer.
const WITH_SPACES: &[(&str, &str, &str)] = &[
    ("nothing", r#""#, "script: not json"),
    (
        "a comma after the last",
        r#" {"main":[],}"#,
        "script: not json",
    ),
    ("white space around it", " \t\r\n{ } \n", "taken"),
    ("a list", r#"[]"#, "script: shape "),
    ("null", r#"null"#, "script: shape "),
    ("a text", r#""main""#, "script: shape "),
    ("an unlisted key", r#"{"mian":[]}"#, "script: shape "),
    (
        "an unlisted key beside a wrong value",
        r#"{"memory":5,"zz":1}"#,
        "script: shape ",
    ),
];

#[test]
fn texts_and_keys(rt: HostRuntime) -> Result<(), Fail> {
    assert!(rt; check_table(rt.alloc(), EVERY_KIND, ROWS)? == 57);
    check_rows(rt.alloc(), EVERY_KIND, WITH_SPACES)
}

/// Scripts whose bytes are not UTF-8: a byte that begins no character, an unfinished character, a surrogate, and
/// an unfinished character in a name. The last script begins with a byte order mark.
const OTHER_BYTES: &[&[u8]] = &[
    b"\xff",
    b"{}\xc3",
    b"{\"main\":[\"\xed\xa0\x80\"]}",
    b"{\"\xc3(\":0}",
    b"\xef\xbb\xbf{}",
];

/// The number of the first of these scripts that has another answer.
fn first_other_bytes(alloc: Global, checked: &Checked) -> Result<Option<usize>, Fail> {
    for (number, bytes) in OTHER_BYTES.iter().enumerate() {
        if answer_to(alloc, checked, bytes)?.as_str() != "script: not json" {
            return Ok(Some(number));
        }
    }
    Ok(None)
}

#[test]
fn bytes_that_are_no_text(rt: HostRuntime) -> Result<(), Fail> {
    let checked = module(rt.alloc(), EVERY_KIND)?;
    assert_eq!(rt; first_other_bytes(rt.alloc(), &checked)?, None);
    Ok(())
}

const ADDING_ROWS: &str = r#"
- an open object | { => script: not json
- another lead key | {"main":[{"jump":1}]} => script: shape /main/0
- an unknown function | {"main":[{"call":"zz"}]} => script: unknown zz
- an argument too many | {"main":[{"call":"g","args":[{"i32":1}]}]} => script: type g
- no memory | {"main":[{"write":0,"bytes":"00"}]} => script: no access memory
"#;

const EXPORTED_ROWS: &str = r#"
- a call of the import |
  {"imports":{"h":{"f":{"calls":[{"return":{"i32":5}},{"return":{"i32":7}}]}}},"main":[{"call":"g"}]}
  => script: calls own g
"#;

#[test]
fn worked_faults(rt: HostRuntime) -> Result<(), Fail> {
    assert!(rt; check_table(rt.alloc(), TWO_ANSWERS, ADDING_ROWS)? == 5);
    assert!(rt; check_table(rt.alloc(), EXPORTED_IMPORT, EXPORTED_ROWS)? == 1);
    Ok(())
}
