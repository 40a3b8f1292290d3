//! Numbers and values.

use crate::tests::answers::check_table;
use sample_inputs::importers::EVERY_KIND;
use std::test::Fail;

const ROWS: &str = r#"
- pages: 0 | {"main":[{"grow":0}]} => taken
- pages: the most | {"main":[{"grow":4294967295}]} => taken
- pages: one more | {"main":[{"grow":4294967296}]} => script: shape /main/0/grow
- pages: a negative number | {"main":[{"grow":-1}]} => script: shape /main/0/grow
- pages: negative 0 | {"main":[{"grow":-0}]} => script: shape /main/0/grow
- pages: a float | {"main":[{"grow":1.0}]} => script: shape /main/0/grow
- pages: an exponent | {"main":[{"grow":1e3}]} => script: shape /main/0/grow
- pages: past all integers | {"main":[{"grow":18446744073709551616}]} => script: shape /main/0/grow
- pages: a text | {"main":[{"grow":"1"}]} => script: shape /main/0/grow
- pages: null | {"main":[{"grow":null}]} => script: shape /main/0/grow
- pages: true | {"main":[{"grow":true}]} => script: shape /main/0/grow
- pages: a list | {"main":[{"grow":[1]}]} => script: shape /main/0/grow
- entries: 0 | {"main":[{"grow_table":0}]} => taken
- entries: past 16 bits | {"main":[{"grow_table":65536}]} => taken
- entries: the most | {"main":[{"grow_table":4294967295}]} => taken
- entries: one more | {"main":[{"grow_table":4294967296}]} => script: shape /main/0/grow_table
- entries: a negative number | {"main":[{"grow_table":-1}]} => script: shape /main/0/grow_table
- entries: a float | {"main":[{"grow_table":1.0}]} => script: shape /main/0/grow_table
- entries: null | {"main":[{"grow_table":null}]} => script: shape /main/0/grow_table
- i32: the least | {"main":[{"call":"run","args":[{"i32":-2147483648},{"i64":0}]}]} => taken
- i32: one less | {"main":[{"call":"run","args":[{"i32":-2147483649},{"i64":0}]}]} => script: shape /main/0/args/0/i32
- i32: the most | {"main":[{"call":"run","args":[{"i32":4294967295},{"i64":0}]}]} => taken
- i32: one more | {"main":[{"call":"run","args":[{"i32":4294967296},{"i64":0}]}]} => script: shape /main/0/args/0/i32
- i32: negative 0 | {"main":[{"call":"run","args":[{"i32":-0},{"i64":0}]}]} => script: shape /main/0/args/0/i32
- i32: a float | {"main":[{"call":"run","args":[{"i32":1.0},{"i64":0}]}]} => script: shape /main/0/args/0/i32
- i32: an exponent | {"main":[{"call":"run","args":[{"i32":1e3},{"i64":0}]}]} => script: shape /main/0/args/0/i32
- i32: a text | {"main":[{"call":"run","args":[{"i32":"1"},{"i64":0}]}]} => script: shape /main/0/args/0/i32
- i64: the least | {"main":[{"call":"run","args":[{"i32":0},{"i64":-9223372036854775808}]}]} => taken
- i64: one less | {"main":[{"call":"run","args":[{"i32":0},{"i64":-9223372036854775809}]}]}
  => script: shape /main/0/args/1/i64
- i64: the most | {"main":[{"call":"run","args":[{"i32":0},{"i64":18446744073709551615}]}]} => taken
- i64: one more | {"main":[{"call":"run","args":[{"i32":0},{"i64":18446744073709551616}]}]}
  => script: shape /main/0/args/1/i64
- i64: negative 0 | {"main":[{"call":"run","args":[{"i32":0},{"i64":-0}]}]} => script: shape /main/0/args/1/i64
- i64: a float | {"main":[{"call":"run","args":[{"i32":0},{"i64":1.0}]}]} => script: shape /main/0/args/1/i64
- i64: an exponent | {"main":[{"call":"run","args":[{"i32":0},{"i64":1e3}]}]} => script: shape /main/0/args/1/i64
- f32: 0 | {"globals":{"a/b":{"c~d":{"f32":0}}}} => taken
- f32: a negative number | {"globals":{"a/b":{"c~d":{"f32":-1}}}} => script: shape /globals/a~1b/c~0d/f32
- f32: the most | {"globals":{"a/b":{"c~d":{"f32":4294967295}}}} => taken
- f32: one more | {"globals":{"a/b":{"c~d":{"f32":4294967296}}}} => script: shape /globals/a~1b/c~0d/f32
- f32: negative 0 | {"globals":{"a/b":{"c~d":{"f32":-0}}}} => script: shape /globals/a~1b/c~0d/f32
- f32: a float | {"globals":{"a/b":{"c~d":{"f32":1.0}}}} => script: shape /globals/a~1b/c~0d/f32
- f32: an exponent | {"globals":{"a/b":{"c~d":{"f32":1e3}}}} => script: shape /globals/a~1b/c~0d/f32
- f64: 0 | {"main":[{"set_global":"x","value":{"f64":0}}]} => taken
- f64: a negative number | {"main":[{"set_global":"x","value":{"f64":-1}}]} => script: shape /main/0/value/f64
- f64: the most | {"main":[{"set_global":"x","value":{"f64":18446744073709551615}}]} => taken
- f64: one more | {"main":[{"set_global":"x","value":{"f64":18446744073709551616}}]} => script: shape /main/0/value/f64
- f64: negative 0 | {"main":[{"set_global":"x","value":{"f64":-0}}]} => script: shape /main/0/value/f64
- f64: a float | {"main":[{"set_global":"x","value":{"f64":1.0}}]} => script: shape /main/0/value/f64
- f64: an exponent | {"main":[{"set_global":"x","value":{"f64":1e3}}]} => script: shape /main/0/value/f64
- a value: a number | {"main":[{"call":"run","args":[5]}]} => script: shape /main/0/args/0
- a value: an empty object | {"main":[{"call":"run","args":[{}]}]} => script: shape /main/0/args/0
- a value: two types | {"main":[{"call":"run","args":[{"i32":1,"i64":1}]}]} => script: shape /main/0/args/0
- a value: another type | {"main":[{"call":"run","args":[{"v128":1}]}]} => script: shape /main/0/args/0
- a value: another type beside a wrong one | {"main":[{"call":"run","args":[{"i32":-0,"v128":1}]}]}
  => script: shape /main/0/args/0
- a value: a list | {"main":[{"call":"run","args":[[]]}]} => script: shape /main/0/args/0
- a value: null for bits | {"main":[{"call":"run","args":[{"i32":null}]}]} => script: shape /main/0/args/0/i32
"#;

#[test]
fn numbers_and_values(rt: HostRuntime) -> Result<(), Fail> {
    assert_eq!(rt; check_table(rt.alloc(), EVERY_KIND, ROWS)?, 55);
    Ok(())
}
