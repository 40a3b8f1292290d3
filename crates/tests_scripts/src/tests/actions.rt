//! Each action, with its keys.

use crate::tests::answers::{CLOSED, IMPORTED, check_table};
use sample_inputs::importers::EVERY_KIND;
use std::test::Fail;

const ROWS: &str = r#"
- no action | {"main":[5]} => script: shape /main/0
- no lead key | {"main":[{}]} => script: shape /main/0
- another lead key | {"main":[{"jump":1}]} => script: shape /main/0
- two lead keys | {"main":[{"write":0,"grow":1}]} => script: shape /main/0
- two lead keys beside wrong values | {"main":[{"write":"x","bytes":"0","copy":"x"}]} => script: shape /main/0
- two lead keys, calls | {"main":[{"call":"go","call_table":0}]} => script: shape /main/0
- write | {"main":[{"write":0,"bytes":"00ff"}]} => taken
- write digits of both cases | {"main":[{"write":4294967295,"bytes":"aAbBfF09"}]} => taken
- write nothing | {"main":[{"write":0,"bytes":""}]} => taken
- write an odd length | {"main":[{"write":0,"bytes":"012"}]} => script: shape /main/0/bytes
- write another digit | {"main":[{"write":0,"bytes":"0g"}]} => script: shape /main/0/bytes
- write a number | {"main":[{"write":0,"bytes":0}]} => script: shape /main/0/bytes
- write a list | {"main":[{"write":0,"bytes":[0]}]} => script: shape /main/0/bytes
- write without bytes | {"main":[{"write":0}]} => script: shape /main/0
- write at a text, without bytes | {"main":[{"write":"x"}]} => script: shape /main/0/write
- write at a text, with an unlisted key and without bytes | {"main":[{"write":"x","zz":1}]} => script: shape /main/0
- write with a key of another action | {"main":[{"write":0,"bytes":"00","count":1}]} => script: shape /main/0
- write past 32 bits | {"main":[{"write":4294967296,"bytes":"0"}]} => script: shape /main/0/write
- write at an argument, in main | {"main":[{"write":{"arg":0},"bytes":"00"}]} => script: shape /main/0/write
- write at an object, in main | {"main":[{"write":{"arg":"x","zz":0},"bytes":"00"}]} => script: shape /main/0/write
- copy | {"main":[{"copy":0,"from":1,"count":2}]} => taken
- copy at a text | {"main":[{"copy":"x","from":"x","count":"x"}]} => script: shape /main/0/copy
- copy from a text | {"main":[{"copy":0,"from":"x","count":"x"}]} => script: shape /main/0/from
- copy a text of bytes | {"main":[{"copy":0,"from":0,"count":"x"}]} => script: shape /main/0/count
- copy from nowhere | {"main":[{"copy":0,"count":"x"}]} => script: shape /main/0
- copy without a count | {"main":[{"copy":0,"from":0}]} => script: shape /main/0
- copy from an argument, in main | {"main":[{"copy":0,"from":{"arg":0},"count":1}]} => script: shape /main/0/from
- copy with an unlisted key | {"main":[{"copy":0,"from":1,"count":2,"bytes":""}]} => script: shape /main/0
- set an entry | {"main":[{"set_table":0,"func":"run"}]} => taken
- empty an entry | {"main":[{"set_table":0,"func":null}]} => taken
- set an entry to an import | {"main":[{"set_table":0,"func":"own"}]} => taken
- set a text of an entry | {"main":[{"set_table":"x"}]} => script: shape /main/0/set_table
- set an entry to nothing | {"main":[{"set_table":0}]} => script: shape /main/0
- set an entry to a number | {"main":[{"set_table":0,"func":7}]} => script: shape /main/0/func
- set an entry to an unknown function | {"main":[{"set_table":0,"func":"zz"}]} => script: unknown zz
- set an entry to a memory | {"main":[{"set_table":0,"func":"mem"}]} => script: unknown mem
- set an entry with an unlisted key | {"main":[{"set_table":0,"func":"run","args":[]}]} => script: shape /main/0
- set a global | {"main":[{"set_global":"x","value":{"f64":0}}]} => taken
- set an imported global | {"main":[{"set_global":{"import":["h","g"]},"value":{"i32":0}}]} => taken
- set a global to another type | {"main":[{"set_global":"x","value":{"i32":0}}]} => script: type x
- set an imported global to another type | {"main":[{"set_global":{"import":["h","g"]},"value":{"i64":0}}]}
  => script: type g
- set an immutable global | {"main":[{"set_global":"y","value":{"i32":0}}]} => script: no access y
- set an immutable global to another type | {"main":[{"set_global":"y","value":{"f32":0}}]} => script: no access y
- set an immutable import | {"main":[{"set_global":{"import":["h","k"]},"value":{"i64":0}}]} => script: no access k
- set an unknown global | {"main":[{"set_global":"zz","value":{"i32":0}}]} => script: unknown zz
- set a function | {"main":[{"set_global":"run","value":{"i32":0}}]} => script: unknown run
- set an unknown import | {"main":[{"set_global":{"import":["h","zz"]},"value":{"i32":0}}]} => script: unknown zz
- set an import of an unknown module | {"main":[{"set_global":{"import":["zz","g"]},"value":{"i32":0}}]}
  => script: unknown zz
- set an imported function | {"main":[{"set_global":{"import":["h","f"]},"value":{"i32":0}}]} => script: unknown f
- set an unknown global to a number | {"main":[{"set_global":"zz","value":5}]} => script: shape /main/0/value
- set an unknown global to nothing | {"main":[{"set_global":"zz"}]} => script: shape /main/0
- a target that is a number | {"main":[{"set_global":5,"value":5}]} => script: shape /main/0/set_global
- a target without names | {"main":[{"set_global":{},"value":5}]} => script: shape /main/0/set_global
- a target with an unlisted key | {"main":[{"set_global":{"import":["h","g"],"zz":1},"value":5}]}
  => script: shape /main/0/set_global
- a target of one name | {"main":[{"set_global":{"import":["h"]},"value":5}]} => script: shape /main/0/set_global/import
- a target of three names | {"main":[{"set_global":{"import":[1,2,3]},"value":5}]}
  => script: shape /main/0/set_global/import
- a target of a text | {"main":[{"set_global":{"import":"h"},"value":5}]} => script: shape /main/0/set_global/import
- a target of numbers | {"main":[{"set_global":{"import":[1,2]},"value":5}]}
  => script: shape /main/0/set_global/import/0
- a target of a text and a number | {"main":[{"set_global":{"import":["zz",2]},"value":5}]}
  => script: shape /main/0/set_global/import/1
- set a global with an unlisted key | {"main":[{"set_global":"x","value":{"f64":0},"func":null}]}
  => script: shape /main/0
- grow | {"main":[{"grow":1}]} => taken
- grow with an unlisted key | {"main":[{"grow":-1,"max":1}]} => script: shape /main/0
- grow and a table's growth | {"main":[{"grow":1,"grow_table":1}]} => script: shape /main/0
- grow with a key of another action | {"main":[{"grow":1,"func":null}]} => script: shape /main/0
- grow the table | {"main":[{"grow_table":1}]} => taken
- grow the table, with an unlisted key | {"main":[{"grow_table":-1,"max":1}]} => script: shape /main/0
- grow the table, with a key of another action | {"main":[{"grow_table":1,"func":null}]} => script: shape /main/0
- grow the table and set an entry | {"main":[{"set_table":0,"func":null,"grow_table":1}]} => script: shape /main/0
- grow the table and call an entry | {"main":[{"grow_table":-1,"call_table":"x"}]} => script: shape /main/0
- grow the table by a negative number, behind a growth | {"main":[{"grow_table":0},{"grow_table":-1}]}
  => script: shape /main/1/grow_table
- call | {"main":[{"call":"go"}]} => taken
- call with arguments | {"main":[{"call":"run","args":[{"i32":-1},{"i64":-1}]}]} => taken
- call without the arguments | {"main":[{"call":"run"}]} => script: type run
- call with too many arguments | {"main":[{"call":"go","args":[{"i32":0}]}]} => script: type go
- call with arguments of other types | {"main":[{"call":"run","args":[{"i64":0},{"i32":0}]}]} => script: type run
- call an unknown function | {"main":[{"call":"zz"}]} => script: unknown zz
- call a memory | {"main":[{"call":"mem"}]} => script: unknown mem
- call an import | {"main":[{"call":"own"}]} => script: calls own own
- call an import without its arguments | {"main":[{"call":"own","args":[]}]} => script: calls own own
- call a number | {"main":[{"call":5,"args":5}]} => script: shape /main/0/call
- call an unknown function with a number | {"main":[{"call":"zz","args":5}]} => script: shape /main/0/args
- call an unknown function with null | {"main":[{"call":"zz","args":null}]} => script: shape /main/0/args
- call with a second argument that is a number | {"main":[{"call":"go","args":[{"i32":0},5]}]}
  => script: shape /main/0/args/1
- call with an unlisted key | {"main":[{"call":5,"arg":[]}]} => script: shape /main/0
- call an entry | {"main":[{"call_table":4294967295}]} => taken
- call an entry with arguments | {"main":[{"call_table":0,"args":[{"f32":0},{"f64":0}]}]} => taken
- call a negative entry | {"main":[{"call_table":-1,"args":5}]} => script: shape /main/0/call_table
- call an entry with an object | {"main":[{"call_table":0,"args":{}}]} => script: shape /main/0/args
- call an entry with a key of another action | {"main":[{"call_table":0,"func":null}]} => script: shape /main/0
"#;

const OUT_OF_REACH: &str = r#"
- write | {"main":[{"write":0,"bytes":""}]} => script: no access memory
- copy | {"main":[{"copy":0,"from":0,"count":0}]} => script: no access memory
- grow | {"main":[{"grow":0}]} => script: no access memory
- set an entry | {"main":[{"set_table":0,"func":null}]} => script: no access table
- grow the table | {"main":[{"grow_table":0}]} => script: no access table
- call an entry | {"main":[{"call_table":0}]} => script: no access table
- write an odd length | {"main":[{"write":0,"bytes":"0"}]} => script: shape /main/0/bytes
- copy an unlisted key | {"main":[{"copy":0,"zz":0}]} => script: shape /main/0
- grow by a text | {"main":[{"grow":"0"}]} => script: shape /main/0/grow
- grow the table by a text | {"main":[{"grow_table":"0"}]} => script: shape /main/0/grow_table
- grow the table by 2^32 | {"main":[{"grow_table":4294967296}]} => script: shape /main/0/grow_table
- grow the table, with an unlisted key | {"main":[{"grow_table":0,"max":1}]} => script: shape /main/0
- grow the table in a response | {"imports":{"h":{"f":{"calls":[{"do":[{"grow_table":1}]}]}}}}
  => script: no access table
- set an entry to an unknown function | {"main":[{"set_table":0,"func":"zz"}]} => script: no access table
- set an entry to a number | {"main":[{"set_table":0,"func":0}]} => script: shape /main/0/func
- call an entry with a number | {"main":[{"call_table":0,"args":5}]} => script: shape /main/0/args
- write at an argument of 64 bits | {"imports":{"h":{"f":{"calls":[{"do":[{"write":{"arg":0},"bytes":""}]}]}}}}
  => script: no access memory
- call | {"main":[{"call":"go"}]} => taken
- a memory that is not imported | {"memory":{"pages":70000},"table":{"size":4294967295}} => taken
"#;

const IMPORTS: &str = r#"
- write | {"main":[{"write":0,"bytes":""}]} => taken
- copy | {"main":[{"copy":0,"from":0,"count":0}]} => taken
- grow | {"main":[{"grow":0}]} => taken
- grow the table | {"main":[{"grow_table":0}]} => taken
- set an entry | {"main":[{"set_table":0,"func":"go"}]} => taken
- call an entry | {"main":[{"call_table":0}]} => taken
- nothing under a module of no functions | {"imports":{"h":{}}} => script: unknown h
"#;

/// Scripts for modules that have a memory and a table in reach, out of reach, and imported; and the number of
/// scripts.
const TABLES: [(&str, &str, u64); 3] = [
    (EVERY_KIND, ROWS, 89),
    (CLOSED, OUT_OF_REACH, 19),
    (IMPORTED, IMPORTS, 7),
];

#[test]
fn each_action_in_reach_and_out_of_it(rt: HostRuntime) -> Result<(), Fail> {
    for (module, rows, count) in TABLES {
        assert_eq!(rt; check_table(rt.alloc(), module, rows)?, count);
    }
    Ok(())
}
