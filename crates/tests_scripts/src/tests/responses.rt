//! Responses to calls, and addresses in them.

use crate::tests::answers::check_table;
use sample_inputs::importers::EVERY_KIND;
use std::test::Fail;

const ROWS: &str = r#"
- a value | {"imports":{"h":{"f":{"calls":[{"return":{"i32":0}}]}}}} => taken
- nothing | {"imports":{"h":{"v":{"calls":[{}],"rest":{"do":[]}}}}} => taken
- a trap | {"imports":{"h":{"f":{"calls":[{"trap":true}]}}}} => taken
- no value, needed | {"imports":{"h":{"f":{"calls":[{}]}}}} => script: type f
- a value, needless | {"imports":{"h":{"v":{"rest":{"return":{"i32":0}}}}}} => script: type v
- a value of another type | {"imports":{"h":{"f":{"calls":[{"return":{"i64":0}}]}}}} => script: type f
- a second response | {"imports":{"h":{"f":{"calls":[{"trap":true},{}]}}}} => script: type f
- null for a value | {"imports":{"h":{"f":{"calls":[{"return":null}]}}}} => script: shape /imports/h/f/calls/0/return
- no trap | {"imports":{"h":{"f":{"calls":[{"trap":false}]}}}} => script: shape /imports/h/f/calls/0/trap
- a trap by number | {"imports":{"h":{"f":{"calls":[{"trap":1}]}}}} => script: shape /imports/h/f/calls/0/trap
- a value and a trap | {"imports":{"h":{"f":{"calls":[{"return":{"i32":0},"trap":true}]}}}}
  => script: shape /imports/h/f/calls/0
- a wrong value and a wrong trap | {"imports":{"h":{"f":{"calls":[{"return":5,"trap":5}]}}}}
  => script: shape /imports/h/f/calls/0
- actions before a value and a trap | {"imports":{"h":{"f":{"calls":[{"return":{"i32":0},"trap":true,"do":5}]}}}}
  => script: shape /imports/h/f/calls/0/do
- an action before a value and a trap | {"imports":{"h":{"f":{"calls":[{"return":5,"trap":5,"do":[{"call":"zz"}]}]}}}}
  => script: unknown zz
- an action before a missing value | {"imports":{"h":{"f":{"calls":[{"do":[{"grow":-1}]}]}}}}
  => script: shape /imports/h/f/calls/0/do/0/grow
- a table's growth | {"imports":{"h":{"f":{"calls":[{"do":[{"grow_table":1}],"return":{"i32":0}}]}}}} => taken
- a table's growth before a missing value | {"imports":{"h":{"f":{"calls":[{"do":[{"grow_table":-1}]}]}}}}
  => script: shape /imports/h/f/calls/0/do/0/grow_table
- an action before a value of another type |
  {"imports":{"h":{"f":{"calls":[{"do":[{"call":"own"}],"return":{"i64":0}}]}}}}
  => script: calls own own
- an unlisted key before all | {"imports":{"h":{"f":{"calls":[{"do":5,"return":5,"trap":5,"zz":5}]}}}}
  => script: shape /imports/h/f/calls/0
- actions that are an object | {"imports":{"h":{"f":{"calls":[{"do":{}}]}}}} => script: shape /imports/h/f/calls/0/do
- a response before the rest | {"imports":{"h":{"f":{"rest":5,"calls":[{}]}}}} => script: type f
- at an argument | {"imports":{"h":{"f":{"calls":[{"do":[{"write":{"arg":0},"bytes":""}],"return":{"i32":0}}]}}}}
  => taken
- past an argument |
  {"imports":{"h":{"f":{"calls":[{"do":[{"write":{"arg":0,"plus":4294967295},"bytes":""}],"return":{"i32":0}}]}}}}
  => taken
- at an address | {"imports":{"h":{"f":{"calls":[{"do":[{"copy":1,"from":{"arg":0},"count":1}],"return":{"i32":0}}]}}}}
  => taken
- at an argument of 64 bits |
  {"imports":{"h":{"f":{"calls":[{"do":[{"write":{"arg":1},"bytes":""}],"return":{"i32":0}}]}}}}
  => script: type f
- at an argument that is not there |
  {"imports":{"h":{"f":{"calls":[{"do":[{"write":{"arg":2},"bytes":""}],"return":{"i32":0}}]}}}}
  => script: type f
- from an argument of 64 bits |
  {"imports":{"h":{"f":{"calls":[{"do":[{"copy":{"arg":0},"from":{"arg":1},"count":1}],"return":{"i32":0}}]}}}}
  => script: type f
- at no argument | {"imports":{"h":{"f":{"calls":[{"do":[{"write":{},"bytes":""}],"return":{"i32":0}}]}}}}
  => script: shape /imports/h/f/calls/0/do/0/write
- at no argument with an offset |
  {"imports":{"h":{"f":{"calls":[{"do":[{"write":{"plus":"x"},"bytes":""}],"return":{"i32":0}}]}}}}
  => script: shape /imports/h/f/calls/0/do/0/write
- at an argument with an unlisted key |
  {"imports":{"h":{"f":{"calls":[{"do":[{"write":{"arg":"x","zz":0},"bytes":""}],"return":{"i32":0}}]}}}}
  => script: shape /imports/h/f/calls/0/do/0/write
- at a text of an argument |
  {"imports":{"h":{"f":{"calls":[{"do":[{"write":{"arg":"x","plus":"x"},"bytes":""}],"return":{"i32":0}}]}}}}
  => script: shape /imports/h/f/calls/0/do/0/write/arg
- past an argument by a text |
  {"imports":{"h":{"f":{"calls":[{"do":[{"write":{"arg":9,"plus":"x"},"bytes":""}],"return":{"i32":0}}]}}}}
  => script: shape /imports/h/f/calls/0/do/0/write/plus
- far past an argument |
  {"imports":{"h":{"f":{"calls":[{"do":[{"write":{"arg":0,"plus":4294967296},"bytes":""}],"return":{"i32":0}}]}}}}
  => script: shape /imports/h/f/calls/0/do/0/write/plus
- a wrong argument after a wrong form |
  {"imports":{"h":{"f":{"calls":[{"do":[{"write":{"arg":9},"bytes":"0"}],"return":{"i32":0}}]}}}}
  => script: shape /imports/h/f/calls/0/do/0/bytes
- at a list | {"imports":{"h":{"f":{"calls":[{"do":[{"write":[0],"bytes":""}],"return":{"i32":0}}]}}}}
  => script: shape /imports/h/f/calls/0/do/0/write
- an argument that is an i32 of both functions of one name |
  {"imports":{"h":{"p":{"rest":{"do":[{"write":{"arg":1},"bytes":""}]}}}}}
  => taken
- an argument that is an i32 of the second one alone |
  {"imports":{"h":{"p":{"rest":{"do":[{"write":{"arg":0},"bytes":""}]}}}}}
  => script: type p
- a value of the first of two functions of one name | {"imports":{"h":{"r":{"rest":{"return":{"i32":0}}}}}}
  => script: type r
- a value of the second one | {"imports":{"h":{"r":{"rest":{"return":{"i64":0}}}}}} => script: type r
- no value of either | {"imports":{"h":{"r":{"rest":{}}}}} => script: type r
- a trap of either | {"imports":{"h":{"r":{"rest":{"trap":true}}}}} => taken
"#;

#[test]
fn responses_and_addresses(rt: HostRuntime) -> Result<(), Fail> {
    assert_eq!(rt; check_table(rt.alloc(), EVERY_KIND, ROWS)?, 41);
    Ok(())
}
