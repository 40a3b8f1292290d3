// Scripts.

/// A script for `examples/two_answers.wat`: the import `h.f` answers 5 and 7.
pub const ANSWERS: &str =
    r#"{"imports":{"h":{"f":{"calls":[{"return":{"i32":5}},{"return":{"i32":7}}]}}},"main":[{"call":"g"}]}"#;
