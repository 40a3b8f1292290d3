// The words of a line, each after a space.

ghost use Rattle.std.specs.Prelude.{◌≡◌, ◌++◌, OnOk, OnErr};
ghost use Rattle.history_spec.specs.Line.{found_text, number_text, with_space, value_text, values_text};
ghost use Rattle.history_lines.specs.Growth.{GrewByFirstPart};

use crate::pieces::{push_number, push_value};
use base::NoMemory;
use wasm_syntax::Val;

/// Appends bytes.
///
/// # Errors
/// If an allocation failed; a first part of them may be appended then.
#[inline(always)]
pub fn put(out: &mut Vec<u8>, bytes: &[u8]) -> Result<(), NoMemory>
    ensures ok { OnOk result (out.new.items ≡ out.old.items ++ bytes.now) }
    ensures refused { OnErr result (GrewByFirstPart out.old.items out.new.items bytes.now) }
{
    out.extend_from_slice(bytes)?;
    Ok(())
}

/// Appends a number in decimal, after a space.
///
/// # Errors
/// If an allocation failed; a first part of its text may be appended then.
pub fn put_number(out: &mut Vec<u8>, number: u32) -> Result<(), NoMemory>
    ensures ok { OnOk result (out.new.items ≡ out.old.items ++ number_text number) }
    ensures refused { OnErr result
        (GrewByFirstPart out.old.items out.new.items (number_text number)) }
{
    out.reserve(11)?;
    push_number(out, number);
    Ok(())
}

/// Appends what an instruction found, if it found something.
pub(crate) fn put_found(out: &mut Vec<u8>, found: Option<u32>) -> Result<(), NoMemory>
    ensures ok { OnOk result (out.new.items ≡ out.old.items ++ found_text found) }
    ensures refused { OnErr result
        (GrewByFirstPart out.old.items out.new.items (found_text found)) }
{
    match found {
        Some(number) => {
            put(out, b" found")?;
            put_number(out, number)
        }
        None => Ok(()),
    }
}

/// Appends values, each after a space.
///
/// # Errors
/// If an allocation failed; a first part of their text may be appended then.
pub fn put_values(out: &mut Vec<u8>, values: &[Val]) -> Result<(), NoMemory>
    ensures ok { OnOk result (out.new.items ≡ out.old.items ++ values_text values.now) }
    ensures refused { OnErr result
        (GrewByFirstPart out.old.items out.new.items (values_text values.now)) }
{
    'values: for value in values {
        put_value(out, *value)?;
    }
    Ok(())
}

/// Appends a value after a space: its type, and its bits in hexadecimal.
///
/// # Errors
/// If an allocation failed; a first part of its text may be appended then.
pub fn put_value(out: &mut Vec<u8>, value: Val) -> Result<(), NoMemory>
    ensures ok { OnOk result (out.new.items ≡ out.old.items ++ with_space (value_text value)) }
    ensures refused { OnErr result
        (GrewByFirstPart out.old.items out.new.items (with_space (value_text value))) }
{
    out.reserve(25)?;
    push_value(out, value);
    Ok(())
}
