// Readers of expressions (Core 1.0, 5.4.6).

ghost use Rattle.std.specs.Prelude.{◌≢◌, [], reverse};
ghost use Rattle.wasm_syntax.specs.Encoding.Readers.{first_expr, open_after};
ghost use Rattle.leb_bytes.specs.ReadResults.{Gives};

use crate::instructions::first_instr;
use crate::values::Read;
use leb_bytes::Unread;
use std::alloc::Global;
use wasm_syntax::{Body, Form, Instr};

/// An expression: instructions up to its own `End`.
#[tactic(auto, unfolding(wasm_syntax::specs::Encoding::Readers::first_expr))]
pub(crate) fn first_expr(alloc: Global, form: Form, bytes: &[u8]) -> Read<'_, Body>
    ensures { Gives (λ read. (read.0, read.1.now)) result (first_expr form bytes.now) }
{
    let mut instrs = Vec::new(alloc);
    // Whether an `Else` may still come in an open block; the innermost block is last.
    let mut open_blocks = Vec::new(alloc);
    open_blocks.push(false)?;
    let mut rest = bytes;
    // Each instruction takes a byte at least.
    for _ in 0..bytes.len() {
        let (instr, after) = first_instr(alloc, form, rest)?;
        follow(&mut open_blocks, &instr)?;
        instrs.push(instr)?;
        rest = after;
        if open_blocks.is_empty() {
            return Ok((Body::from_vec(instrs), rest));
        }
    }
    Err(Unread::NotThere)
}

/// Changes the open blocks to those after an instruction.
fn follow(open_blocks: &mut Vec<bool>, instr: &Instr) -> Result<(), Unread>
    requires { [] ≢ reverse open_blocks.old.items }
    ensures { Gives (λ _. reverse open_blocks.new.items) result
        (open_after instr.now (reverse open_blocks.old.items)) }
{
    match instr {
        Instr::Block(_) | Instr::Loop(_) => open_blocks.push(false)?,
        Instr::If(_) => open_blocks.push(true)?,
        Instr::Else => {
            if open_blocks.pop() != Some(true) {
                return Err(Unread::NotThere);
            }
            open_blocks.push(false)?;
        }
        Instr::End => {
            let _ = open_blocks.pop();
        }
        _ => {}
    }
    Ok(())
}
