// Typing of bodies.

ghost use Rattle.std.specs.Prelude.{◌≡◌, IfOk};
ghost use Rattle.wasm_validate.specs.Flat.{after_step, scan, body_start};
ghost use Rattle.wasm_validate.specs.Stacks.{PassesAs};
ghost use Rattle.wasm_validate.specs.Scopes.{base_of};

use crate::func_scope::FuncScope;
use crate::stacks::{Kind, Stacks};
use base::NoMemory;
use wasm_syntax::Instr;

/// Types one more instruction.
fn step(stacks: &mut Stacks, func: &FuncScope, instr: &Instr) -> Result<bool, NoMemory>
    ensures { PassesAs result stacks.new (after_step (base_of func.now) instr.now stacks.old) }
{
    if stacks.is_closed() {
        return Ok(false);
    }
    match instr {
        Instr::Block(outcome) => stacks.open(Kind::Block, *outcome),
        Instr::Loop(outcome) => stacks.open(Kind::Loop, *outcome),
        Instr::If(outcome) => stacks.open_if(*outcome),
        Instr::Else => Ok(stacks.part()),
        Instr::End => stacks.close(),
        _ => match func.change(stacks, instr) {
            Some(change) => stacks.apply(change),
            None => Ok(false),
        },
    }
}

/// Whether a body with its own `End` is typed, in one pass.
pub(crate) fn is_typed(
    stacks: &mut Stacks,
    func: &FuncScope,
    body: &[Instr],
) -> Result<bool, NoMemory>
    ensures { IfOk result (λ typed. typed ≡ scan (base_of func.now) body.now (body_start func.now.outcome)) }
{
    stacks.begin(func.outcome)?;
    'body: for instr in body {
        if !step(stacks, func, instr)? {
            return Ok(false);
        }
    }
    Ok(stacks.is_closed())
}
