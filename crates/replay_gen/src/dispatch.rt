// Arms that a branch table leads to.

ghost use Rattle.std.specs.Prelude.{◌≡◌, [], ◌∷◌, ◌++◌, ◌<◌, ◌^◌, IfOk, OnOk, None, length, replicate};
ghost use Rattle.std.specs.List.{range_with_len};
ghost use Rattle.wasm_syntax.specs.declared.instructions.Instr.TheVariants.{Block, End, Unreachable};
ghost use Rattle.replay_gen.specs.Pieces.{dispatch_start, selector};

use crate::stores::i32_const;
use base::NoMemory;
use replay_module_spec::GROUP_CALLS;
use std::alloc::Global;
use wasm_syntax::{Instr, Labels, List};

/// The number of instructions of a selector.
const IN_SELECTOR: usize = 3;

/// The number of instructions after the last arm.
const AFTER_ARMS: usize = 3;

/// Appends the code before `count` arms: the arm is selected by a local and an operation with the size of a
/// group.
///
/// # Errors
///
/// `NoMemory` if memory is out.
pub fn push_dispatch_start(
    alloc: Global,
    code: &mut Vec<Instr>,
    local: u32,
    op: u8,
    count: u32,
) -> Result<(), NoMemory>
    ensures { OnOk result (code.new.items ≡ code.old.items ++ dispatch_start (selector local op) count) }
{
    push_blocks(code, u64::from(count) + 1)?;
    push_selector(code, local, op)?;
    code.push(Instr::BrTable(labels(alloc, count)?, count))?;
    Ok(())
}

/// Appends the beginnings of `count` blocks.
fn push_blocks(code: &mut Vec<Instr>, count: u64) -> Result<(), NoMemory>
    ensures { OnOk result (code.new.items ≡ code.old.items ++ replicate count (Block None)) }
{
    'count: for _ in 0..count {
        code.push(Instr::Block(None))?;
    }
    Ok(())
}

/// Appends the operation with a local and the size of a group.
fn push_selector(code: &mut Vec<Instr>, local: u32, op: u8) -> Result<(), NoMemory>
    ensures { OnOk result (code.new.items ≡ code.old.items ++ selector local op) }
{
    code.reserve(IN_SELECTOR)?;
    code.push_reserved(Instr::LocalGet(local));
    code.push_reserved(i32_const(u64::from(GROUP_CALLS)));
    code.push_reserved(Instr::Numeric(op));
    Ok(())
}

/// The labels below a number.
fn labels(alloc: Global, count: u32) -> Result<Labels, NoMemory>
    ensures { IfOk result (λ labels. labels ≡ range_with_len 0 count) }
{
    let mut labels = Vec::with_capacity(alloc, count as usize)?;
    'labels: for label in 0..count {
        labels.push(label)?;
    }
    Ok(List::from_vec(labels))
}

/// Appends the code after the last arm, with the end of the body.
///
/// # Errors
///
/// `NoMemory` if memory is out.
pub fn push_dispatch_end(code: &mut Vec<Instr>) -> Result<(), NoMemory>
    ensures { OnOk result (code.new.items ≡ code.old.items ++ End ∷ Unreachable ∷ End ∷ []) }
{
    code.reserve(AFTER_ARMS)?;
    code.push_reserved(Instr::End);
    code.push_reserved(Instr::Unreachable);
    code.push_reserved(Instr::End);
    Ok(())
}
