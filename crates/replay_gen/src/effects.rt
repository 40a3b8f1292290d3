// The effects of a segment.

ghost use Rattle.std.specs.Prelude.{◌≡◌, ◌++◌, OnOk, flat_map};
ghost use Rattle.wasm_syntax.specs.declared.instructions.Instr.TheVariants.{Const};
ghost use Rattle.replay_module_spec.specs.Effects.{effect_code, reference_code};
ghost use Rattle.replay_module_spec.specs.Segments.{effects_code};
ghost use Rattle.trace_model.specs.declared.tapes.Effect.TheVariants.{Grow, Table, Entry, Global};

use crate::stores::{i32_const, push_stores};
use base::NoMemory;
use base::opcodes::I32_SUB;
use trace_model::Effect;
use wasm_syntax::{Instr, Val};

/// The number of instructions of a growth of the memory.
const IN_GROWTH: usize = 5;

/// The number of instructions of a growth of the table.
const IN_TABLE_GROWTH: usize = 6;

/// The number of instructions that set a table entry.
const IN_ENTRY: usize = 3;

/// The number of instructions that set a global.
const IN_GLOBAL: usize = 2;

/// Appends effects.
pub(crate) fn push_effects(code: &mut Vec<Instr>, effects: &[Effect]) -> Result<(), NoMemory>
    ensures { OnOk result (code.new.items ≡ code.old.items ++ effects_code effects.now) }
{
    'effects: for effect in effects {
        push_effect(code, effect)?;
    }
    Ok(())
}

/// Appends an effect.
fn push_effect(code: &mut Vec<Instr>, effect: &Effect) -> Result<(), NoMemory>
    ensures { OnOk result (code.new.items ≡ code.old.items ++ effect_code effect.now) }
{
    match effect {
        Effect::Grow { pages } => push_growth(code, *pages),
        Effect::Table { size } => push_table_growth(code, *size),
        Effect::Bytes { addr, bytes } => push_stores(code, *addr, bytes.as_slice()),
        Effect::Entry { index, func } => push_entry(code, *index, *func),
        Effect::Global { global, value } => push_global(code, *global, *value),
    }
}

/// Appends a growth of the memory by what it lacks of `pages` pages.
fn push_growth(code: &mut Vec<Instr>, pages: u32) -> Result<(), NoMemory>
    ensures { OnOk result (code.new.items ≡ code.old.items ++ effect_code (Grow pages)) }
{
    code.reserve(IN_GROWTH)?;
    code.push_reserved(i32_const(u64::from(pages)));
    code.push_reserved(Instr::MemorySize);
    code.push_reserved(Instr::Numeric(I32_SUB));
    code.push_reserved(Instr::MemoryGrow);
    code.push_reserved(Instr::Drop);
    Ok(())
}

/// Appends a growth of the table by what it lacks of `size` entries.
fn push_table_growth(code: &mut Vec<Instr>, size: u32) -> Result<(), NoMemory>
    ensures { OnOk result (code.new.items ≡ code.old.items ++ effect_code (Table size)) }
{
    code.reserve(IN_TABLE_GROWTH)?;
    code.push_reserved(Instr::RefNull);
    code.push_reserved(i32_const(u64::from(size)));
    code.push_reserved(Instr::TableSize(0));
    code.push_reserved(Instr::Numeric(I32_SUB));
    code.push_reserved(Instr::TableGrow(0));
    code.push_reserved(Instr::Drop);
    Ok(())
}

/// Appends code that sets the table entry of this index to a function, or empties it.
fn push_entry(code: &mut Vec<Instr>, index: u32, func: Option<u32>) -> Result<(), NoMemory>
    ensures { OnOk result (code.new.items ≡ code.old.items ++ effect_code (Entry index func)) }
{
    code.reserve(IN_ENTRY)?;
    code.push_reserved(i32_const(u64::from(index)));
    code.push_reserved(reference(func));
    code.push_reserved(Instr::TableSet(0));
    Ok(())
}

/// A reference to a function, or a null reference.
fn reference(func: Option<u32>) -> Instr
    ensures { result ≡ reference_code func }
{
    match func {
        Some(func) => Instr::RefFunc(func),
        None => Instr::RefNull,
    }
}

/// Appends code that sets a global to this value.
fn push_global(code: &mut Vec<Instr>, global: u32, value: Val) -> Result<(), NoMemory>
    ensures { OnOk result (code.new.items ≡ code.old.items ++ effect_code (Global global value)) }
{
    code.reserve(IN_GLOBAL)?;
    code.push_reserved(Instr::Const(value));
    code.push_reserved(Instr::GlobalSet(global));
    Ok(())
}
