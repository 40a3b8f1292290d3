// The locals that are added to a function's own.

ghost use Rattle.std.specs.Prelude.{◌≡◌, ◌+◌, ◌^◌, ◌<◌, ◌++◌, ◌∷◌, [], All, IfOk, OnOk};
ghost use Rattle.wasm_syntax.specs.declared.modules.Run.{Run as Several};
ghost use Rattle.wasm_syntax.specs.declared.values.ValType.TheVariants.{I32};
ghost use Rattle.record_replay_spec.specs.Instrumented.{locals_of, other_locals, with_added_locals};
ghost use Rattle.hook_insert.specs.AddedLocals.{last_with_numbers, with_numbers};

use base::NoMemory;
use module_index::same_type;
use std::alloc::Global;
use wasm_syntax::{List, Run, Runs, ValType};

/// A function's locals with the added ones after them.
#[tactic(auto, using(crate::proofs::AddedLocals::added_locals))]
pub(crate) fn with_added_locals(alloc: Global, own: &[Run]) -> Result<Runs, NoMemory>
    requires { All (λ (run : Several). run.count + 2 < 2 ^ 32) own.now }
    ensures { IfOk result (λ runs. runs ≡ with_added_locals own.now) }
{
    let mut runs = Vec::new(alloc);
    push_own(&mut runs, own)?;
    push_others(&mut runs)?;
    Ok(List::from_vec(runs))
}

/// Appends the function's runs and two i32 locals.
fn push_own(runs: &mut Vec<Run>, own: &[Run]) -> Result<(), NoMemory>
    requires { All (λ (run : Several). run.count + 2 < 2 ^ 32) own.now }
    ensures { OnOk result (runs.new.items ≡ runs.old.items ++ with_numbers own.now) }
{
    match own.split_last() {
        Some((last, before)) => {
            runs.extend_from_slice(before)?;
            push_last(runs, *last)
        }
        None => push_numbers(runs),
    }
}

/// Appends the last run and two i32 locals: one run if the last run is of i32 too.
fn push_last(runs: &mut Vec<Run>, last: Run) -> Result<(), NoMemory>
    requires { last.count + 2 < 2 ^ 32 }
    ensures { OnOk result (runs.new.items ≡ runs.old.items ++ last_with_numbers last) }
{
    if same_type(last.ty, ValType::I32) {
        runs.push(locals_of(last.count + 2, ValType::I32))?;
        return Ok(());
    }
    runs.push(last)?;
    push_numbers(runs)
}

/// Appends two i32 locals.
fn push_numbers(runs: &mut Vec<Run>) -> Result<(), NoMemory>
    ensures { OnOk result (runs.new.items ≡ runs.old.items ++ locals_of 2 I32 ∷ []) }
{
    runs.push(locals_of(2, ValType::I32))?;
    Ok(())
}

/// Appends one local of each other type.
fn push_others(runs: &mut Vec<Run>) -> Result<(), NoMemory>
    ensures { OnOk result (runs.new.items ≡ runs.old.items ++ other_locals) }
{
    runs.push(locals_of(1, ValType::I64))?;
    runs.push(locals_of(1, ValType::F32))?;
    runs.push(locals_of(1, ValType::F64))?;
    Ok(())
}

/// A run of locals of one type.
fn locals_of(count: u32, ty: ValType) -> Run
    ensures { result ≡ locals_of count ty }
{
    Run { count, ty }
}
