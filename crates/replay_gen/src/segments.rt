// The segments of one activation of the host.

ghost use Rattle.std.specs.Prelude.{◌≡◌, [], ◌∷◌, ◌++◌, OnOk, map, replicate};
ghost use Rattle.std.specs.Option.{option_to_list};
ghost use Rattle.wasm_syntax.specs.Index.{func_type};
ghost use Rattle.wasm_syntax.specs.declared.instructions.Instr.TheVariants.{Call, Const, Drop, Return};
ghost use Rattle.replay_module_spec.specs.Segments.{drops, segments_code};
ghost use Rattle.replay_gen.specs.Pieces.{goes_on, next_piece};

use crate::effects::push_effects;
use base::NoMemory;
use module_index::scope::Scope;
use trace_model::{Next, Segment};
use wasm_syntax::{Instr, Val};

/// Appends the segments of one activation of the host.
pub(crate) fn push_segments(
    code: &mut Vec<Instr>,
    scope: &Scope<'_>,
    segments: &[Segment],
) -> Result<(), NoMemory>
    ensures { OnOk result (code.new.items ≡ code.old.items ++ segments_code scope.now segments.now) }
{
    'segments: for segment in segments {
        push_effects(code, segment.effects.as_slice())?;
        push_next(code, scope, &segment.next)?;
        if !goes_on(&segment.next) {
            return Ok(());
        }
    }
    code.push(Instr::Unreachable)?;
    Ok(())
}

/// Whether an activation goes on later, after control left it by `next`.
fn goes_on(next: &Next) -> bool
    ensures { result ≡ goes_on next.now }
{
    matches!(next, Next::Call { .. })
}

/// Appends the code by which control leaves the host.
fn push_next(code: &mut Vec<Instr>, scope: &Scope<'_>, next: &Next) -> Result<(), NoMemory>
    ensures { OnOk result (code.new.items ≡ code.old.items ++ next_piece scope.now next.now) }
{
    match next {
        Next::Call { func, args } => push_call(code, scope, *func, args.as_slice()),
        Next::Return { result } => push_return(code, *result),
        Next::End => Ok(code.push(Instr::Return)?),
        Next::Trap => Ok(code.push(Instr::Unreachable)?),
    }
}

/// Appends the call of a function, whose results are dropped.
fn push_call(
    code: &mut Vec<Instr>,
    scope: &Scope<'_>,
    func: u32,
    args: &[Val],
) -> Result<(), NoMemory>
    ensures { OnOk result (code.new.items
        ≡ code.old.items ++ (map Const args.now ++ Call func ∷ drops (func_type scope.now func))) }
{
    push_constants(code, args)?;
    code.push(Instr::Call(func))?;
    push_drops(code, scope, func)
}

/// Appends the return of a value, if there is one.
fn push_return(code: &mut Vec<Instr>, value: Option<Val>) -> Result<(), NoMemory>
    ensures { OnOk result (code.new.items
        ≡ code.old.items ++ (map Const (option_to_list value) ++ Return ∷ [])) }
{
    push_constants(code, value.as_slice())?;
    code.push(Instr::Return)?;
    Ok(())
}

/// Appends constants.
fn push_constants(code: &mut Vec<Instr>, values: &[Val]) -> Result<(), NoMemory>
    ensures { OnOk result (code.new.items ≡ code.old.items ++ map Const values.now) }
{
    'values: for value in values {
        code.push(Instr::Const(*value))?;
    }
    Ok(())
}

/// Appends code that drops the results of a function.
fn push_drops(code: &mut Vec<Instr>, scope: &Scope<'_>, func: u32) -> Result<(), NoMemory>
    ensures { OnOk result (code.new.items ≡ code.old.items ++ drops (func_type scope.now func)) }
{
    match scope.func_type(func) {
        Some(ty) => push_drops_of(code, ty.results.as_slice().len()),
        None => Ok(()),
    }
}

/// Appends `count` drops.
fn push_drops_of(code: &mut Vec<Instr>, count: usize) -> Result<(), NoMemory>
    ensures { OnOk result (code.new.items ≡ code.old.items ++ replicate count Drop) }
{
    'count: for _ in 0..count {
        code.push(Instr::Drop)?;
    }
    Ok(())
}
