// Readers of the locals of functions (Core 1.0, 5.5.13).

ghost use Rattle.std.specs.Prelude.{◌≡◌, ◌+◌, ◌<◌, ◌≤◌, ◌^◌, List, ◌∷◌, ◌++◌, sum_by, nat_lt, IfOk};
ghost use Rattle.wasm_syntax.specs.Encoding.Readers.{first_run, first_locals, runs_of};
ghost use Rattle.wasm_syntax.specs.declared.modules.Run.{Run};
ghost use Rattle.leb_bytes.specs.ReadResults.{Gives};

use crate::types::first_val_type;
use crate::values::{Read, first_u32};
use crate::vectors::first_vector;
use base::NoMemory;
use leb_bytes::Unread;
use std::alloc::Global;
use wasm_syntax::{Form, Run, Runs, ValType};

/// A run of locals of one type.
#[tactic(auto, unfolding(wasm_syntax::specs::Encoding::Readers::first_run))]
pub(crate) fn first_run(bytes: &[u8]) -> Read<'_, Run>
    ensures { Gives (λ read. (read.0, read.1.now)) result (first_run bytes.now) }
{
    let (count, rest) = first_u32(bytes)?;
    let (ty, rest) = first_val_type(rest)?;
    Ok((Run { count, ty }, rest))
}

/// The locals of a function, fewer than 2^32, in runs without empty ones and with neighbours of
/// one type joined.
#[tactic(auto, unfolding(wasm_syntax::specs::Encoding::Readers::first_locals))]
pub(crate) fn first_locals(alloc: Global, form: Form, bytes: &[u8]) -> Read<'_, Runs>
    ensures { Gives (λ read. (read.0, read.1.now)) result (first_locals bytes.now) }
{
    let (written, rest) = first_vector::<Run>(alloc, form, bytes)?;
    if !are_few(written.as_slice()) {
        return Err(Unread::NotThere);
    }
    Ok((runs_of(alloc, written.as_slice())?, rest))
}

/// Whether the runs have fewer than 2^32 locals.
fn are_few(runs: &[Run]) -> bool
    ensures { result ≡ nat_lt (sum_by (λ run. run.count) runs.now) (2 ^ 32) }
{
    let mut total: u32 = 0;
    for run in runs {
        match total.checked_add(run.count) {
            Some(more) => total = more,
            None => return false,
        }
    }
    true
}

/// The runs without empty ones, and neighbours of one type joined.
fn runs_of(alloc: Global, written: &[Run]) -> Result<Runs, NoMemory>
    requires { sum_by (λ run. run.count) written.now < 2 ^ 32 }
    ensures { IfOk result (λ runs. runs ≡ runs_of written.now) }
{
    let mut runs = Vec::new(alloc);
    // The run that may still grow; an empty one before the first.
    let mut last = Run {
        count: 0,
        ty: ValType::I32,
    };
    for run in written {
        last = join_runs(&mut runs, last, *run)?;
    }
    if last.count > 0 {
        runs.push(last)?;
    }
    Ok(Runs::from_vec(runs))
}

/// The run that may still grow once another one comes; if that one cannot be joined, the last one
/// is put after the runs.
fn join_runs(runs: &mut Vec<Run>, last: Run, run: Run) -> Result<Run, NoMemory>
    requires { last.count + run.count < 2 ^ 32 }
    ensures same { IfOk result (λ next. (rest : List Run) →
        runs.new.items ++ runs_of (next ∷ rest) ≡ runs.old.items ++ runs_of (last ∷ run ∷ rest)) }
    ensures few { IfOk result (λ next. next.count ≤ last.count + run.count) }
{
    if run.count == 0 {
        return Ok(last);
    }
    if last.count == 0 {
        return Ok(run);
    }
    if last.ty == run.ty {
        return Ok(Run {
            count: last.count + run.count,
            ty: run.ty,
        });
    }
    runs.push(last)?;
    Ok(run)
}
