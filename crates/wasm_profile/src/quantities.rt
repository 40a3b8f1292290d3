// Quantities past their limits.

ghost use Rattle.std.specs.Prelude.{◌≡◌, ◌<◌, ◌++◌, length, slice_get, filter_map, option_and_then};
ghost use Rattle.std.specs.List.{AllByRecursion};
ghost use Rattle.wasm_profile.specs.Answers.{refusal_in, limits_import, past_minimum};
ghost use Rattle.wasm_profile.specs.Sizes.{HasShortLists, IsShortFunc};
ghost use Rattle.wasm_syntax.specs.Index.{all_memories, all_tables, of_kind};
ghost use Rattle.wasm_syntax.specs.Profile.{count_of_locals, max_locals, past, quantities_past};
ghost use Rattle.wasm_syntax.specs.declared.limits.TheConstants.{MAX_ENTRIES, MAX_PAGES, MAX_PARAMETERS};
ghost use Rattle.wasm_syntax.specs.declared.profile.Which.TheVariants.{Parameters, Table, Memory, Locals};

use crate::faults::ProfileFault;
use wasm_syntax::limits::{MAX_ENTRIES, MAX_LOCALS, MAX_LOCALS_HOOKED, MAX_PAGES, MAX_PARAMETERS};
use wasm_syntax::{Func, FuncType, Import, ImportKind, Limits, Module, Which};

/// Refuses the first quantity past its limit.
#[tactic(auto, using(crate::proofs::Scans::first_after, crate::proofs::Scans::first_of_front))]
pub(crate) fn refuse_quantities(module: &Module, hooked: bool) -> Result<(), ProfileFault>
    requires { HasShortLists «module».now }
    ensures { refusal_in result ≡ slice_get (quantities_past hooked «module».now) 0 }
{
    refuse_parameters(module.types.as_slice())?;
    refuse_tables(module)?;
    refuse_memories(module)?;
    refuse_locals(module.funcs.as_slice(), max_locals(hooked))
}

/// Refuses the first type with too many parameters.
pub(crate) fn refuse_parameters(types: &[FuncType]) -> Result<(), ProfileFault>
    ensures { refusal_in result ≡ slice_get
        (filter_map (λ ty. past MAX_PARAMETERS Parameters (length ty.params)) types.now) 0 }
{
    'types: for ty in types {
        let count = ty.params.as_slice().len() as u64;
        refuse_past(MAX_PARAMETERS, Which::Parameters, count)?;
    }
    Ok(())
}

/// Refuses the first table that begins with too many entries, imported ones first.
fn refuse_tables(module: &Module) -> Result<(), ProfileFault>
    ensures { refusal_in result ≡ slice_get
        (filter_map (λ limits. past MAX_ENTRIES Table limits.min) (all_tables «module».now)) 0 }
{
    refuse_all(MAX_ENTRIES, Which::Table, module, module.tables.as_slice())
}

/// Refuses the first memory that begins with too many pages, imported ones first.
fn refuse_memories(module: &Module) -> Result<(), ProfileFault>
    ensures { refusal_in result ≡ slice_get
        (filter_map (λ limits. past MAX_PAGES Memory limits.min) (all_memories «module».now)) 0 }
{
    refuse_all(MAX_PAGES, Which::Memory, module, module.memories.as_slice())
}

/// Refuses the first of these quantities of tables or of memories, imported ones first.
#[tactic(auto, using(crate::proofs::Scans::picked_after, crate::proofs::Scans::picked_of_front))]
fn refuse_all(most: u32, which: Which, module: &Module, all: &[Limits]) -> Result<(), ProfileFault>
    ensures { refusal_in result ≡ slice_get
        (filter_map (past_minimum most which) (of_kind (limits_import which) «module».now.imports ++ all.now)) 0 }
{
    refuse_imports(most, which, module.imports.as_slice())?;
    refuse_limits(most, which, all)
}

/// Refuses the first of these quantities of imported tables or memories.
fn refuse_imports(most: u32, which: Which, imports: &[Import]) -> Result<(), ProfileFault>
    ensures { refusal_in result
        ≡ slice_get (filter_map (past_minimum most which) (of_kind (limits_import which) imports.now)) 0 }
{
    'imports: for import in imports {
        refuse_import(most, which, import.kind)?;
    }
    Ok(())
}

/// Refuses this quantity of an imported table or memory.
pub(crate) fn refuse_import(most: u32, which: Which, kind: ImportKind) -> Result<(), ProfileFault>
    ensures { refusal_in result ≡ option_and_then (past_minimum most which) (limits_import which kind) }
{
    match (which, kind) {
        (Which::Table, ImportKind::Table(limits)) | (Which::Memory, ImportKind::Memory(limits)) => {
            refuse_past(most, which, u64::from(limits.min))
        }
        _ => Ok(()),
    }
}

/// Refuses the first limits with too large a minimum.
fn refuse_limits(most: u32, which: Which, all: &[Limits]) -> Result<(), ProfileFault>
    ensures { refusal_in result ≡ slice_get (filter_map (past_minimum most which) all.now) 0 }
{
    'all: for limits in all {
        refuse_past(most, which, u64::from(limits.min))?;
    }
    Ok(())
}

/// Refuses the first function with too many locals.
pub(crate) fn refuse_locals(funcs: &[Func], most: u32) -> Result<(), ProfileFault>
    requires { AllByRecursion IsShortFunc funcs.now }
    ensures { refusal_in result ≡ slice_get
        (filter_map (λ func. past most Locals (count_of_locals func)) funcs.now) 0 }
{
    'funcs: for func in funcs {
        refuse_past(most, Which::Locals, count_of_locals(func))?;
    }
    Ok(())
}

/// The most locals of a function.
pub(crate) fn max_locals(hooked: bool) -> u32
    ensures { result ≡ max_locals hooked }
{
    if hooked {
        MAX_LOCALS_HOOKED
    } else {
        MAX_LOCALS
    }
}

/// The number of locals of a function, without its parameters.
fn count_of_locals(func: &Func) -> u64
    requires { IsShortFunc func.now }
    ensures { result ≡ count_of_locals func.now }
{
    let mut total: u64 = 0;
    'runs: for run in func.locals.as_slice() {
        total += u64::from(run.count);
    }
    total
}

/// Refuses a quantity that is more than the most that is allowed.
fn refuse_past(most: u32, which: Which, value: u64) -> Result<(), ProfileFault>
    ensures { refusal_in result ≡ past most which value }
{
    if value > u64::from(most) {
        Err(ProfileFault::Limit { which, value })
    } else {
        Ok(())
    }
}
