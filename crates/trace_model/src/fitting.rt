// Whether a tape fits a module.

ghost use Rattle.std.specs.Prelude.{◌≡◌, ◌++◌, [], length, slice_get, IfOk};
ghost use Rattle.std.specs.List.{list_all};
ghost use Rattle.std.specs.Option.{option_to_list};
ghost use Rattle.wasm_syntax.specs.Alike.{same_types};
ghost use Rattle.wasm_syntax.specs.Index.{all_memories, all_tables, func_type, of_kind};
ghost use Rattle.trace_model.specs.Balance.{Takes};
ghost use Rattle.trace_model.specs.Fitting.{IsFit, came, effect_fits, first_unfit, fitting_step, gives_values, grows_within, left, limits_import, names_function, takes_values, types_of, unfit_from};

use crate::ordering::are_ordered;
use crate::tapes::{Effect, Next, Origin, Segment, Tape};
use base::NoMemory;
use module_index::same_type;
use module_index::scope::Scope;
use std::alloc::Global;
use std::marker::Model;
use thiserror::Error;
use wasm_syntax::limits::{MAX_ENTRIES, MAX_PAGES, PAGE_SIZE};
use wasm_syntax::{Import, ImportKind, Limits, Module, Val, ValType};

/// Why a tape does not fit a module, or why it is not known.
#[derive(Clone, Copy, PartialEq, Eq, Debug, Error)]
pub enum TapeFault {
    /// The first segment that does not fit.
    #[error("segment {segment} does not fit")]
    Unfit { segment: u64 },
    /// Out of memory.
    #[error("out of memory")]
    Memory,
}

/// The imports whose calls are open. Contracts see the innermost first.
#[derive(Drop)]
pub(crate) struct OpenCalls {
    imports: Vec<u32>,
}

impl Model for OpenCalls {
    ghost use Rattle.std.specs.Prelude.{ℕ, List, reverse};

    ghost Value = { List ℕ };

    ghost view = { λ opened. reverse opened.imports.items };
}

impl OpenCalls {
    /// No imports. Takes no memory.
    fn new(alloc: Global) -> OpenCalls
        ensures { result ≡ [] }
    {
        OpenCalls {
            imports: Vec::new(alloc),
        }
    }

    /// Takes how control reaches the host. Returns whether that is allowed.
    fn came(&mut self, scope: &Scope<'_>, at: u64, origin: Origin) -> Result<bool, NoMemory>
        ensures { IfOk result (λ may. Takes may self.new (came scope.now at self.old origin)) }
    {
        match origin {
            Origin::Begin => Ok(at == 0),
            Origin::Import(import) => {
                if at == 0 || import as usize >= scope.imported_funcs() {
                    return Ok(false);
                }
                self.imports.push(import)?;
                Ok(true)
            }
            Origin::Back => Ok(at != 0),
        }
    }

    /// Takes how control leaves the host. Returns whether that is allowed.
    fn leave(&mut self, scope: &Scope<'_>, is_last: bool, next: &Next) -> bool
        ensures { Takes result self.new (left scope.now is_last self.old next.now) }
    {
        match next {
            Next::Call { func, args } => {
                *func as usize >= scope.imported_funcs() && takes(scope, *func, args.as_slice())
            }
            Next::Return { result } => match self.imports.pop() {
                Some(import) => gives(scope, import, *result),
                None => false,
            },
            Next::End => is_last && self.imports.is_empty(),
            Next::Trap => is_last && !self.imports.is_empty(),
        }
    }
}

/// Whether the values have the types of the function's parameters.
fn takes(scope: &Scope<'_>, func: u32, args: &[Val]) -> bool
    ensures { result ≡ takes_values (types_of args.now) (func_type scope.now func) }
{
    match scope.func_type(func) {
        Some(ty) => are_of_types(args, ty.params.as_slice()),
        None => false,
    }
}

/// Whether the value, if there is one, has the type of the function's result.
fn gives(scope: &Scope<'_>, func: u32, value: Option<Val>) -> bool
    ensures { result ≡ gives_values (types_of (option_to_list value)) (func_type scope.now func) }
{
    match scope.func_type(func) {
        Some(ty) => are_of_types(value.as_slice(), ty.results.as_slice()),
        None => false,
    }
}

/// Whether the values have these types.
fn are_of_types(values: &[Val], types: &[ValType]) -> bool
    ensures { result ≡ same_types (types_of values.now) types.now }
{
    if values.len() != types.len() {
        return false;
    }
    'values: for at in 0..values.len() {
        if !same_type(values[at].ty, types[at]) {
            return false;
        }
    }
    true
}

/// The limits of an import that is a table, or of one that is a memory.
fn imported_limits(kind: ImportKind, of_table: bool) -> Option<Limits>
    ensures { result ≡ limits_import of_table kind }
{
    match kind {
        ImportKind::Table(limits) if of_table => Some(limits),
        ImportKind::Memory(limits) if !of_table => Some(limits),
        _ => None,
    }
}

/// The limits of the first table or memory, imported or defined.
fn first_limits(imports: &[Import], defined: &[Limits], of_table: bool) -> Option<Limits>
    ensures { result ≡ slice_get (of_kind (limits_import of_table) imports.now ++ defined.now) 0 }
{
    'imports: for import in imports {
        if let Some(limits) = imported_limits(import.kind, of_table) {
            return Some(limits);
        }
    }
    defined.first().copied()
}

/// The limits of the first memory.
fn memory_limits(module: &Module) -> Option<Limits>
    ensures { result ≡ slice_get (all_memories «module».now) 0 }
{
    first_limits(module.imports.as_slice(), module.memories.as_slice(), false)
}

/// The limits of the first table.
fn table_limits(module: &Module) -> Option<Limits>
    ensures { result ≡ slice_get (all_tables «module».now) 0 }
{
    first_limits(module.imports.as_slice(), module.tables.as_slice(), true)
}

/// Whether a size is within the limit and within the maximum, if there is one.
fn grows_within(limit: u32, size: u32, limits: Option<Limits>) -> bool
    ensures { result ≡ grows_within limit size limits }
{
    match limits {
        Some(limits) => match limits.max {
            Some(most) => size <= limit && size <= most,
            None => size <= limit,
        },
        None => false,
    }
}

/// Whether an effect fits the module.
fn effect_fits(scope: &Scope<'_>, effect: &Effect) -> bool
    ensures { result ≡ effect_fits scope.now effect.now }
{
    match effect {
        Effect::Grow { pages } => grows_within(MAX_PAGES, *pages, memory_limits(scope.module())),
        Effect::Table { size } => grows_within(MAX_ENTRIES, *size, table_limits(scope.module())),
        Effect::Bytes { addr, bytes } => {
            let end = u64::from(*addr).saturating_add(bytes.as_slice().len() as u64);
            scope.has_memory(0) && end <= u64::from(MAX_PAGES) * u64::from(PAGE_SIZE)
        }
        Effect::Entry { index: _, func } => scope.has_table(0) && names_function(scope, *func),
        Effect::Global { global, value } => match scope.global(*global) {
            Some(ty) => ty.mutable && same_type(value.ty, ty.ty),
            None => false,
        },
    }
}

/// Whether the function exists, if one is named.
fn names_function(scope: &Scope<'_>, func: Option<u32>) -> bool
    ensures { result ≡ names_function scope.now func }
{
    match func {
        Some(number) => scope.has_func(number),
        None => true,
    }
}

/// Whether each effect fits the module.
fn all_fit(scope: &Scope<'_>, effects: &[Effect]) -> bool
    ensures { result ≡ list_all (effect_fits scope.now) effects.now }
{
    'effects: for effect in effects {
        if !effect_fits(scope, effect) {
            return false;
        }
    }
    true
}

/// Takes a segment. Returns whether it fits.
fn step(
    opened: &mut OpenCalls,
    scope: &Scope<'_>,
    at: u64,
    is_last: bool,
    segment: &Segment,
) -> Result<bool, NoMemory>
    ensures { IfOk result (λ may. Takes may opened.new (fitting_step scope.now at is_last opened.old segment.now)) }
{
    let came = opened.came(scope, at, segment.origin)?;
    let effects = segment.effects.as_slice();
    Ok(
        came && are_ordered(effects)
            && all_fit(scope, effects)
            && opened.leave(scope, is_last, &segment.next),
    )
}

/// Checks that all segments of a tape fit.
///
/// # Errors
/// The first segment that does not fit; `Memory` if an allocation failed.
fn segments_fit(alloc: Global, scope: &Scope<'_>, segments: &[Segment]) -> Result<(), TapeFault>
    ensures { IsFit (unfit_from scope.now (length segments.now) 0 [] segments.now) result }
{
    let mut opened = OpenCalls::new(alloc);
    'segments: for (number, segment) in segments.iter().enumerate() {
        let is_last = number + 1 == segments.len();
        let fits = step(&mut opened, scope, number as u64, is_last, segment);
        if !fits.map_err(|_| TapeFault::Memory)? {
            return Err(TapeFault::Unfit {
                segment: number as u64,
            });
        }
    }
    Ok(())
}

/// Checks whether a tape fits a module.
///
/// # Errors
/// The first segment that does not fit; `Memory` if an allocation failed.
pub fn fits(alloc: Global, tape: &Tape, module: &Module) -> Result<(), TapeFault>
    ensures { IsFit (first_unfit «module».now tape.now) result }
{
    let scope = Scope::of(alloc, module).map_err(|_| TapeFault::Memory)?;
    let segments = tape.segments.as_slice();
    if segments.is_empty() {
        return Err(TapeFault::Unfit { segment: 0 });
    }
    segments_fit(alloc, &scope, segments)
}
