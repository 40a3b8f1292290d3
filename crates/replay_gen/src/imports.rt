// The generated functions of all imports.

ghost use Rattle.std.specs.Prelude.{◌≡◌, ℕ, ◌++◌, ◌+◌, ◌*◌, ◌<◌, ◌^◌, OnOk, drop, length, map, take};
ghost use Rattle.replay_module_spec.specs.declared.groups.TheConstants.{GROUP_CALLS as SIZE};
ghost use Rattle.replay_module_spec.specs.Functions.{group_count, group_func, group_funcs, groups, import_funcs, original_type};
ghost use Rattle.replay_gen.specs.Pieces.{group_total};

use crate::funcs::{group_func, import_func};
use base::NoMemory;
use module_index::scope::Scope;
use replay_module_spec::GROUP_CALLS;
use std::alloc::Global;
use trace_model::Segments;
use wasm_syntax::{Func, List};

/// Appends the functions in the places of imports with these type indices, by their calls.
pub(crate) fn push_import_funcs(
    alloc: Global,
    funcs: &mut Vec<Func>,
    scope: &Scope<'_>,
    counter: u32,
    first: u32,
    types: &[u32],
    imports: &[List<Segments>],
) -> Result<(), NoMemory>
    requires few_params { (ty : ℕ) → length (original_type scope.now ty).params < 2 ^ 32 }
    requires few_globals { counter + length types.now < 2 ^ 32 }
    requires few_funcs { first + group_total types.now imports.now < 2 ^ 32 }
    ensures { OnOk result (funcs.new.items
        ≡ funcs.old.items ++ import_funcs scope.now counter first types.now imports.now) }
{
    let mut counter = counter;
    let mut first = first;
    let mut types = types;
    let mut imports = imports;
    'imports: while let Some((ty, more_types)) = types.split_first() {
        let Some((calls, more_imports)) = imports.split_first() else {
            return Ok(());
        };
        let count = group_count(calls.as_slice().len());
        funcs.push(import_func(alloc, scope, *ty, counter, first, count)?)?;
        counter += 1;
        first += count;
        types = more_types;
        imports = more_imports;
    }
    Ok(())
}

/// The number of groups that `count` calls make.
pub fn group_count(count: usize) -> u32
    requires { group_count count < 2 ^ 32 }
    ensures { result ≡ group_count count }
{
    let size = GROUP_CALLS as usize;
    (count / size + (count % size + (size - 1)) / size) as u32
}

/// Appends the functions of all groups.
pub(crate) fn push_group_funcs(
    alloc: Global,
    funcs: &mut Vec<Func>,
    scope: &Scope<'_>,
    types: &[u32],
    imports: &[List<Segments>],
) -> Result<(), NoMemory>
    requires few_types { length scope.now.types + 5 < 2 ^ 32 }
    requires few_funcs { group_total types.now imports.now < 2 ^ 32 }
    ensures { OnOk result (funcs.new.items
        ≡ funcs.old.items ++ group_funcs scope.now types.now imports.now) }
{
    let mut types = types;
    let mut imports = imports;
    'imports: while let Some((ty, more_types)) = types.split_first() {
        let Some((calls, more_imports)) = imports.split_first() else {
            return Ok(());
        };
        push_groups(alloc, funcs, scope, *ty, calls.as_slice())?;
        types = more_types;
        imports = more_imports;
    }
    Ok(())
}

/// Appends the functions of an import's groups.
fn push_groups(
    alloc: Global,
    funcs: &mut Vec<Func>,
    scope: &Scope<'_>,
    ty: u32,
    calls: &[Segments],
) -> Result<(), NoMemory>
    requires few_types { length scope.now.types + 5 < 2 ^ 32 }
    requires few_groups { group_count (length calls.now) < 2 ^ 32 }
    ensures { OnOk result (funcs.new.items
        ≡ funcs.old.items ++ map (group_func scope.now ty) (groups calls.now)) }
{
    'groups: for number in 0..group_count(calls.len()) {
        funcs.push(group_func(alloc, scope, ty, group(calls, number))?)?;
    }
    Ok(())
}

/// The group of this number.
pub fn group<T>(items: &[T], number: u32) -> &[T]
    requires { number < group_count (length items.now) }
    ensures group { result.now ≡ take SIZE (drop (SIZE * number) items.now) }
    ensures few { length result.now < 2 ^ 32 }
{
    let size = GROUP_CALLS as usize;
    let rest = &items[size * number as usize..];
    &rest[..size.min(rest.len())]
}
