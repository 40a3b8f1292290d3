// All functions of a guarded module.

ghost use Rattle.std.specs.Prelude.{◌≡◌, ◌++◌, ◌+◌, ◌<◌, ◌≤◌, ◌^◌, IfOk, OnOk, drop, length, map, take};
ghost use Rattle.replay_module_spec.specs.Functions.{group_count, start_type};
ghost use Rattle.guarded_module_spec.specs.Numbers.{first_group};
ghost use Rattle.guarded_module_spec.specs.GuardedModules as spec;
ghost use Rattle.guard_maker.specs.Bounds.{HasRoom, HasSmallTypes};
ghost use Rattle.guard_maker.specs.Parts.{guarded_funcs_of, marked_fronts};

use crate::calls::{called_marks, push_redirected};
use crate::digests::push_digest;
use crate::fronts::{func_front, import_front};
use crate::own::{check_func, start_func};
use crate::words::{next_func, push_groups};
use base::NoMemory;
use guarded_module_spec::Numbers;
use std::alloc::Global;
use wasm_syntax::{Func, FuncType, List};

/// The functions of a replay module by their sides.
#[derive(Drop)]
pub(crate) struct Sides {
    pub(crate) in_places: Vec<Func>,
    pub(crate) originals: Vec<Func>,
    pub(crate) appended: Vec<Func>,
}

/// The functions of a replay module, parted by their sides.
pub(crate) fn sides_of(funcs: Vec<Func>, imports: u32, defined: u32) -> Result<Sides, NoMemory>
    requires { imports + defined ≤ length funcs.items }
    ensures in_places { IfOk result (λ sides. sides.in_places.items ≡ take imports funcs.items) }
    ensures originals { IfOk result (λ sides. sides.originals.items ≡ take defined (drop imports funcs.items)) }
    ensures appended { IfOk result (λ sides. sides.appended.items ≡ drop (imports + defined) funcs.items) }
{
    let mut in_places = funcs;
    let mut originals = in_places.split_off(imports as usize)?;
    let appended = originals.split_off(defined as usize)?;
    Ok(Sides {
        in_places,
        originals,
        appended,
    })
}

/// The type of this index, or the type without parameters and results.
fn type_in<'a>(types: &'a [FuncType], other: &'a FuncType, ty: u32) -> &'a FuncType
    requires { other.now ≡ start_type }
    ensures { result.now ≡ spec.type_in types.now ty }
{
    match types.get(ty as usize) {
        Some(ty) => ty,
        None => other,
    }
}

/// Appends the fronts of imports.
fn push_import_fronts(
    alloc: Global,
    list: &mut Vec<Func>,
    n: Numbers,
    types: &[FuncType],
    funcs: &[Func],
) -> Result<(), NoMemory>
    requires room { HasRoom n }
    requires small { HasSmallTypes types.now }
    requires few { length funcs.now < 2 ^ 32 }
    ensures { OnOk result (list.new.items ≡ list.old.items ++ spec.import_fronts types.now n funcs.now) }
{
    let other = start_type(alloc);
    let mut import = 0;
    let mut funcs = funcs;
    'fronts: while let Some((func, more)) = funcs.split_first() {
        let ty = type_in(types, &other, func.ty);
        list.push(import_front(alloc, n, ty, import, func.ty)?)?;
        import += 1;
        funcs = more;
    }
    Ok(())
}

/// The type without parameters and results. Takes no memory.
fn start_type(alloc: Global) -> FuncType
    ensures { result ≡ start_type }
{
    FuncType {
        params: List::new(alloc),
        results: List::new(alloc),
    }
}

/// Appends the fronts of originals, the first of which has the number `first`; marked ones are called from outside.
fn push_func_fronts(
    alloc: Global,
    list: &mut Vec<Func>,
    n: Numbers,
    types: &[FuncType],
    marks: &[bool],
    first: u32,
    funcs: &[Func],
) -> Result<(), NoMemory>
    requires room { HasRoom n }
    requires small { HasSmallTypes types.now }
    requires few { first + length funcs.now ≤ length marks.now }
    requires marks { length marks.now < 2 ^ 32 }
    ensures { OnOk result (list.new.items
        ≡ list.old.items ++ marked_fronts types.now n marks.now first funcs.now) }
{
    let other = start_type(alloc);
    let mut number = first;
    let mut funcs = funcs;
    'fronts: while let Some((func, more)) = funcs.split_first() {
        let called = marks[number as usize];
        let ty = type_in(types, &other, func.ty);
        list.push(func_front(alloc, called, n, ty, number, func.ty)?)?;
        number += 1;
        funcs = more;
    }
    Ok(())
}

/// Appends the functions of the guarded module's own.
fn push_own(
    alloc: Global,
    list: &mut Vec<Func>,
    n: Numbers,
    entry: u32,
    words: &[u64],
) -> Result<(), NoMemory>
    requires room { HasRoom n }
    requires few { first_group n + group_count (length words.now) < 2 ^ 32 }
    ensures { OnOk result (list.new.items ≡ list.old.items ++ spec.own_funcs n entry words.now) }
{
    list.push(start_func(alloc, n, entry)?)?;
    push_digest(alloc, list, n)?;
    list.push(check_func(alloc, n)?)?;
    list.push(next_func(alloc, n, words.len())?)?;
    push_groups(alloc, list, n, words)?;
    Ok(())
}

/// Appends the fronts of the originals, by the functions outside that call them.
fn push_fronts_called(
    alloc: Global,
    list: &mut Vec<Func>,
    n: Numbers,
    types: &[FuncType],
    sides: &Sides,
) -> Result<(), NoMemory>
    requires room { HasRoom n }
    requires small { HasSmallTypes types.now }
    requires few { n.imports + length sides.now.originals.items ≡ n.past }
    ensures { OnOk result (list.new.items ≡ list.old.items
        ++ spec.func_fronts types.now n (sides.now.in_places.items ++ sides.now.appended.items) n.imports
        sides.now.originals.items) }
{
    let first = sides.in_places.as_slice();
    let marks = called_marks(alloc, n.past, first, sides.appended.as_slice())?;
    push_func_fronts(
        alloc,
        list,
        n,
        types,
        marks.as_slice(),
        n.imports,
        sides.originals.as_slice(),
    )?;
    Ok(())
}

/// The functions of the guarded module, from those of the replay module, which are moved.
pub(crate) fn guarded_funcs(
    alloc: Global,
    n: Numbers,
    types: &[FuncType],
    sides: Sides,
    entry: u32,
    words: &[u64],
) -> Result<Vec<Func>, NoMemory>
    requires room { HasRoom n }
    requires small { HasSmallTypes types.now }
    requires imports { length sides.in_places.items ≡ n.imports }
    requires past { n.imports + length sides.originals.items ≡ n.past }
    requires few { first_group n + group_count (length words.now) < 2 ^ 32 }
    ensures { IfOk result (λ funcs. funcs.items ≡ guarded_funcs_of types.now n entry words.now
        sides.in_places.items sides.originals.items sides.appended.items) }
{
    let mut fronts = Vec::new(alloc);
    push_fronts_called(alloc, &mut fronts, n, types, &sides)?;
    push_own(alloc, &mut fronts, n, entry, words)?;
    let mut funcs = Vec::new(alloc);
    push_import_fronts(alloc, &mut funcs, n, types, sides.in_places.as_slice())?;
    with_fronts(alloc, n, funcs, sides, fronts)
}

/// The fronts of imports, with the functions of a replay module and the functions at the end behind them.
fn with_fronts(
    alloc: Global,
    n: Numbers,
    first: Vec<Func>,
    sides: Sides,
    last: Vec<Func>,
) -> Result<Vec<Func>, NoMemory>
    requires { HasRoom n }
    ensures { IfOk result (λ funcs. funcs.items ≡ first.items ++ (sides.originals.items
        ++ (map (spec.redirected n) sides.appended.items
        ++ (map (spec.redirected n) sides.in_places.items ++ last.items)))) }
{
    let Sides {
        in_places,
        originals,
        appended,
    } = sides;
    let mut funcs = first;
    let mut originals = originals;
    let mut last = last;
    funcs.append(&mut originals)?;
    push_redirected(alloc, &mut funcs, n, appended)?;
    push_redirected(alloc, &mut funcs, n, in_places)?;
    funcs.append(&mut last)?;
    Ok(funcs)
}
