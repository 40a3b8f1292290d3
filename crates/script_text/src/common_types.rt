// What the types of several functions have in common.

ghost use Rattle.std.specs.Prelude.{◌≡◌, map, IfOk};
ghost use Rattle.std.specs.List.{list_all, range_with_len};
ghost use Rattle.script_text.specs.Actions.{takes_i32 as type_takes_i32};
ghost use Rattle.script_text.specs.Texts.{returns as type_returns};
ghost use Rattle.script_text.specs.CommonTypes.{params_of_first, value_of_types as value_of_few, HoldsFlags, HoldsReturns};

use crate::types::are_of_types;
use base::NoMemory;
use host_script::is_type;
use std::alloc::Global;
use std::marker::Model;
use wasm_syntax::{FuncType, Val, ValType};

/// The types of several functions, with what all of them have in common, so that no test goes through them one
/// by one.
#[derive(Drop)]
pub(crate) struct CommonTypes<'l, 't> {
    types: &'l [&'t FuncType],
    /// For each parameter of the first type, whether it is an i32 in all types.
    i32_flags: Vec<bool>,
    /// Whether all of them return what the first returns.
    same_returns: bool,
}

impl<'l, 't> Model for CommonTypes<'l, 't> {
    ghost use Rattle.std.specs.Prelude.{List, map};
    ghost use Rattle.wasm_syntax.specs.declared.signatures.FuncType.{FuncType};
    ghost use Rattle.script_text.specs.CommonTypes.{HoldsFlags, HoldsReturns};

    ghost Value = { List FuncType };

    ghost view = { λ common. map (λ ty. ty.now) common.types.now };

    ghost invariant = { λ common.
        HoldsFlags common.i32_flags.items (map (λ ty. ty.now) common.types.now)
        × HoldsReturns common.same_returns (map (λ ty. ty.now) common.types.now) };
}

impl<'l, 't> CommonTypes<'l, 't> {
    /// Finds what these types have in common.
    pub(crate) fn of(
        alloc: Global,
        types: &'l [&'t FuncType],
    ) -> Result<CommonTypes<'l, 't>, NoMemory>
        ensures { IfOk result (λ common. common ≡ map (λ ty. ty.now) types.now) }
    {
        let i32_flags = common_flags(alloc, types)?;
        Ok(CommonTypes {
            types,
            i32_flags,
            same_returns: return_the_same(types),
        })
    }

    /// Whether this parameter of each function is an i32.
    pub(crate) fn take_i32(&self, number: u32) -> bool
        ensures { result ≡ list_all (type_takes_i32 number) self.now }
    {
        match self.i32_flags.get(number as usize) {
            Some(flag) => *flag,
            None => self.types.is_empty(),
        }
    }

    /// Whether each of the functions returns such a value.
    pub(crate) fn return_value(&self, value: Option<Val>) -> bool
        ensures { result ≡ list_all (type_returns value) self.now }
    {
        match self.types {
            [first, ..] => self.same_returns && returns(first, value),
            [] => true,
        }
    }
}

fn takes_i32(ty: &FuncType, number: usize) -> bool
    ensures { result ≡ type_takes_i32 number ty.now }
{
    match ty.params.as_slice().get(number) {
        Some(param) => is_type(*param, ValType::I32),
        None => false,
    }
}

/// Whether this parameter is an i32 in each of these types.
fn all_take_i32(types: &[&FuncType], number: usize) -> bool
    ensures { result ≡ list_all (type_takes_i32 number) (map (λ ty. ty.now) types.now) }
{
    'types: for ty in types {
        if !takes_i32(ty, number) {
            return false;
        }
    }
    true
}

/// For each number below a count, whether the parameter of this number is an i32 in all of these types.
fn flags_up_to(alloc: Global, types: &[&FuncType], count: usize) -> Result<Vec<bool>, NoMemory>
    ensures { IfOk result (λ flags. flags.items
        ≡ map (λ number. list_all (type_takes_i32 number) (map (λ ty. ty.now) types.now)) (range_with_len 0 count)) }
{
    let mut flags = Vec::new(alloc);
    'numbers: for number in 0..count {
        flags.push(all_take_i32(types, number))?;
    }
    Ok(flags)
}

/// The number of parameters of the first of these types.
fn count_of_first(types: &[&FuncType]) -> usize
    ensures { result ≡ params_of_first (map (λ ty. ty.now) types.now) }
{
    match types {
        [first, ..] => first.params.as_slice().len(),
        [] => 0,
    }
}

/// For each parameter of the first of these types, whether it is an i32 in all of them.
fn common_flags(alloc: Global, types: &[&FuncType]) -> Result<Vec<bool>, NoMemory>
    ensures { IfOk result (λ flags. HoldsFlags flags.items (map (λ ty. ty.now) types.now)) }
{
    flags_up_to(alloc, types, count_of_first(types))
}

fn returns(ty: &FuncType, value: Option<Val>) -> bool
    ensures { result ≡ type_returns value ty.now }
{
    match value {
        Some(value) => are_of_types(&[value], ty.results.as_slice()),
        None => ty.results.as_slice().is_empty(),
    }
}

/// Whether each of these functions returns such a value.
fn all_return(types: &[&FuncType], value: Option<Val>) -> bool
    ensures { result ≡ list_all (type_returns value) (map (λ ty. ty.now) types.now) }
{
    'types: for ty in types {
        if !returns(ty, value) {
            return false;
        }
    }
    true
}

/// A value of these types, or no value if the list is empty; `None` if the list has more than one type.
fn value_of_types(types: &[ValType]) -> Option<Option<Val>>
    ensures { result ≡ value_of_few types.now }
{
    match types {
        [] => Some(None),
        [ty] => Some(Some(Val { ty: *ty, bits: 0 })),
        _ => None,
    }
}

/// Whether all of these functions return what the first returns.
fn return_the_same(types: &[&FuncType]) -> bool
    ensures { HoldsReturns result (map (λ ty. ty.now) types.now) }
{
    match types {
        [first, ..] => match value_of_types(first.results.as_slice()) {
            Some(value) => all_return(types, value),
            None => false,
        },
        [] => true,
    }
}
