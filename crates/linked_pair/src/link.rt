// The linked module of two modules, or why they do not link.

ghost use Rattle.std.specs.Prelude.{◌≡◌, ◌⊎◌, IfErr, IfOk, None, Some};
ghost use Rattle.wasm_syntax.specs.Validity.{IsValid};
ghost use Rattle.instance_spec.specs.declared.sides.Side.TheVariants.{Left as OnLeft, Right as OnRight};
ghost use Rattle.pair_spec.specs.declared.faults.PairFault.TheVariants.{Memory};
ghost use Rattle.pair_spec.specs.Faults.{first_pair_fault};
ghost use Rattle.pair_spec.specs.Linked.{linked};
ghost use Rattle.pair_laws.specs.Laws.{AreLinkable};
ghost use Rattle.pair_ends.specs.Ends.{AreAllEnds};
ghost use Rattle.linked_pair.specs.SideNumbers.{AreNumbersOf};
ghost use Rattle.linked_pair.specs.LinkedPairs.{HaveFewIndices, IsLinkedPair, IsPairOrFault};

use crate::linked::{LinkedSide, linked_module};
use crate::numbers::SideNumbers;
use crate::pair_numbers::PairNumbers;
use base::NoMemory;
use instance_spec::Side;
use pair_ends::{LinkedModules, PairEnds, first_fault};
use pair_laws::linked_are_valid;
use pair_spec::PairFault;
use std::alloc::Global;
use wasm_syntax::{Indices, List, Module};
use wasm_validate::Checked;

/// What the indices of one module of a pair are in the linked module: the number of each of its functions and globals,
/// in order.
#[derive(Drop)]
pub struct Maps {
    pub funcs: Indices,
    pub globals: Indices,
}

/// The linked module of two modules, and what the indices of each side are in it.
#[derive(Drop)]
pub struct Pair {
    pub module: Checked,
    pub left: Maps,
    pub right: Maps,
}

/// The linked module of two modules, of which each may import what the other exports. It is valid. Both together have
/// fewer than 2^32 imports and types, and their run has fewer than 2^32 functions and globals. The modules keep their
/// memory. Takes time in the lengths of both modules, and in the number of imports and its logarithm.
///
/// # Errors
///
/// The first fault of the pair if it has one, and `Memory` if an allocation failed.
pub fn link_pair(alloc: Global, left: &Checked, right: &Checked) -> Result<Pair, PairFault>
    requires few { HaveFewIndices (record { left = left.now; right = right.now }) }
    ensures linked { IfOk result (λ made. IsLinkedPair (record { left = left.now; right = right.now }) made) }
    ensures taken { IfOk result (λ _. first_pair_fault (record { left = left.now; right = right.now }) ≡ None) }
    ensures cause { IfErr result (λ fault. (fault ≡ Memory)
        ⊎ (first_pair_fault (record { left = left.now; right = right.now }) ≡ Some fault)) }
{
    match pair_or_fault(alloc, left, right) {
        Ok(answer) => answer,
        Err(_) => Err(PairFault::Memory),
    }
}

/// The linked module of two modules, or the first fault of the pair.
fn pair_or_fault(
    alloc: Global,
    left: &Checked,
    right: &Checked,
) -> Result<Result<Pair, PairFault>, NoMemory>
    requires few { HaveFewIndices (record { left = left.now; right = right.now }) }
    ensures { IfOk result (IsPairOrFault (record { left = left.now; right = right.now })) }
{
    let first = left.module();
    let second = right.module();
    let modules = LinkedModules::of(alloc, first, second)?;
    let answer = fault_or_linked(alloc, &modules)?;
    Ok(answer)
}

/// The first fault of a pair, or its linked module.
fn fault_or_linked(
    alloc: Global,
    modules: &LinkedModules,
) -> Result<Result<Pair, PairFault>, NoMemory>
    requires left { IsValid modules.now.left }
    requires right { IsValid modules.now.right }
    requires few { HaveFewIndices modules.now }
    ensures { IfOk result (IsPairOrFault modules.now) }
{
    let ends = PairEnds::of(alloc, modules)?;
    let fault = first_fault(alloc, modules, &ends)?;
    match fault {
        Some(fault) => Ok(Err(fault)),
        None => pair_of_ends(alloc, modules, &ends),
    }
}

/// The linked module of a pair without a fault, by the ends of its chains of imports.
fn pair_of_ends(
    alloc: Global,
    modules: &LinkedModules,
    ends: &PairEnds,
) -> Result<Result<Pair, PairFault>, NoMemory>
    requires linkable { AreLinkable modules.now }
    requires few { HaveFewIndices modules.now }
    requires ends { AreAllEnds modules.now ends.now }
    ensures { IfOk result (IsPairOrFault modules.now) }
{
    // The linked module of a pair without a fault is always valid and needs no validation.
    linked_are_valid();
    let numbers = PairNumbers::of(alloc, modules, ends)?;
    let made = module_by_numbers(alloc, modules, &numbers)?;
    let PairNumbers { left, right } = numbers;
    let left = Maps::of(left);
    let right = Maps::of(right);
    Ok(Ok(Pair {
        module: Checked::new(made),
        left,
        right,
    }))
}

/// The linked module of a pair, by what the indices of both modules are in it.
fn module_by_numbers(
    alloc: Global,
    modules: &LinkedModules,
    numbers: &PairNumbers,
) -> Result<Module, NoMemory>
    requires left { AreNumbersOf modules.now OnLeft numbers.now.left }
    requires right { AreNumbersOf modules.now OnRight numbers.now.right }
    ensures { IfOk result (λ made. made ≡ linked modules.now) }
{
    let left = modules.module(Side::Left);
    let right = modules.module(Side::Right);
    let made = linked_module(
        alloc,
        &LinkedSide {
            module: left,
            numbers: &numbers.left,
        },
        &LinkedSide {
            module: right,
            numbers: &numbers.right,
        },
    )?;
    Ok(made)
}

impl Maps {
    /// The numbers of a side's functions and globals. Takes no memory.
    fn of(numbers: SideNumbers) -> Maps
        ensures { result ≡ record { funcs = numbers.funcs.items; globals = numbers.globals.items } }
    {
        let SideNumbers { funcs, globals, .. } = numbers;
        Maps {
            funcs: List::from_vec(funcs),
            globals: List::from_vec(globals),
        }
    }
}
