// Two modules, of which each may import what the other exports.

ghost use Rattle.std.specs.Prelude.{◌≡◌, IfOk, option_and_then};
ghost use Rattle.module_names.specs.Names.{export_of};
ghost use Rattle.pair_spec.specs.Pairs.{exported_index, is_from_other, module_of, other_side as opposite};
ghost use Rattle.pair_ends.specs.Spaces.{space as space_of};

use crate::exports::Exports;
use crate::spaces::IndexSpace;
use base::NoMemory;
use instance_spec::Side;
use std::alloc::Global;
use std::marker::Model;
use wasm_syntax::{ExportKind, Import, Module};

/// The modules of a pair, with an index of the names of their exports. Contracts see the pair.
#[derive(Drop)]
pub struct LinkedModules<'a> {
    left: &'a Module,
    right: &'a Module,
    left_exports: Exports<'a>,
    right_exports: Exports<'a>,
}

impl<'a> Model for LinkedModules<'a> {
    ghost use Rattle.std.specs.Prelude.{◌≡◌};
    ghost use Rattle.pair_spec.specs.Pairs.{ModulePair};

    ghost Value = { ModulePair };

    ghost view = { λ pair. record { left = pair.left.now; right = pair.right.now } };

    ghost invariant = { λ pair. (pair.left_exports ≡ pair.left.now) × (pair.right_exports ≡ pair.right.now) };
}

/// The other side.
pub(crate) fn other_side(side: Side) -> Side
    ensures { result ≡ opposite side }
{
    match side {
        Side::Left => Side::Right,
        Side::Right => Side::Left,
    }
}

/// Whether an import of a side is one from the other side.
pub fn is_from_other(side: Side, import: &Import) -> bool
    ensures { result ≡ is_from_other side import.now }
{
    match side {
        Side::Left => import.module.as_str() == "right",
        Side::Right => import.module.as_str() == "left",
    }
}

impl<'a> LinkedModules<'a> {
    /// Two modules, with an index of the names of their exports.
    ///
    /// # Errors
    ///
    /// `NoMemory` if an allocation failed.
    pub fn of(
        alloc: Global,
        left: &'a Module,
        right: &'a Module,
    ) -> Result<LinkedModules<'a>, NoMemory>
        ensures { IfOk result (λ pair. pair ≡ record { left = left.now; right = right.now }) }
    {
        let left_exports = Exports::of(alloc, left)?;
        let right_exports = Exports::of(alloc, right)?;
        Ok(LinkedModules {
            left,
            right,
            left_exports,
            right_exports,
        })
    }

    /// The module on a side.
    pub fn module(&self, side: Side) -> &'a Module
        ensures { result.now ≡ module_of self.now side }
    {
        match side {
            Side::Left => self.left,
            Side::Right => self.right,
        }
    }

    /// What a side exports under a name.
    fn export(&self, side: Side, name: &str) -> Option<ExportKind>
        ensures { result ≡ export_of (module_of self.now side) name.now }
    {
        match side {
            Side::Left => self.left_exports.get(name),
            Side::Right => self.right_exports.get(name),
        }
    }

    /// The index that a side's export of a name names, if there is one and it is in a space.
    pub(crate) fn exported_index(&self, space: IndexSpace, side: Side, name: &str) -> Option<usize>
        ensures { result ≡ exported_index (space_of space) (module_of self.now side) name.now }
    {
        match self.export(side, name) {
            Some(kind) => as_usize(space.index(kind)),
            None => None,
        }
    }
}

/// An index as a place in memory.
fn as_usize(index: Option<u32>) -> Option<usize>
    ensures { result ≡ index }
{
    match index {
        Some(index) => Some(index as usize),
        None => None,
    }
}
