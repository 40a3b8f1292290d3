// What the indices of both modules of a pair are in the linked module.

ghost use Rattle.std.specs.Prelude.{◌≡◌, ◌<◌, ◌^◌, IfOk, length};
ghost use Rattle.instance_spec.specs.declared.sides.Side.TheVariants.{Left as OnLeft, Right as OnRight};
ghost use Rattle.pair_laws.specs.Laws.{AreLinkable};
ghost use Rattle.pair_ends.specs.Ends.{AreAllEnds};
ghost use Rattle.linked_pair.specs.SideNumbers.{AreNumbersOf, constants_in};
ghost use Rattle.linked_pair.specs.GlobalConstants.{AreGlobals};
ghost use Rattle.linked_pair.specs.LinkedPairs.{HaveFewIndices};

use crate::global_constants::global_constants;
use crate::numbers::SideNumbers;
use base::NoMemory;
use instance_spec::Side;
use pair_ends::{Ends, IndexSpace, LinkedModules, Numbers, PairEnds, numbers_in};
use std::alloc::Global;
use wasm_syntax::{Body, List, Module};

/// What the indices of both modules of a pair are in the linked module.
#[derive(Drop)]
pub(crate) struct PairNumbers {
    pub(crate) left: SideNumbers,
    pub(crate) right: SideNumbers,
}

/// The constant expressions that name the globals of both sides in the linked module.
#[derive(Drop)]
pub(crate) struct PairConstants {
    left: List<Body>,
    right: List<Body>,
}

impl PairNumbers {
    /// What the indices of both modules of a pair are in the linked module.
    pub(crate) fn of(
        alloc: Global,
        modules: &LinkedModules,
        ends: &PairEnds,
    ) -> Result<PairNumbers, NoMemory>
        requires linkable { AreLinkable modules.now }
        requires few { HaveFewIndices modules.now }
        requires ends { AreAllEnds modules.now ends.now }
        ensures left { IfOk result (λ numbers. AreNumbersOf modules.now OnLeft numbers.left) }
        ensures right { IfOk result (λ numbers. AreNumbersOf modules.now OnRight numbers.right) }
    {
        let types = type_count(modules.module(Side::Left));
        let funcs = numbers_in(alloc, modules, IndexSpace::Funcs, &ends.funcs)?;
        let globals = numbers_in(alloc, modules, IndexSpace::Globals, &ends.globals)?;
        let constants = PairConstants::of(alloc, modules, &ends.globals, &globals)?;
        let Numbers {
            left: left_funcs,
            right: right_funcs,
        } = funcs;
        let Numbers {
            left: left_globals,
            right: right_globals,
        } = globals;
        let PairConstants {
            left: left_constants,
            right: right_constants,
        } = constants;
        let left = SideNumbers {
            types: 0,
            funcs: left_funcs,
            globals: left_globals,
            constants: left_constants,
        };
        let right = SideNumbers {
            types,
            funcs: right_funcs,
            globals: right_globals,
            constants: right_constants,
        };
        Ok(PairNumbers { left, right })
    }
}

impl PairConstants {
    /// The constant expressions that name the globals of both sides in the linked module.
    fn of(
        alloc: Global,
        modules: &LinkedModules,
        ends: &Ends,
        numbers: &Numbers,
    ) -> Result<PairConstants, NoMemory>
        requires { AreGlobals modules.now ends.now numbers.now }
        ensures left { IfOk result (λ constants. constants.left ≡ constants_in modules.now OnLeft) }
        ensures right { IfOk result (λ constants. constants.right ≡ constants_in modules.now OnRight) }
    {
        let left = global_constants(alloc, modules, ends, numbers, Side::Left)?;
        let right = global_constants(alloc, modules, ends, numbers, Side::Right)?;
        Ok(PairConstants { left, right })
    }
}

/// The number of types of a module.
fn type_count(module: &Module) -> u32
    requires { length «module».now.types < 2 ^ 32 }
    ensures { result ≡ length «module».now.types }
{
    module.types.as_slice().len() as u32
}
