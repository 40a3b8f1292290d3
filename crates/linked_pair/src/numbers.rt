// What the indices of one module of a pair are in the linked module.

ghost use Rattle.std.specs.Prelude.{◌≡◌, option_map};
ghost use Rattle.std.specs.Option.{option_or};
ghost use Rattle.pair_spec.specs.Numbers.{number_at};
ghost use Rattle.linked_pair.specs.SideNumbers.{instance_by};

use renamed_modules::{Numbering, renamed_start};
use wasm_syntax::{Body, List};

/// What the indices of a side's module are in the linked module: the number of types before those of the side, the
/// numbers of its functions and globals, and the constant expression that names each global.
#[derive(Drop)]
pub(crate) struct SideNumbers {
    pub(crate) types: u32,
    pub(crate) funcs: Vec<u32>,
    pub(crate) globals: Vec<u32>,
    pub(crate) constants: List<Body>,
}

impl Numbering for SideNumbers {
    ghost use Rattle.linked_pair.specs.SideNumbers.{instance_by};

    ghost instance = { instance_by };

    fn ty(&self, ty: u32) -> u32 {
        self.types.saturating_add(ty)
    }

    fn func(&self, func: u32) -> u32 {
        number_at(self.funcs.as_slice(), func)
    }

    fn global(&self, global: u32) -> u32 {
        number_at(self.globals.as_slice(), global)
    }
}

/// The number in a list of an index. An index past its end has a number that nothing has.
fn number_at(numbers: &[u32], index: u32) -> u32
    ensures { result ≡ number_at numbers.now index }
{
    match numbers.get(index as usize) {
        Some(number) => *number,
        None => u32::MAX,
    }
}

/// The start function: that of the left module, or else that of the right one.
pub(crate) fn linked_start(
    left: &SideNumbers,
    left_start: Option<u32>,
    right: &SideNumbers,
    right_start: Option<u32>,
) -> Option<u32>
    ensures { result ≡ option_or (option_map (instance_by left.now).funcs left_start)
        (option_map (instance_by right.now).funcs right_start) }
{
    match left_start {
        Some(func) => Some(left.func(func)),
        None => renamed_start(right, right_start),
    }
}
