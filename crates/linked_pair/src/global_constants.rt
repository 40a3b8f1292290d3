// The constant expressions that name globals in a linked module (Core 1.0, 3.3.7).

ghost use Rattle.std.specs.Prelude.{◌≡◌, [], ◌∷◌, ◌<◌, ◌^◌, IfNone, IfOk, length};
ghost use Rattle.wasm_syntax.specs.declared.instructions.Instr.TheVariants.{End as EndOfBody, GlobalGet};
ghost use Rattle.pair_spec.specs.Pairs.{Globals, imports_in, module_of};
ghost use Rattle.pair_spec.specs.PairRuns.{init_at};
ghost use Rattle.pair_ends.specs.Types.{global_init};
ghost use Rattle.linked_pair.specs.SideNumbers.{constants_in};
ghost use Rattle.linked_pair.specs.GlobalConstants.{AreGlobalNumbers, AreGlobals, constant_of_end, constants_of_ends, numbers_on};

use base::NoMemory;
use instance_spec::Side;
use pair_ends::{End, Ends, LinkedModules, Numbers};
use std::alloc::Global;
use wasm_syntax::{Body, Instr, List, Module};

/// The constant expressions that name a side's globals in the linked module, in the order of their indices. Takes time
/// in the number of the globals.
pub(crate) fn global_constants(
    alloc: Global,
    modules: &LinkedModules,
    ends: &Ends,
    numbers: &Numbers,
    side: Side,
) -> Result<List<Body>, NoMemory>
    requires { AreGlobals modules.now ends.now numbers.now }
    ensures { IfOk result (λ list. list ≡ constants_in modules.now side) }
{
    let list = constants_of_ends(alloc, modules, ends, numbers, side)?;
    Ok(list)
}

/// The constant expressions that name a side's globals in the linked module, by the ends of their chains.
fn constants_of_ends(
    alloc: Global,
    modules: &LinkedModules,
    ends: &Ends,
    numbers: &Numbers,
    side: Side,
) -> Result<List<Body>, NoMemory>
    requires { AreGlobals modules.now ends.now numbers.now }
    ensures { IfOk result (λ list. list
        ≡ constants_of_ends modules.now ends.now side 0 (numbers_on numbers.now side)) }
{
    let own = numbers_on(numbers, side);
    let mut list = Vec::with_capacity(alloc, own.len())?;
    'indices: for (index, number) in own.iter().enumerate() {
        let constant = constant_of_end(
            alloc,
            modules,
            numbers,
            index,
            *number,
            ends.at(side, index),
        )?;
        list.push(constant)?;
    }
    Ok(List::from_vec(list))
}

/// The constant expression that names a global in the linked module, by its index, its number and the end of its chain.
fn constant_of_end(
    alloc: Global,
    modules: &LinkedModules,
    numbers: &Numbers,
    index: usize,
    number: u32,
    end: Option<End>,
) -> Result<Body, NoMemory>
    requires few { IfNone «end» (index < 2 ^ 32) }
    requires numbers { AreGlobalNumbers modules.now numbers.now }
    ensures { IfOk result (λ body. body ≡ constant_of_end modules.now index number «end») }
{
    match end {
        None => named_global(alloc, index as u32),
        Some(End::HostImport(..)) => named_global(alloc, number),
        Some(End::Defined(side, index)) => init_at(alloc, modules, numbers, side, index),
    }
}

/// The constant expression that reads a global.
fn named_global(alloc: Global, global: u32) -> Result<Body, NoMemory>
    ensures { IfOk result (λ body. body ≡ GlobalGet global ∷ EndOfBody ∷ []) }
{
    let mut body = List::new(alloc);
    body.push(Instr::GlobalGet(global))?;
    body.push(Instr::End)?;
    Ok(body)
}

/// A copy of the body with which a side's global of an index is initialised, if it is a defined one.
fn init_at(
    alloc: Global,
    modules: &LinkedModules,
    numbers: &Numbers,
    side: Side,
    index: usize,
) -> Result<Body, NoMemory>
    requires { AreGlobalNumbers modules.now numbers.now }
    ensures { IfOk result (λ body. body ≡ init_at modules.now side index) }
{
    let imported = imported_globals(modules, numbers, side);
    init_of(alloc, modules.module(side), imported, index)
}

/// A copy of the body with which the global of an index is initialised, if it is a defined one. `imported` are imports.
fn init_of(alloc: Global, module: &Module, imported: usize, index: usize) -> Result<Body, NoMemory>
    requires { imported ≡ length (imports_in Globals «module».now) }
    ensures { IfOk result (λ body. body ≡ global_init «module».now index) }
{
    match module
        .globals
        .as_slice()
        .get(index.saturating_sub(imported))
    {
        Some(global) => global.init.clone(),
        None => Ok(List::new(alloc)),
    }
}

/// The number of globals that a side imports: of its globals, all but those that it defines.
fn imported_globals(modules: &LinkedModules, numbers: &Numbers, side: Side) -> usize
    requires { AreGlobalNumbers modules.now numbers.now }
    ensures { result ≡ length (imports_in Globals (module_of modules.now side)) }
{
    numbers_on(numbers, side).len() - modules.module(side).globals.as_slice().len()
}

/// The numbers of a side.
fn numbers_on(numbers: &Numbers, side: Side) -> &[u32]
    ensures { result.now ≡ numbers_on numbers.now side }
{
    match side {
        Side::Left => numbers.left.as_slice(),
        Side::Right => numbers.right.as_slice(),
    }
}
