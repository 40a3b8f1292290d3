//! Steps one after another: hook calls, what the host does between them, and when the recorder is frozen.

ghost use Rattle.std.specs.Prelude.{◌≡◌};
ghost use Rattle.tests_recorder.specs.Modules.{nothing};

use crate::modules::module_of;
use hook_names::{Hook, HookFault, Hooks, View};
use host_script::Supply;
use recorder::Recorder;
use std::alloc::Global;
use std::test::Fail;
use trace_model::Events;
use wasm_store::Store;
use wasm_syntax::{Limits, List, Val, ValType};
use wasm_validate::validate;

/// More functions than the module has.
const MAX_FUNCS: usize = 1_000;

/// A hook call with the bits of its arguments; or the host writes bytes from an address on, grows the memory by
/// a page, or sets the first entry of the table to the last function; or the recorder is frozen.
#[derive(Clone, Copy)]
pub(crate) enum Step {
    Call(Hook, &'static [u64]),
    Write(u64, &'static [u8]),
    Grow,
    SetEntry,
    Freeze,
}

/// A supply without parts.
fn no_supply(alloc: Global) -> Supply
    ensures { result ≡ nothing }
{
    Supply {
        memory: None,
        table: None,
        globals: List::new(alloc),
    }
}

/// A recorder before any call; the original imports one function.
#[tactic(auto, using(crate::proofs::Linking::few, crate::proofs::Linking::few_globals, crate::proofs::Linking::links, crate::proofs::Linking::typed))]
pub(crate) fn new_recorder(alloc: Global) -> Result<Recorder<Events>, Fail> {
    let module = module_of(alloc)?;
    if module.funcs.as_slice().len() > MAX_FUNCS {
        return Err(Fail::from("another module"));
    }
    let Ok(checked) = validate(alloc, module) else {
        return Err(Fail::from("an invalid module"));
    };
    let supply = no_supply(alloc);
    Ok(Recorder::new(alloc, &checked, &supply, 1)?)
}

/// The store at the beginning of the module's run.
pub(crate) fn new_store(alloc: Global) -> Result<Store, Fail> {
    let memory = Limits { min: 1, max: None };
    let table = Limits { min: 2, max: None };
    Ok(Store::new(alloc, Some(memory), Some(table), Vec::new(alloc))?)
}

/// The type of a hook's parameter, by its index.
fn type_of(kind: Hook, at: usize) -> ValType {
    match kind {
        Hook::Arg | Hook::Gget | Hook::Gset if at == 1 => ValType::I64,
        Hook::Store if at == 3 => ValType::I64,
        _ => ValType::I32,
    }
}

/// Calls a hook with arguments by their bits; there are at most four.
pub(crate) fn call(
    recorder: &mut Recorder<Events>,
    store: &Store,
    kind: Hook,
    bits: &[u64],
) -> Result<(), HookFault> {
    let count = bits.len().min(4);
    let mut args = [Val {
        ty: ValType::I32,
        bits: 0,
    }; 4];
    'args: for at in 0..count {
        args[at] = Val {
            ty: type_of(kind, at),
            bits: bits[at],
        };
    }
    recorder.hook(kind, &args[..count], &View::of(store))
}

/// Takes a step.
fn take(recorder: &mut Recorder<Events>, store: &mut Store, step: Step) -> Result<(), Fail> {
    let done = match step {
        Step::Call(kind, bits) => call(recorder, store, kind, bits).is_ok(),
        Step::Write(addr, bytes) => store.put_bytes(addr, bytes).is_ok(),
        Step::Grow => store.has_memory() && store.grow(1).is_ok(),
        Step::SetEntry => store.set_entry(0, Some(16)).is_ok(),
        Step::Freeze => recorder.freeze().is_ok(),
    };
    if done {
        Ok(())
    } else {
        Err(Fail::from("a step that cannot be taken"))
    }
}

/// A recorder after steps that can all be taken.
pub(crate) fn recorder_after(alloc: Global, steps: &[Step]) -> Result<Recorder<Events>, Fail> {
    let mut recorder = new_recorder(alloc)?;
    let mut store = new_store(alloc)?;
    'steps: for step in steps {
        take(&mut recorder, &mut store, *step)?;
    }
    Ok(recorder)
}
