// Instances of modules.

ghost use Rattle.std.specs.Prelude.{◌≡◌, ◌≤◌, [], IfErr, IfOk, false, length};
ghost use Rattle.wasm_syntax.specs.Profile.{IsSupported};
ghost use Rattle.wasm_flat.specs.FlatCode.{flat_of};
ghost use Rattle.wasm_flat.specs.Sizes.{IsShort};
ghost use Rattle.host_script.specs.Fits.{Fits};
ghost use Rattle.type_safety.specs.Stores.{IsStore};
ghost use Rattle.wasm_interp.specs.State.{state};
ghost use Rattle.wasm_syntax.specs.declared.limits.TheConstants.{MAX_FILE_BYTES};
ghost use Rattle.bench_machine.specs.declared.instances.MachineFault.TheVariants as machine;
ghost use Rattle.bench_machine.specs.Instances.{HasCause, IsInstance};
ghost use Rattle.bench_machine.specs.Positions.{IsIdle};

use base::NoMemory;
use flat_steps::stores_fit;
use host_link::{LinkFault, link};
use host_script::Script;
use r3_faults::Fault;
use r3_inputs::{module_of, script_of};
use std::alloc::Global;
use thiserror::Error;
use type_safety::typed_code;
use wasm_flatten::flatten;
use wasm_interp::{Machine, hosts_go_on};
use wasm_store::Store;
use wasm_syntax::Module;
use wasm_validate::Checked;

/// An instance: a module and its machine.
#[derive(Drop)]
pub struct Instance {
    pub module: Module,
    pub machine: Machine,
}

/// Why there is no instance. Each variant may also come if memory runs out.
#[derive(Debug, Drop, Error)]
pub enum MachineFault {
    #[error("the module or the script is refused")]
    Input { fault: Fault },
    #[error("the module does not link with the script")]
    Link { fault: LinkFault },
    #[error("out of memory")]
    Memory,
}

impl From<Fault> for MachineFault {
    ghost from_gives = { λ fault made. made ≡ machine.Input fault };

    fn from(fault: Fault) -> MachineFault {
        MachineFault::Input { fault }
    }
}

impl From<LinkFault> for MachineFault {
    ghost from_gives = { λ fault made. made ≡ machine.Link fault };

    fn from(fault: LinkFault) -> MachineFault {
        MachineFault::Link { fault }
    }
}

impl From<NoMemory> for MachineFault {
    ghost from_gives = { λ _ made. made ≡ machine.Memory };

    fn from(_refused: NoMemory) -> MachineFault {
        MachineFault::Memory
    }
}

/// The instance of a module (Core 1.0, 4.5.4) with the store that its run under a script begins with, before
/// the host's first action and before the start function is called. The module has at most `MAX_FILE_BYTES`.
///
/// # Errors
///
/// The module or the script is refused, the module does not link with the script, or memory runs out.
pub fn instance_of(alloc: Global, module: &[u8], script: &[u8]) -> Result<Instance, MachineFault>
    requires { length «module».now ≤ MAX_FILE_BYTES }
    ensures instance { IfOk result (λ instance. IsInstance «module».now script.now instance.«module» instance.machine) }
    ensures idle { IfOk result (λ instance. IsIdle instance.«module» instance.machine) }
    ensures cause { IfErr result (λ fault. HasCause «module».now script.now fault) }
{
    let checked = module_of(alloc, module)?;
    let script = script_of(alloc, script, &checked)?;
    let store = link(alloc, &checked, &script)?;
    let machine = machine_in(alloc, &checked, &script, store)?;
    Ok(Instance {
        module: checked.into_module(),
        machine,
    })
}

/// The machine of a module in a store.
fn machine_in(
    alloc: Global,
    checked: &Checked,
    script: &Script,
    store: Store,
) -> Result<Machine, NoMemory>
    requires supported { IsSupported checked.now }
    requires short { IsShort checked.now }
    requires fits { Fits checked.now script.now }
    requires typed { IsStore checked.now store }
    ensures same { IfOk result (λ machine. machine ≡ state (flat_of checked.now) store [] [] false) }
    ensures idle { IfOk result (λ machine. IsIdle checked.now machine) }
{
    typed_code();
    stores_fit();
    hosts_go_on();
    let _script = script;
    let _module = checked.module();
    let flat = flatten(alloc, checked)?;
    Machine::new(alloc, flat, store)
}
