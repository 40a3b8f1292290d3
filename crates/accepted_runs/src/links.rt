// The instantiation of an accepted module under a script.

ghost use Rattle.std.specs.Prelude.{◌≡◌, ◌⊎◌, Ok, Err, IfErr, IfOk};
ghost use Rattle.wasm_syntax.specs.declared.modules.Module.{Module};
ghost use Rattle.wasm_syntax.specs.Profile.{IsSupported};
ghost use Rattle.host_script.specs.declared.scripts.LinkFault.TheVariants.{Memory as NoMemoryLeft};
ghost use Rattle.host_script.specs.declared.scripts.Script as scripts;
ghost use Rattle.host_script.specs.declared.scripts.Supply.{Supply as Supplied};
ghost use Rattle.host_script.specs.Fits.{Fits};
ghost use Rattle.history_spec.specs.Run.{run_start, start_in_store};
ghost use Rattle.history_spec.specs.Store.{Store as StoreValue};
ghost use Rattle.type_safety.specs.Stores.{IsStore};
ghost use Rattle.type_safety.specs.Supplies.{HasBytes};
ghost use Rattle.r3_faults.specs.declared.faults.Fault.TheVariants.{Memory};
ghost use Rattle.accepted_runs.specs.Linked.{IsLinked};
ghost use Rattle.accepted_runs.specs.Unlinked.{IsUnlinkedFor};

use host_link::{LinkFault, link_with_supply, linked_supply};
use host_script::{Script, Supply};
use r3_faults::Fault;
use std::alloc::Global;
use wasm_store::Store;
use wasm_validate::Checked;

/// The store that the run of a module under a script that fits it starts with.
///
/// # Errors
///
/// As for `supply_and_store`.
pub fn start_store(alloc: Global, checked: &Checked, script: &Script) -> Result<Store, Fault>
    requires supported { IsSupported checked.now }
    requires fits { Fits checked.now script.now }
    ensures linked { IfOk result (λ store. (supply : Supplied) × IsLinked checked.now script.now supply store) }
    ensures typed { IfOk result (λ store. HasBytes checked.now → IsStore checked.now store) }
    ensures opened { IfOk result (λ store.
        run_start checked.now script.now ≡ Ok (start_in_store checked.now script.now store)) }
    ensures cause { IfErr result (λ fault. (fault ≡ Memory) ⊎ IsUnlinkedFor checked.now script.now fault) }
{
    let (_supply, store) = supply_and_store(alloc, checked, script)?;
    Ok(store)
}

/// What a script that fits a module supplies for its imports, and the store that the run of the one under the other
/// starts with.
///
/// # Errors
///
/// `Missing`, `Mismatch` or `Segment` if the module does not link with the script; `Memory` if
/// memory is exhausted.
pub fn supply_and_store(
    alloc: Global,
    checked: &Checked,
    script: &Script,
) -> Result<(Supply, Store), Fault>
    requires supported { IsSupported checked.now }
    requires fits { Fits checked.now script.now }
    ensures linked { IfOk result (λ opening. IsLinked checked.now script.now opening.0 opening.1) }
    ensures typed { IfOk result (λ opening. HasBytes checked.now → IsStore checked.now opening.1) }
    ensures opened { IfOk result (λ opening.
        run_start checked.now script.now ≡ Ok (start_in_store checked.now script.now opening.1)) }
    ensures cause { IfErr result (λ fault. (fault ≡ Memory) ⊎ IsUnlinkedFor checked.now script.now fault) }
{
    match link_with_supply(alloc, checked, script) {
        Ok(opening) => Ok(opening),
        Err(fault) => Err(fault_of(fault)),
    }
}

/// What a script that fits a module supplies for its imports, if the module links with the script. No store is made.
///
/// # Errors
///
/// As for `supply_and_store`.
pub fn supply_that_links(alloc: Global, checked: &Checked, script: &Script) -> Result<Supply, Fault>
    requires supported { IsSupported checked.now }
    requires fits { Fits checked.now script.now }
    ensures linked { IfOk result (λ supply. (store : StoreValue) × IsLinked checked.now script.now supply store) }
    ensures cause { IfErr result (λ fault. (fault ≡ Memory) ⊎ IsUnlinkedFor checked.now script.now fault) }
{
    match linked_supply(alloc, checked, script) {
        Ok(supply) => Ok(supply),
        Err(fault) => Err(fault_of(fault)),
    }
}

/// Why a module does not link with a script, as the fault of a call.
fn fault_of(fault: LinkFault) -> Fault
    ensures { (m : Module) (script : scripts.Script)
        → ((fault ≡ NoMemoryLeft → ⊥) → run_start m script ≡ Err fault)
        → (result ≡ Memory) ⊎ IsUnlinkedFor m script result }
{
    match fault {
        LinkFault::Missing { import } => Fault::Missing {
            import: u64::from(import),
        },
        LinkFault::Mismatch { import } => Fault::Mismatch {
            import: u64::from(import),
        },
        LinkFault::Segment { number } => Fault::Segment {
            number: u64::from(number),
        },
        LinkFault::Memory => Fault::Memory,
    }
}
