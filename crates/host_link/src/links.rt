// Instantiation of a module with what a script supplies.

ghost use Rattle.std.specs.Prelude.{◌≡◌, None, Ok, Err, IfOk, IfErr, OnOk};
ghost use Rattle.wasm_syntax.specs.Profile.{IsSupported};
ghost use Rattle.host_script.specs.declared.scripts.LinkFault.TheVariants.{Memory as NoMemoryLeft, Segment};
ghost use Rattle.host_script.specs.Fits.{Fits};
ghost use Rattle.host_script.specs.Supply.{supply_of as supply_meant};
ghost use Rattle.history_spec.specs.Instantiation as history;
ghost use Rattle.history_spec.specs.Run.{run_start, start_in_store};
ghost use Rattle.history_spec.specs.Store.{Store as StoreValue};
ghost use Rattle.type_safety.specs.Stores.{IsStore};
ghost use Rattle.type_safety.specs.Supplies.{HasBytes};
ghost use Rattle.host_link.specs.Link.{HasLimits, link_result};

use crate::segments::{first_unfit, write_segments};
use crate::sizes::first_of;
use base::NoMemory;
use host_script::{LinkFault, Script, Supply};
use host_supply::supply_of;
use instantiation_parts::all_globals;
use std::alloc::Global;
use type_safety::typed_store;
use wasm_store::Store;
use wasm_syntax::Module;
use wasm_validate::Checked;

/// The store that the module's run under the script begins with (Core 1.0, 4.5.4). No instruction of
/// the module is refused, its quantities are within their limits, and the script fits it.
///
/// # Errors
/// `Missing` or `Mismatch` for the first import that is not supplied or does not match;
/// else `Segment` for the first segment that passes its table or memory, element segments before
/// data segments; `Memory` if an allocation failed.
pub fn link(alloc: Global, checked: &Checked, script: &Script) -> Result<Store, LinkFault>
    requires supported { IsSupported checked.now }
    requires fits { Fits checked.now script.now }
    ensures ok { IfOk result (λ store. link_result checked.now script.now ≡ Ok store) }
    ensures err { IfErr result (λ fault. (fault ≡ NoMemoryLeft → ⊥)
        → link_result checked.now script.now ≡ Err fault) }
    ensures typed { IfOk result (λ store. HasBytes checked.now → IsStore checked.now store) }
    ensures opened { IfOk result (λ store.
        run_start checked.now script.now ≡ Ok (start_in_store checked.now script.now store)) }
    ensures not_opened { IfErr result (λ fault. (fault ≡ NoMemoryLeft → ⊥)
        → run_start checked.now script.now ≡ Err fault) }
{
    let (_supply, store) = link_with_supply(alloc, checked, script)?;
    Ok(store)
}

/// The store that the run begins with, and what the script supplies for the module's imports.
///
/// # Errors
/// As for `link`.
pub fn link_with_supply(
    alloc: Global,
    checked: &Checked,
    script: &Script,
) -> Result<(Supply, Store), LinkFault>
    requires supported { IsSupported checked.now }
    requires fits { Fits checked.now script.now }
    ensures supplied { IfOk result (λ linked. supply_meant checked.now script.now ≡ Ok linked.0) }
    ensures begins { IfOk result (λ linked. history.instantiate checked.now linked.0 ≡ Ok linked.1) }
    ensures ok { IfOk result (λ linked. link_result checked.now script.now ≡ Ok linked.1) }
    ensures err { IfErr result (λ fault. (fault ≡ NoMemoryLeft → ⊥)
        → link_result checked.now script.now ≡ Err fault) }
    ensures typed { IfOk result (λ linked. HasBytes checked.now → IsStore checked.now linked.1) }
    ensures opened { IfOk result (λ linked.
        run_start checked.now script.now ≡ Ok (start_in_store checked.now script.now linked.1)) }
    ensures not_opened { IfErr result (λ fault. (fault ≡ NoMemoryLeft → ⊥)
        → run_start checked.now script.now ≡ Err fault) }
{
    typed_store();
    let module = checked.module();
    let supply = supply_of(alloc, module, script)?;
    match instantiate(alloc, module, &supply) {
        Ok(store) => Ok((supply, store)),
        Err(fault) => Err(fault),
    }
}

/// What the script supplies for the module's imports, if the module links with the script. No store is made.
///
/// # Errors
/// As for `link`.
pub fn linked_supply(alloc: Global, checked: &Checked, script: &Script) -> Result<Supply, LinkFault>
    requires supported { IsSupported checked.now }
    requires fits { Fits checked.now script.now }
    ensures supplied { IfOk result (λ supply. supply_meant checked.now script.now ≡ Ok supply) }
    ensures links { IfOk result (λ supply. (store : StoreValue)
        × (history.instantiate checked.now supply ≡ Ok store)) }
    ensures err { IfErr result (λ fault. (fault ≡ NoMemoryLeft → ⊥)
        → link_result checked.now script.now ≡ Err fault) }
    ensures not_opened { IfErr result (λ fault. (fault ≡ NoMemoryLeft → ⊥)
        → run_start checked.now script.now ≡ Err fault) }
{
    typed_store();
    let module = checked.module();
    let given = supply_of(alloc, module, script)?;
    match check_segments(module, &given) {
        Ok(()) => Ok(given),
        Err(fault) => Err(fault),
    }
}

/// The store of a module with a supply that matches its imports, or the first segment that does not
/// fit. Nothing is written before all segments are checked.
fn instantiate(alloc: Global, module: &Module, supply: &Supply) -> Result<Store, LinkFault>
    requires { HasLimits «module».now supply.now }
    ensures ok { IfOk result (λ store. history.instantiate «module».now supply.now ≡ Ok store) }
    ensures err { IfErr result (λ fault. (fault ≡ NoMemoryLeft → ⊥)
        → history.instantiate «module».now supply.now ≡ Err fault) }
{
    check_segments(module, supply)?;
    let Ok(mut store) = new_store(alloc, module, supply) else {
        return Err(LinkFault::Memory);
    };
    write_segments(&mut store, supply.globals.as_slice(), module);
    Ok(store)
}

/// Tests that all segments fit, with a supply that matches the module's imports.
fn check_segments(module: &Module, supply: &Supply) -> Result<(), LinkFault>
    requires { HasLimits «module».now supply.now }
    ensures fit { OnOk result (history.first_unfit «module».now supply.now.globals
        (history.new_store «module».now supply.now) ≡ None) }
    ensures err { IfErr result (λ fault. (fault ≡ NoMemoryLeft → ⊥)
        → history.instantiate «module».now supply.now ≡ Err fault) }
{
    match first_unfit(module, supply) {
        None => Ok(()),
        Some(place) => Err(unfit(place)),
    }
}

/// The fault of the segment at a place, which does not fit. As many segments as 32 bits cannot count
/// do not fit into memory either.
fn unfit(place: u128) -> LinkFault
    ensures { (result ≡ NoMemoryLeft → ⊥) → result ≡ Segment place }
{
    match u32::try_from(place) {
        Ok(number) => LinkFault::Segment { number },
        Err(_) => LinkFault::Memory,
    }
}

/// The store before its segments are written.
fn new_store(alloc: Global, module: &Module, supply: &Supply) -> Result<Store, NoMemory>
    requires { HasLimits «module».now supply.now }
    ensures { IfOk result (λ store. store ≡ history.new_store «module».now supply.now) }
{
    let globals = all_globals(alloc, supply.globals.as_slice(), module.globals.as_slice())?;
    let pages = first_of(supply.memory, module.memories.as_slice());
    let entries = first_of(supply.table, module.tables.as_slice());
    Store::new(alloc, pages, entries, globals)
}
