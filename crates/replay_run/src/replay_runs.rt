// The run of a replay module.

ghost use Rattle.std.specs.Prelude.{◌≡◌, ◌≤◌, ◌++◌, [], IfOk, IfErr, OnOk, None, Ok, false};
ghost use Rattle.wasm_syntax.specs.declared.modules.Module as syntax;
ghost use Rattle.wasm_syntax.specs.Profile.{IsSupported};
ghost use Rattle.wasm_flat.specs.FlatCode.{flat_of};
ghost use Rattle.wasm_flat.specs.Sizes.{IsShort};
ghost use Rattle.type_safety.specs.Heights.{Heights};
ghost use Rattle.type_safety.specs.Stores.{IsStore};
ghost use Rattle.type_safety.specs.Supplies.{HasBytes};
ghost use Rattle.history_spec.specs.Instantiation as history;
ghost use Rattle.history_spec.specs.Line.{line, outcome_text};
ghost use Rattle.history_spec.specs.Replay as replays;
ghost use Rattle.wasm_interp.specs.State.{state};
ghost use Rattle.replay_form.specs.Forms.{IsReplayable};
ghost use Rattle.replay_form.specs.Sides.{as_layout};
ghost use Rattle.shown_lines.specs.ShownLines.{HasShown};
ghost use Rattle.replay_run.specs.Results.{IsReplay, RefusesForm, RefusesStore};
ghost use Rattle.replay_run.specs.RunsSoFar.{BeginsRun, EntersEntry, EntryIsNext, IsReady, RunsFrom};

use crate::calls::{CallStand, begin_call, finish_call};
use crate::results::ReplayFault;
use base::NoMemory;
use flat_steps::stores_fit;
use history_lines::print_outcome;
use history_spec::Outcome;
use host_link::{LinkFault, link};
use host_play::PrintedRun;
use host_script::Script;
use module_index::scope::Scope;
use replay_form::{Layout, entry_of, layout_of};
use replay_run_spec::projections_run_along;
use shown_lines::ShownText;
use std::alloc::Global;
use type_safety::typed_code;
use wasm_flatten::flatten;
use wasm_interp::{Machine, hosts_go_on};
use wasm_store::Store;
use wasm_syntax::{List, Module};
use wasm_validate::Checked;

/// What the run of a replay module needs of the module's form.
#[derive(Clone, Copy)]
pub(crate) struct Form {
    pub(crate) layout: Layout,
    pub(crate) entry: u32,
}

/// The form of a replay module, or the first refusal.
fn form_of(alloc: Global, module: &Module) -> Result<Form, ReplayFault>
    ensures ok { IfOk result (λ form. IsReplayable «module».now (as_layout form.layout) form.entry) }
    ensures err { IfErr result (λ found. RefusesForm «module».now found) }
{
    let scope = Scope::of(alloc, module)?;
    let Some(layout) = layout_of(alloc, module, scope.funcs().len())? else {
        return Err(ReplayFault::NoLayout);
    };
    if !module.imports.as_slice().is_empty() {
        return Err(ReplayFault::Imports);
    }
    match entry_of(&scope) {
        Some(entry) => Ok(Form { layout, entry }),
        None => Err(ReplayFault::NoEntry),
    }
}

/// A script that supplies nothing, answers nothing and does nothing.
fn empty_script(alloc: Global) -> Script
    ensures { result ≡ record { memory = None; table = None; globals = []; imports = []; main = [] } }
{
    Script {
        memory: None,
        table: None,
        globals: List::new(alloc),
        imports: List::new(alloc),
        main: List::new(alloc),
    }
}

/// The store at the beginning of the run.
fn store_of(alloc: Global, binary: &Checked) -> Result<Store, ReplayFault>
    requires supported { IsSupported binary.now }
    requires bytes { HasBytes binary.now }
    requires alone { binary.now.imports ≡ [] }
    ensures ok { IfOk result (λ store. history.instantiate binary.now replays.alone ≡ Ok store) }
    ensures typed { IfOk result (λ store. IsStore binary.now store) }
    ensures err { IfErr result (λ found. RefusesStore binary.now found) }
{
    let script = empty_script(alloc);
    match link(alloc, binary, &script) {
        Ok(store) => Ok(store),
        Err(LinkFault::Segment { number }) => Err(ReplayFault::Link { segment: number }),
        Err(LinkFault::Memory) => Err(ReplayFault::Memory),
        Err(_) => unreachable!(),
    }
}

/// The machine with that store, without activations.
fn machine_of(alloc: Global, binary: &Checked, store: Store) -> Result<Machine, NoMemory>
    requires short { IsShort binary.now }
    requires typed { IsStore binary.now store }
    ensures { IfOk result (λ machine. machine ≡ state (flat_of binary.now) store [] [] false) }
{
    stores_fit();
    let flat = flatten(alloc, binary)?;
    let machine = Machine::new(alloc, flat, store)?;
    Ok(machine)
}

/// Begins the run: with the call of the start function, if there is one.
fn begin_run(
    alloc: Global,
    shown: &mut ShownText,
    machine: &mut Machine,
    start: Option<u32>,
    _entry: u32,
) -> Result<CallStand, NoMemory>
    requires ready { (m : syntax.Module) × (heights : Heights) × IsReady m heights start _entry machine.old }
    ensures begins { IfOk result (λ stand. BeginsRun start _entry shown.old machine.old stand shown.new machine.new) }
    ensures layout { OnOk result (shown.new.layout ≡ shown.old.layout) }
{
    projections_run_along();
    let Some(func) = start else {
        return Ok(CallStand::Returned);
    };
    let stand = begin_call(alloc, shown, machine, func)?;
    Ok(stand)
}

/// Calls the entry, after the start function.
fn begin_entry(
    alloc: Global,
    shown: &mut ShownText,
    machine: &mut Machine,
    entry: u32,
) -> Result<CallStand, NoMemory>
    requires { EntryIsNext entry shown.old machine.old }
    ensures enters { IfOk result (λ stand. EntersEntry entry shown.old machine.old stand shown.new machine.new) }
    ensures layout { OnOk result (shown.new.layout ≡ shown.old.layout) }
{
    projections_run_along();
    hosts_go_on();
    let stand = begin_call(alloc, shown, machine, entry)?;
    Ok(stand)
}

/// Runs the start function, if there is one, and then the entry; returns the outcome.
fn run_calls(
    alloc: Global,
    shown: &mut ShownText,
    machine: &mut Machine,
    start: Option<u32>,
    entry: u32,
    left: &mut u64,
) -> Result<Outcome, ReplayFault>
    requires fresh { HasShown shown.old [] }
    requires ready { (m : syntax.Module) × (heights : Heights) × IsReady m heights start entry machine.old }
    ensures runs { RunsFrom start entry shown.old machine.old left.old result shown.new left.new }
    ensures left { OnOk result (left.new ≤ left.old) }
    ensures layout { OnOk result (shown.new.layout ≡ shown.old.layout) }
{
    let first = begin_run(alloc, shown, machine, start, entry)?;
    let called = match finish_call(alloc, shown, machine, first, left) {
        Ok(called) => called,
        Err(fault) => return Err(fault),
    };
    if let CallStand::Trapped { outcome } = called {
        return Ok(outcome);
    }
    let second = begin_entry(alloc, shown, machine, entry)?;
    match finish_call(alloc, shown, machine, second, left) {
        Ok(last) => match last {
            CallStand::Trapped { outcome } => Ok(outcome),
            _ => Ok(Outcome::Ended),
        },
        Err(fault) => Err(fault),
    }
}

/// The written lines with the line of the outcome, and their counts.
fn printed_replay(shown: ShownText, outcome: Outcome, turns: u64) -> Result<PrintedRun, NoMemory>
    ensures text { IfOk result (λ printed. printed.text ≡ shown.text ++ line (outcome_text outcome)) }
    ensures rest { IfOk result (λ printed.
        (printed.entries ≡ shown.entries) × (printed.turns ≡ turns) × (printed.outcome ≡ outcome)) }
{
    let entries = shown.entries();
    let mut text = shown.into_text();
    print_outcome(&mut text, outcome)?;
    Ok(PrintedRun {
        text: List::from_vec(text),
        entries,
        turns,
        outcome,
    })
}

/// What the run of a replay module shows of its original, within a number of turns: each instruction of the
/// module takes one. A start function is called before `_start`.
///
/// # Errors
///
/// The first of these that applies: `NoLayout`, `Imports`, `NoEntry`, `Link` with the first segment that does
/// not fit into its table or memory, `Spent` if the run needs more turns. `Memory` if memory is out.
pub fn replay(alloc: Global, binary: &Checked, turns: u64) -> Result<PrintedRun, ReplayFault>
    requires supported { IsSupported binary.now }
    requires short { IsShort binary.now }
    requires bytes { HasBytes binary.now }
    ensures { IsReplay binary.now turns result }
{
    typed_code();
    hosts_go_on();
    let module = binary.module();
    let form = match form_of(alloc, module) {
        Ok(form) => form,
        Err(fault) => return Err(fault),
    };
    let store = match store_of(alloc, binary) {
        Ok(store) => store,
        Err(fault) => return Err(fault),
    };
    let mut machine = machine_of(alloc, binary, store)?;
    let mut shown = ShownText::new(alloc, form.layout);
    let mut left = turns;
    match run_calls(
        alloc,
        &mut shown,
        &mut machine,
        module.start,
        form.entry,
        &mut left,
    ) {
        Ok(outcome) => {
            let printed = printed_replay(shown, outcome, turns - left)?;
            Ok(printed)
        }
        Err(fault) => Err(fault),
    }
}
