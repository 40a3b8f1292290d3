// The start of a run.

ghost use Rattle.std.specs.Prelude.{◌≡◌, [], ◌∷◌, replicate, IfOk, false};
ghost use Rattle.wasm_flat.specs.Bounds.{IsBound};
ghost use Rattle.flat_steps.specs.Bounds.{FitsCode};
ghost use Rattle.wasm_interp.specs.State.{state};
ghost use Rattle.host_play.specs.Starts.{CanBegin, CanStart, LeadsFirst, Starts, functions_in};

use crate::actions::call;
use crate::host_steps::HostStep;
use crate::play_state::{Host, Hosts, PlayState};
use crate::script_runs::Play;
use crate::scripted_host::ScriptedHost;
use base::NoMemory;
use flat_steps::stores_fit;
use host_actions::Functions;
use std::alloc::Global;
use type_safety::typed_code;
use wasm_flat::Flat;
use wasm_interp::{Machine, calls_are_ready, hosts_go_on};
use wasm_store::Store;
use wasm_syntax::{Indices, List};

/// A machine for a module's flat code with the host on top, and what the host does first, from the store that the
/// module's run starts with.
///
/// # Errors
///
/// If memory is exhausted.
pub(crate) fn start(
    alloc: Global,
    play: Play,
    script: &ScriptedHost<'_>,
) -> Result<(PlayState, HostStep), NoMemory>
    requires { CanBegin play script.now }
    ensures { IfOk result (λ started. LeadsFirst play.entry.code.now script.now play.entry.store started.1 started.0) }
{
    typed_code();
    stores_fit();
    hosts_go_on();
    calls_are_ready();
    let _script = script;
    let first = play.code.start;
    let Play { flat, store, .. } = play;
    let playing = new_play_state(alloc, flat, store)?;
    with_first_step(alloc, playing, first)
}

/// A run under way with what the host does first.
fn with_first_step(
    alloc: Global,
    playing: PlayState,
    start: Option<u32>,
) -> Result<(PlayState, HostStep), NoMemory>
    requires { CanStart playing start }
    ensures { IfOk result (λ started. Starts start playing started.1 started.0) }
{
    let mut playing = playing;
    let host_step = first_step(alloc, &mut playing, start)?;
    Ok((playing, host_step))
}

/// What the host does first: its own work, or the call of the start function if the module
/// defines it.
fn first_step(
    alloc: Global,
    playing: &mut PlayState,
    start: Option<u32>,
) -> Result<HostStep, NoMemory>
    requires { CanStart playing.old start }
    ensures { IfOk result (λ host_step. Starts start playing.old host_step playing.new) }
{
    match start {
        Some(func) if func >= playing.functions.imported => {
            let args = List::new(alloc);
            call(&mut playing.machine, func, &args)?;
            Ok(HostStep::Calls { func, args })
        }
        _ => Ok(HostStep::Stays),
    }
}

/// A machine for flat code, and the host before its first action.
fn new_play_state(alloc: Global, flat: Flat, store: Store) -> Result<PlayState, NoMemory>
    requires bound { IsBound flat }
    requires fits { FitsCode flat store }
    ensures machine { IfOk result (λ playing. playing.machine ≡ state flat store [] [] false) }
    ensures functions { IfOk result (λ playing. playing.functions ≡ functions_in flat) }
    ensures hosts { IfOk result (λ playing. playing.hosts ≡ Host.Main 0 ∷ []) }
    ensures counts { IfOk result (λ playing. playing.counts.items ≡ replicate flat.imported 0) }
{
    let functions = functions_of(alloc, &flat)?;
    with_functions(alloc, flat, store, functions)
}

/// The machine and the host before its first action, beside the module's functions.
fn with_functions(
    alloc: Global,
    flat: Flat,
    store: Store,
    functions: Functions,
) -> Result<PlayState, NoMemory>
    requires bound { IsBound flat }
    requires fits { FitsCode flat store }
    ensures machine { IfOk result (λ playing. playing.machine ≡ state flat store [] [] false) }
    ensures functions { IfOk result (λ playing. playing.functions ≡ functions) }
    ensures hosts { IfOk result (λ playing. playing.hosts ≡ Host.Main 0 ∷ []) }
    ensures counts { IfOk result (λ playing. playing.counts.items ≡ replicate flat.imported 0) }
{
    let (hosts, counts) = host_at_start(alloc, flat.imported)?;
    with_machine(alloc, flat, store, functions, hosts, counts)
}

/// The machine beside what the host has.
fn with_machine(
    alloc: Global,
    flat: Flat,
    store: Store,
    functions: Functions,
    hosts: Hosts,
    counts: Vec<u64>,
) -> Result<PlayState, NoMemory>
    requires bound { IsBound flat }
    requires fits { FitsCode flat store }
    ensures machine { IfOk result (λ playing. playing.machine ≡ state flat store [] [] false) }
    ensures functions { IfOk result (λ playing. playing.functions ≡ functions) }
    ensures hosts { IfOk result (λ playing. playing.hosts ≡ hosts) }
    ensures counts { IfOk result (λ playing. playing.counts.items ≡ counts.items) }
{
    let machine = Machine::new(alloc, flat, store)?;
    Ok(PlayState {
        machine,
        functions,
        hosts,
        counts,
    })
}

/// The functions that flat code declares.
fn functions_of(alloc: Global, flat: &Flat) -> Result<Functions, NoMemory>
    ensures { IfOk result (λ functions. functions ≡ functions_in flat.now) }
{
    let types = flat.types.clone()?;
    Ok(Functions {
        types,
        indices: copy_of(alloc, flat.indices.as_slice())?,
        imported: flat.imported,
    })
}

/// The host before its first action, and no call of this number of imports.
fn host_at_start(alloc: Global, imported: u32) -> Result<(Hosts, Vec<u64>), NoMemory>
    ensures hosts { IfOk result (λ start. start.0 ≡ Host.Main 0 ∷ []) }
    ensures counts { IfOk result (λ start. start.1.items ≡ replicate imported 0) }
{
    let hosts = Hosts::new(alloc)?;
    let mut counts = Vec::new(alloc);
    counts.resize(imported as usize, 0)?;
    Ok((hosts, counts))
}

fn copy_of(alloc: Global, indices: &[u32]) -> Result<Indices, NoMemory>
    ensures { IfOk result (λ copy. copy ≡ indices.now) }
{
    Ok(List::from_vec(Vec::from_slice(alloc, indices)?))
}
