// Calls of functions by the host, and how they go on.

ghost use Rattle.std.specs.Prelude.{◌≡◌, ◌⊎◌, ◌↔◌, ◌≤◌, IsTrue, IfOk, OnErr, Ok, true, false};
ghost use Rattle.host_script.specs.Fits.{IsCallable};
ghost use Rattle.wasm_interp.specs.Calls.{AdvancesRun, InvokesRun};
ghost use Rattle.wasm_interp.specs.Walks.{FitsWeights};
ghost use Rattle.bench_machine.specs.Arguments.{are_of, is_of};
ghost use Rattle.bench_machine.specs.Positions.{IsIdle, IsPaused, IsRunning};

use crate::instances::Instance;
use base::NoMemory;
use module_index::scope::Scope;
use module_index::{is_value, same_type};
use std::alloc::Global;
use wasm_flat::Meter;
use wasm_interp::{Pause, calls_are_ready, hosts_go_on};
use wasm_syntax::{Val, ValType};

/// Whether a value is of a type, which is a number type, and in range.
fn is_of(ty: ValType, value: Val) -> bool
    ensures { result ≡ is_of ty value }
{
    same_type(ty, value.ty) && is_value(value)
}

/// Whether values are of these types, each of its own.
fn are_of(types: &[ValType], values: &[Val]) -> bool
    ensures { result ≡ are_of types.now values.now }
{
    if types.len() != values.len() {
        return false;
    }
    'types: for at in 0..types.len() {
        if !is_of(types[at], values[at]) {
            return false;
        }
    }
    true
}

/// Whether a function is a defined one, and takes these arguments.
fn is_callable(scope: &Scope, func: u32, args: &[Val]) -> bool
    ensures { IsTrue result ↔ IsCallable scope.now func args.now }
{
    if (func as usize) < scope.imported_funcs() {
        return false;
    }
    match scope.func_type(func) {
        Some(ty) => are_of(ty.params.as_slice(), args),
        None => false,
    }
}

impl Instance {
    /// Calls a function, if it is a defined one and takes these arguments; else nothing is
    /// changed. Control is with the module then. Returns are left to `settle`.
    ///
    /// # Errors
    ///
    /// Memory runs out; the machine may be broken then.
    pub fn call(&mut self, alloc: Global, func: u32, args: &[Val]) -> Result<bool, NoMemory>
        requires { IsIdle self.old.«module» self.old.machine }
        ensures callable { IfOk result (λ called. IsTrue called ↔ IsCallable self.old.«module» func args.now) }
        ensures run { result ≡ Ok true → InvokesRun self.old.machine func args.now self.new.machine }
        ensures running { result ≡ Ok true → IsRunning self.new.«module» self.new.machine }
        ensures unchanged { result ≡ Ok false → self.new ≡ self.old }
        ensures err { OnErr result ((self.new ≡ self.old) ⊎ (self.new.machine.broken ≡ true)) }
        ensures same { self.new.«module» ≡ self.old.«module» }
    {
        calls_are_ready();
        hosts_go_on();
        let scope = Scope::of(alloc, &self.module)?;
        if !is_callable(&scope, func, args) {
            return Ok(false);
        }
        self.machine.invoke(func, args)?;
        Ok(true)
    }

    /// Goes on until the machine pauses, for at most the given number of turns; returns the pause, and how
    /// many turns are left.
    ///
    /// # Errors
    ///
    /// Memory runs out; the machine is broken then.
    pub fn advance(&mut self, meter: &Meter, turns: u64) -> Result<(Pause, u64), NoMemory>
        requires running { IsRunning self.old.«module» self.old.machine }
        requires weights { FitsWeights self.old.machine.flat meter.now }
        ensures run { IfOk result (λ ran. AdvancesRun self.old.machine meter.now turns ran.0 ran.1 self.new.machine) }
        ensures paused { IfOk result (λ ran. IsPaused self.new.«module» ran.0 self.new.machine) }
        ensures within { IfOk result (λ ran. ran.1 ≤ turns) }
        ensures err { OnErr result (self.new.machine.broken ≡ true) }
        ensures same { self.new.«module» ≡ self.old.«module» }
    {
        calls_are_ready();
        let mut left = turns;
        let pause = self.machine.advance(meter, &mut left)?;
        Ok((pause, left))
    }
}
