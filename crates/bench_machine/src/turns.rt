// Single turns of a call.

ghost use Rattle.std.specs.Prelude.{◌≡◌, IfOk, OnErr, true};
ghost use Rattle.wasm_interp.specs.Calls.{SettlesRun, TurnIsStep};
ghost use Rattle.bench_machine.specs.Positions.{ComesBy, IsRunning, IsStanding};

use crate::instances::Instance;
use base::NoMemory;
use wasm_interp::{Turn, calls_are_ready};

impl Instance {
    /// Performs the returns that are due.
    ///
    /// # Errors
    ///
    /// Memory runs out; the machine is broken then.
    pub fn settle(&mut self) -> Result<Turn, NoMemory>
        requires { IsRunning self.old.«module» self.old.machine }
        ensures run { IfOk result (λ turn. SettlesRun self.old.machine turn self.new.machine) }
        ensures comes { IfOk result (λ turn. ComesBy self.new.«module» turn.pause self.new.machine) }
        ensures err { OnErr result (self.new.machine.broken ≡ true) }
        ensures same { self.new.«module» ≡ self.old.«module» }
    {
        calls_are_ready();
        self.machine.settle()
    }

    /// Executes an instruction, and the returns that follow.
    ///
    /// # Errors
    ///
    /// Memory runs out; the machine is broken then.
    pub fn turn(&mut self) -> Result<Turn, NoMemory>
        requires { IsStanding self.old.«module» self.old.machine }
        ensures run { IfOk result (λ turn. TurnIsStep self.old.machine turn self.new.machine) }
        ensures comes { IfOk result (λ turn. ComesBy self.new.«module» turn.pause self.new.machine) }
        ensures err { OnErr result (self.new.machine.broken ≡ true) }
        ensures same { self.new.«module» ≡ self.old.«module» }
    {
        calls_are_ready();
        self.machine.turn()
    }
}
