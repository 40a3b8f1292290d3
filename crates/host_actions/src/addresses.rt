// Where the ranges of an action begin.

ghost use Rattle.std.specs.Prelude.{◌≡◌, Some};
ghost use Rattle.history_spec.specs.Action.{address_of};
ghost use Rattle.host_actions.specs.Ready.{AreAddresses, AreThere, IsThere, OthersAreZero};

use host_script::{Action, Address};
use wasm_syntax::Val;

/// Where the ranges of an action begin, in bytes: the one that it writes, and the one that it copies.
#[derive(Clone, Copy, PartialEq, Eq, Debug)]
pub struct Addresses {
    pub to: u64,
    pub source: u64,
}

impl Addresses {
    /// The addresses of an action, given the arguments of the call that is answered; the host's own work
    /// has no arguments. Each argument that is named exists and has 32 bits. An address is 0 if the action has no
    /// such range.
    pub fn of(action: &Action, args: &[Val]) -> Addresses
        requires { AreThere args.now action.now }
        ensures addresses { AreAddresses args.now action.now result }
        ensures others { OthersAreZero action.now result }
    {
        match action {
            Action::Write { to, .. } => Addresses {
                to: address_value(*to, args),
                source: 0,
            },
            Action::Copy { to, source, .. } => Addresses {
                to: address_value(*to, args),
                source: address_value(*source, args),
            },
            _ => Addresses { to: 0, source: 0 },
        }
    }
}

/// An address, without wrapping.
fn address_value(address: Address, args: &[Val]) -> u64
    requires { IsThere args.now address }
    ensures { address_of args.now address ≡ Some result }
{
    match address {
        Address::Fixed(address) => u64::from(address),
        Address::Arg { number, plus } => args[number as usize].bits + u64::from(plus),
    }
}
