// The places of actions, and the addresses in actions.

ghost use Rattle.serde_json.specs.View.{view};
ghost use Rattle.script_text.specs.Walk.{Gives, under};
ghost use Rattle.script_text.specs.Actions.{address_of, argument_of, fits_address as fitting_address};
ghost use Rattle.script_text.specs.Places.{place_of};

use crate::common_types::CommonTypes;
use crate::faults::{NameFault, ScriptFault, fault_of_name};
use crate::objects::only;
use crate::paths::{below, shape};
use crate::values::{read_u32, u32_if_there, u32_under};
use host_script::Address;
use serde_json::Value;
use std::alloc::Global;

/// The place of an action: in `main`, or in a response to calls of the functions imported under two names.
/// `name` is the second name, and `types` has the types of these functions.
#[derive(Clone, Copy)]
pub(crate) struct Place<'n, 's, 'l, 't> {
    pub(crate) name: &'n str,
    pub(crate) types: Option<&'s CommonTypes<'l, 't>>,
}

/// An argument of the call that is answered, plus an offset.
fn read_argument(alloc: Global, value: &Value) -> Result<Address, ScriptFault>
    ensures { Gives (λ address. address) result (argument_of (view value.now)) }
{
    only(alloc, value, &["arg", "plus"])?;
    let number = u32_under(alloc, value, "arg")?;
    let plus = u32_if_there(alloc, value, "plus")?.unwrap_or(0);
    Ok(Address::Arg { number, plus })
}

#[tactic(auto, unfolding(crate::specs::Actions::address_of))]
fn read_address(
    alloc: Global,
    place: &Place<'_, '_, '_, '_>,
    value: &Value,
) -> Result<Address, ScriptFault>
    ensures { Gives (λ address. address) result (address_of (place_of place.now) (view value.now)) }
{
    if place.types.is_some() && value.is_object() {
        return read_argument(alloc, value);
    }
    Ok(Address::Fixed(read_u32(alloc, value)?))
}

/// The address under a required key.
pub(crate) fn address_under(
    alloc: Global,
    place: &Place<'_, '_, '_, '_>,
    object: &Value,
    key: &str,
) -> Result<Address, ScriptFault>
    ensures { Gives (λ address. address) result
        (under key.now (address_of (place_of place.now)) (view object.now)) }
{
    match object.get(key) {
        Some(value) => below(alloc, key, read_address(alloc, place, value)),
        None => Err(shape(alloc)),
    }
}

/// Tests that an argument exists and is an i32, for each of the functions that are answered.
#[tactic(auto, unfolding(crate::specs::Actions::fits_address))]
pub(crate) fn fits_address(
    alloc: Global,
    place: &Place<'_, '_, '_, '_>,
    address: Address,
) -> Result<(), ScriptFault>
    ensures { Gives (λ u. u) result (fitting_address (place_of place.now) address) }
{
    match address {
        Address::Fixed(_) => Ok(()),
        Address::Arg { number, .. } => match place.types {
            Some(types) if types.take_i32(number) => Ok(()),
            Some(_) => Err(fault_of_name(alloc, NameFault::WrongType, place.name)),
            None => Err(shape(alloc)),
        },
    }
}
