// The whole profile.

ghost use Rattle.std.specs.Prelude.{◌≡◌, Some, slice_get, OnOk, IfErr};
ghost use Rattle.wasm_profile.specs.Answers.{refusal_in, refusal_of};
ghost use Rattle.wasm_profile.specs.Sizes.{HasShortLists};
ghost use Rattle.wasm_syntax.specs.Profile.{IsAccepted, first_refusal, refusals};

use crate::faults::ProfileFault;
use crate::instructions::refuse_instructions;
use crate::quantities::refuse_quantities;
use crate::reserved::refuse_reserved;
use wasm_syntax::Module;
use wasm_validate::Checked;

/// Accepts a valid module if the profile does. `hooked` is true if it may be an instrumented one,
/// which has more locals and imports that are otherwise reserved. Takes no memory.
///
/// # Errors
///
/// The first of these that applies: the first refused instruction, by function and number; the
/// first quantity past its limit, in the order of parameters by type, the minimum of the table,
/// the minimum of the memory, and locals by function; the first reserved import.
pub fn accept(checked: &Checked, hooked: bool) -> Result<(), ProfileFault>
    requires { HasShortLists checked.now }
    ensures accepted { OnOk result (IsAccepted hooked checked.now) }
    ensures refused { IfErr result (λ fault.
        first_refusal hooked checked.now ≡ Some (refusal_of fault)) }
{
    refuse(checked.module(), hooked)
}

/// Refuses what is not in the profile.
#[tactic(auto, using(crate::proofs::Scans::first_after, crate::proofs::Scans::first_of_front))]
pub(crate) fn refuse(module: &Module, hooked: bool) -> Result<(), ProfileFault>
    requires { HasShortLists «module».now }
    ensures { refusal_in result ≡ slice_get (refusals hooked «module».now) 0 }
{
    refuse_instructions(module)?;
    refuse_quantities(module, hooked)?;
    refuse_reserved(module, hooked)
}
