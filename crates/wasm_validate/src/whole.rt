// Validation of a whole module.

ghost use Rattle.std.specs.Prelude.{◌≡◌, ℕ, ◌^◌, ◌<◌, ◌⊎◌, length, Option, IfOk};
ghost use Rattle.wasm_syntax.specs.Index.{func_indices};
ghost use Rattle.wasm_syntax.specs.Validity.{IsInvalidAt, IsValid};
ghost use Rattle.wasm_syntax.specs.ValidityTests.{invalid_at as place_of};
ghost use Rattle.wasm_validate.specs.declared.whole.InvalidFault.TheVariants.{Invalid, Memory};

use crate::checked::Checked;
use crate::funcs::first_untyped;
use crate::outside::is_valid_outside;
use base::NoMemory;
use module_index::scope::Scope;
use std::alloc::Global;
use thiserror::Error;
use wasm_syntax::{Module, validity_is_decided};

/// Why no checked module was made.
#[derive(Clone, Copy, PartialEq, Eq, Debug, Error)]
pub enum InvalidFault {
    /// The module is invalid: outside the bodies of its functions, or else in the function of this
    /// index and in no function before it.
    #[error("the module is invalid")]
    Invalid { func: Option<u32> },
    #[error("out of memory")]
    Memory,
}

/// Checks that a module is valid (Core 1.0, 3.4.10), and keeps it with that fact.
///
/// # Errors
///
/// `Invalid` if the module is not valid, and only then: `func` is None if it fails outside the bodies
/// of its functions, else the least index of a function whose body has no typing. `Memory` if an
/// allocation fails.
pub fn validate(alloc: Global, module: Module) -> Result<Checked, InvalidFault>
    requires { length (func_indices «module») < 2 ^ 32 }
    // The module is unchanged, and it is valid.
    ensures same { IfOk result (λ checked. checked ≡ «module») }
    ensures valid { IfOk result (λ _. IsValid «module») }
    // It is invalid at the place that is named.
    ensures invalid { (func : Option ℕ) → result ≡ Err (Invalid func) → IsInvalidAt «module» func }
    // Unless memory runs out, a valid module is accepted, and an invalid one is refused with its place.
    ensures taken { IsValid «module» → (result ≡ Ok «module») ⊎ (result ≡ Err Memory) }
    ensures refused { (func : Option ℕ)
        → IsInvalidAt «module» func → (result ≡ Err (Invalid func)) ⊎ (result ≡ Err Memory) }
{
    validity_is_decided();
    match invalid_at(alloc, &module) {
        Err(NoMemory) => Err(InvalidFault::Memory),
        Ok(Some(func)) => Err(InvalidFault::Invalid { func }),
        Ok(None) => Ok(Checked::new(module)),
    }
}

/// The place at which a module is invalid, if it is.
fn invalid_at(alloc: Global, module: &Module) -> Result<Option<Option<u32>>, NoMemory>
    requires { length (func_indices «module».now) < 2 ^ 32 }
    ensures { IfOk result (λ place. place ≡ place_of «module».now) }
{
    let scope = Scope::of(alloc, module)?;
    invalid_within(alloc, &scope)
}

/// The place at which the module of a scope is invalid, if it is.
fn invalid_within(alloc: Global, scope: &Scope) -> Result<Option<Option<u32>>, NoMemory>
    requires { length (func_indices scope.now) < 2 ^ 32 }
    ensures { IfOk result (λ place. place ≡ place_of scope.now) }
{
    if !is_valid_outside(alloc, scope)? {
        return Ok(Some(None));
    }
    match first_untyped(alloc, scope)? {
        None => Ok(None),
        Some(place) => Ok(Some(Some((scope.imported_funcs() + place) as u32))),
    }
}
