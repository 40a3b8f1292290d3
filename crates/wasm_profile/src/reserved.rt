// Reserved imports.

ghost use Rattle.std.specs.Prelude.{◌≡◌, ◌<◌, slice_get};
ghost use Rattle.wasm_profile.specs.Answers.{refusal_in};
ghost use Rattle.wasm_profile.specs.Sizes.{HasShortLists};
ghost use Rattle.wasm_syntax.specs.Profile.{reserved_imports};

use crate::faults::ProfileFault;
use wasm_syntax::Module;

/// Refuses the first import that only an instrumented module may have.
pub(crate) fn refuse_reserved(module: &Module, hooked: bool) -> Result<(), ProfileFault>
    requires { HasShortLists «module».now }
    ensures { refusal_in result ≡ slice_get (reserved_imports hooked «module».now) 0 }
{
    if hooked {
        return Ok(());
    }
    'imports: for (place, import) in module.imports.as_slice().iter().enumerate() {
        if import.module.as_str() == "r3" {
            let import = place as u32;
            return Err(ProfileFault::Reserved { import });
        }
    }
    Ok(())
}
