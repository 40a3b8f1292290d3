//! For tests: modules, scripts, and contents of logs and tapes, used by several test crates. Bytes are in
//! hexadecimal.
#![tactic(auto)]

ghost use Rattle.std.specs.Prelude.{◌≡◌};
ghost use Rattle.wasm_syntax.specs.EmptyModule.{empty_module};

pub mod examples;
pub mod hooked_modules;
pub mod importers;
pub mod scripts;
pub mod traces;

use std::alloc::Global;
use wasm_syntax::Module;

/// The empty module. Takes no memory.
pub fn module_without_parts(alloc: Global) -> Module
    ensures { result ≡ empty_module }
{
    Module::empty(alloc)
}
