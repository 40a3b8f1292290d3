// The numbers of a module's functions in a run with declared functions.

ghost use Rattle.std.specs.Prelude.{◌≡◌, ◌<◌, ◌^◌, IfOk};
ghost use Rattle.wasm_syntax.specs.Index.{imported_funcs};
ghost use Rattle.foreign_funcs.specs.Numbers.{foreign_numbers};

use base::NoMemory;
use module_index::scope::Scope;
use renamed_modules::Numbering;
use std::alloc::Global;
use wasm_syntax::Module;

/// The numbers of types, functions and globals of a module that imports `imports` functions, with `declared` functions
/// after the imports. Types and globals keep their indices.
#[derive(Clone, Copy)]
pub(crate) struct ForeignNumbers {
    pub(crate) imports: u32,
    pub(crate) declared: u32,
}

impl Numbering for ForeignNumbers {
    ghost use Rattle.foreign_funcs.specs.Numbers.{foreign_numbers};

    ghost instance = { λ numbers. foreign_numbers numbers.imports numbers.declared };

    fn ty(&self, ty: u32) -> u32 {
        ty
    }

    fn func(&self, func: u32) -> u32 {
        if func < self.imports {
            func
        } else {
            self.declared.saturating_add(func)
        }
    }

    fn global(&self, global: u32) -> u32 {
        global
    }
}

/// The number of functions that a module imports.
pub(crate) fn count_of_imports(alloc: Global, module: &Module) -> Result<u32, NoMemory>
    requires { imported_funcs «module».now < 2 ^ 32 }
    ensures { IfOk result (λ count. count ≡ imported_funcs «module».now) }
{
    let scope = Scope::of(alloc, module)?;
    Ok(scope.imported_funcs() as u32)
}
