// Modules that are known to be valid.

ghost use Rattle.std.specs.Prelude.{◌≡◌, IfOk};
ghost use Rattle.wasm_syntax.specs.Validity.{IsValid};

use base::NoMemory;
use std::marker::Model;
use wasm_syntax::Module;

/// A valid module (Core 1.0, 3.4.10). Contracts see the module.
#[derive(Debug, Drop)]
pub struct Checked {
    module: Module,
}

impl Model for Checked {
    ghost use Rattle.wasm_syntax.specs.declared.modules.Module.{Module};
    ghost use Rattle.wasm_syntax.specs.Validity.{IsValid};

    ghost Value = { Module };

    ghost view = { λ checked. checked.module };

    ghost invariant = { λ checked. IsValid checked.module };
}

impl Checked {
    /// A module that is known to be valid, by proof and without a test. Takes no memory.
    pub fn new(module: Module) -> Checked
        requires { IsValid «module» }
        ensures { result ≡ «module» }
    {
        Checked { module }
    }

    /// The module.
    pub fn module(&self) -> &Module
        ensures same { result.now ≡ self.now }
        ensures valid { IsValid result.now }
    {
        &self.module
    }

    /// The module, given back. Takes no memory.
    pub fn into_module(self) -> Module
        ensures same { result ≡ self }
        ensures valid { IsValid result }
    {
        let Checked { module } = self;
        module
    }

    /// An equal module, checked as well.
    ///
    /// # Errors
    ///
    /// If an allocation fails.
    pub fn clone(&self) -> Result<Checked, NoMemory>
        ensures { IfOk result (λ copy. copy ≡ self.now) }
    {
        let module = self.module.clone()?;
        Ok(Checked { module })
    }
}
