// The kinds of module files.

ghost use Rattle.std.specs.Prelude.{◌≡◌};
ghost use Rattle.r3_inputs.specs.ModuleFiles.{form_of, is_instrumented};

use wasm_syntax::Form;

/// What a module file contains: an original module, an instrumented one, or a replay module.
#[derive(Clone, Copy, PartialEq, Eq, Debug)]
pub enum ModuleFile {
    Original,
    Instrumented,
    Replay,
}

impl ModuleFile {
    /// The form of the binary format.
    pub(crate) fn form(self) -> Form
        ensures { result ≡ form_of self }
    {
        match self {
            ModuleFile::Original | ModuleFile::Instrumented => Form::Core,
            ModuleFile::Replay => Form::Replay,
        }
    }

    /// Whether the module may have what instrumented modules have: more locals, and imports that are otherwise
    /// reserved.
    pub(crate) fn is_instrumented(self) -> bool
        ensures { result ≡ is_instrumented self }
    {
        matches!(self, ModuleFile::Instrumented)
    }
}
