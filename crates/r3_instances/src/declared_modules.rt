// A module, and the functions that a text declares for it.

ghost use Rattle.std.specs.Prelude.{◌≡◌, ◌≤◌, IfErr, IfOk, Ok, All, length};
ghost use Rattle.std.specs.Str.{IsUtf8};
ghost use Rattle.wasm_syntax.specs.declared.limits.TheConstants.{MAX_FILE_BYTES};
ghost use Rattle.decl_text.specs.Texts.{decls_of_text};
ghost use Rattle.r3_faults.specs.Answers.{IsExactValue};
ghost use Rattle.r3_instances.specs.ForeignInputs.{AreUndeclared, IsDeclared, IsRefusedDecls};
ghost use Rattle.r3_instances.specs.RecordedModules.{CanBeWidened};

use crate::file_modules::file_module;
use decl_text::{
    DeclFault, declarations_are_within_texts, declarations_that_are_read_fit, read_decls,
};
use instance_spec::Decls;
use r3_faults::Fault;
use std::alloc::Global;
use wasm_syntax::Module;
use wasm_validate::Checked;

/// A module, and declarations for it.
#[derive(Drop)]
pub struct DeclaredModule {
    pub(crate) checked: Checked,
    pub(crate) decls: Decls,
}

/// The module and the declarations for it that the bytes of two files are.
///
/// # Errors
///
/// The fault names why the module is refused, or else why the declarations are; `Memory` if memory is exhausted.
pub(crate) fn declared_module(
    alloc: Global,
    module: &[u8],
    decls: &[u8],
) -> Result<DeclaredModule, Fault>
    requires small { length «module».now ≤ MAX_FILE_BYTES }
    requires declared { length decls.now ≤ MAX_FILE_BYTES }
    ensures exact { IsExactValue (IsDeclared «module».now decls.now) (AreUndeclared «module».now decls.now) result }
    ensures fit { IfOk result (λ declared. CanBeWidened declared) }
{
    declarations_are_within_texts();
    declarations_that_are_read_fit();
    match file_module(alloc, module) {
        Ok(checked) => match decls_of(alloc, decls, checked.module()) {
            Ok(decls) => Ok(DeclaredModule { checked, decls }),
            Err(fault) => Err(fault),
        },
        Err(fault) => Err(fault),
    }
}

/// The functions that bytes declare for a module.
fn decls_of(alloc: Global, bytes: &[u8], module: &Module) -> Result<Decls, Fault>
    ensures exact { IsExactValue (λ decls. decls_of_text «module».now bytes.now ≡ Ok decls)
        (IsRefusedDecls «module».now bytes.now) result }
    ensures names { IfOk result (λ decls. All (λ d. IsUtf8 d.name) decls) }
{
    match read_decls(alloc, bytes, module) {
        Ok(decls) => Ok(decls),
        Err(DeclFault::NotJson) => Err(Fault::DeclNotJson),
        Err(DeclFault::Shape { path }) => Err(Fault::DeclShape { path }),
        Err(DeclFault::Reserved { import }) => Err(Fault::DeclReserved {
            import: u64::from(import),
        }),
        Err(DeclFault::Taken { name }) => Err(Fault::DeclTaken { name }),
        Err(DeclFault::Memory) => Err(Fault::Memory),
    }
}
