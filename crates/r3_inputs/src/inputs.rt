// Modules and scripts from bytes.

ghost use Rattle.std.specs.Prelude.{◌≡◌, ◌<◌, ◌≤◌, ◌⊎◌, ◌^◌, Ok, Err, length, All, IfOk, IfErr, OnOk};
ghost use Rattle.wasm_syntax.specs.declared.limits.TheConstants.{MAX_FILE_BYTES};
ghost use Rattle.wasm_syntax.specs.Encoding.Modules.{Encodes};
ghost use Rattle.wasm_syntax.specs.Index.{func_indices};
ghost use Rattle.wasm_syntax.specs.Profile.{IsAccepted, IsSupported};
ghost use Rattle.wasm_syntax.specs.ListsWithin.{HasListsWithin};
ghost use Rattle.wasm_flat.specs.Sizes.{IsShort};
ghost use Rattle.wasm_profile.specs.Sizes.{HasShortLists};
ghost use Rattle.wasm_syntax.specs.declared.modules.Module.{Module};
ghost use Rattle.wasm_syntax.specs.Validity.{IsValid};
ghost use Rattle.host_script.specs.declared.scripts.Script.{Script};
ghost use Rattle.host_script.specs.Fits.{Fits};
ghost use Rattle.script_text.specs.Texts.{script_of_text};
ghost use Rattle.r3_faults.specs.declared.faults.Fault.{Fault};
ghost use Rattle.r3_faults.specs.declared.faults.Fault.TheVariants.{Memory};
ghost use Rattle.r3_inputs.specs.Inputs.{IsModuleIn, IsModuleOf, IsMalformedIn, IsInvalidFor, IsUnacceptedIn, IsRefusedIn, IsRefusedModule, IsRefusedScript};
ghost use Rattle.r3_inputs.specs.ModuleFiles.{form_of, is_instrumented, max_bytes};

use crate::module_files::ModuleFile;
use host_script::Script;
use r3_faults::Fault;
use script_text::{ScriptFault, read_script, scripts_that_are_read_fit};
use std::alloc::Global;
use wasm_decode::{DecodeFault, decode};
use wasm_profile::{ProfileFault, accept};
use wasm_syntax::{Module, fault_places, module_encoding, validity_is_decided};
use wasm_validate::{Checked, InvalidFault, validate};

/// The original module that bytes encode, if it is valid and accepted. There are at most `MAX_FILE_BYTES`
/// bytes.
///
/// # Errors
///
/// Why the bytes are refused, by the first cause that applies: they are malformed, the module is invalid, or it
/// is not accepted. `Memory` if memory is out.
pub fn module_of(alloc: Global, bytes: &[u8]) -> Result<Checked, Fault>
    requires { length bytes.now ≤ MAX_FILE_BYTES }
    ensures taken { IfOk result (λ checked. IsModuleOf bytes.now checked) }
    ensures bytes { IfOk result (λ checked. All (λ segment. All (λ byte. byte < 256) segment.bytes) checked.datas) }
    // A run needs this: no instruction is refused, and the module's lists are short.
    ensures supported { IfOk result (λ checked. IsSupported checked) }
    ensures short { IfOk result (λ checked. IsShort checked) }
    // The list lengths of the module are at most the number of bytes.
    ensures within { IfOk result (λ checked. HasListsWithin (length bytes.now) checked) }
    ensures cause { IfErr result (λ fault. (fault ≡ Memory) ⊎ IsRefusedModule bytes.now fault) }
    ensures refused { (fault : Fault) → IsRefusedModule bytes.now fault
        → (result ≡ Err fault) ⊎ (result ≡ Err Memory) }
    ensures accepted { (m : Module) → IsModuleOf bytes.now m
        → (result ≡ Ok m) ⊎ (result ≡ Err Memory) }
{
    module_in(alloc, ModuleFile::Original, bytes)
}

/// The module of a file of this kind, if it is valid and accepted. The file has at most `MAX_FILE_BYTES`,
/// `MAX_INSTRUMENTED_BYTES` or `MAX_REPLAY_BYTES` bytes.
///
/// # Errors
///
/// The faults of `module_of`.
pub fn module_in(alloc: Global, file: ModuleFile, bytes: &[u8]) -> Result<Checked, Fault>
    requires { length bytes.now ≤ max_bytes file }
    ensures taken { IfOk result (λ checked. IsModuleIn file bytes.now checked) }
    ensures bytes { IfOk result (λ checked. All (λ segment. All (λ byte. byte < 256) segment.bytes) checked.datas) }
    ensures supported { IfOk result (λ checked. IsSupported checked) }
    ensures short { IfOk result (λ checked. IsShort checked) }
    ensures within { IfOk result (λ checked. HasListsWithin (length bytes.now) checked) }
    ensures cause { IfErr result (λ fault. (fault ≡ Memory) ⊎ IsRefusedIn file bytes.now fault) }
    ensures refused { (fault : Fault) → IsRefusedIn file bytes.now fault
        → (result ≡ Err fault) ⊎ (result ≡ Err Memory) }
    ensures accepted { (m : Module) → IsModuleIn file bytes.now m
        → (result ≡ Ok m) ⊎ (result ≡ Err Memory) }
{
    // Bytes encode at most one module, and are refused for at most one fault.
    module_encoding();
    fault_places();
    validity_is_decided();
    accepted_module(alloc, file, bytes)
}

/// The accepted module of a file, or a fault with its cause.
fn accepted_module(alloc: Global, file: ModuleFile, bytes: &[u8]) -> Result<Checked, Fault>
    requires { length bytes.now ≤ max_bytes file }
    ensures taken { IfOk result (λ checked. IsModuleIn file bytes.now checked) }
    ensures bytes { IfOk result (λ checked. All (λ segment. All (λ byte. byte < 256) segment.bytes) checked.datas) }
    ensures supported { IfOk result (λ checked. IsSupported checked) }
    ensures short { IfOk result (λ checked. IsShort checked) }
    ensures within { IfOk result (λ checked. HasListsWithin (length bytes.now) checked) }
    ensures cause { IfErr result (λ fault. (fault ≡ Memory) ⊎ IsRefusedIn file bytes.now fault) }
{
    let module = decoded_module(alloc, file, bytes)?;
    let checked = valid_module(alloc, module)?;
    acceptance(file, &checked)?;
    Ok(checked)
}

/// The module that bytes encode in the form of such a file.
fn decoded_module(alloc: Global, file: ModuleFile, bytes: &[u8]) -> Result<Module, Fault>
    ensures found { IfOk result (λ m. Encodes (form_of file) bytes.now m) }
    ensures bytes { IfOk result (λ m. All (λ segment. All (λ byte. byte < 256) segment.bytes) m.datas) }
    ensures within { IfOk result (λ m. HasListsWithin (length bytes.now) m) }
    ensures cause { IfErr result (λ fault. (fault ≡ Memory) ⊎ IsMalformedIn file bytes.now fault) }
{
    match decode(alloc, bytes, file.form()) {
        Ok(module) => Ok(module),
        Err(DecodeFault::Malformed { at }) => Err(Fault::Malformed { at }),
        Err(DecodeFault::Memory) => Err(Fault::Memory),
    }
}

/// A module, known to be valid.
fn valid_module(alloc: Global, module: Module) -> Result<Checked, Fault>
    requires { length (func_indices «module») < 2 ^ 32 }
    ensures same { IfOk result (λ checked. checked ≡ «module») }
    ensures valid { IfOk result (λ _. IsValid «module») }
    ensures cause { IfErr result (λ fault. (fault ≡ Memory) ⊎ IsInvalidFor «module» fault) }
{
    match validate(alloc, module) {
        Ok(checked) => Ok(checked),
        Err(InvalidFault::Invalid { func: None }) => Err(Fault::InvalidModule),
        Err(InvalidFault::Invalid { func: Some(func) }) => Err(Fault::InvalidFunction {
            func: u64::from(func),
        }),
        Err(InvalidFault::Memory) => Err(Fault::Memory),
    }
}

/// Tests that a valid module is accepted in a file of this kind.
fn acceptance(file: ModuleFile, checked: &Checked) -> Result<(), Fault>
    requires { HasShortLists checked.now }
    ensures taken { OnOk result (IsAccepted (is_instrumented file) checked.now) }
    ensures cause { IfErr result (λ fault. IsUnacceptedIn file checked.now fault) }
{
    match accept(checked, file.is_instrumented()) {
        Ok(()) => Ok(()),
        Err(
            ProfileFault::Unsupported {
                func,
                number,
                feature,
            },
        ) => Err(Fault::Unsupported {
            func: u64::from(func),
            number: u64::from(number),
            feature,
        }),
        Err(ProfileFault::Limit { which, value }) => Err(Fault::Limit { which, value }),
        Err(ProfileFault::Reserved { import }) => Err(Fault::Reserved {
            import: u64::from(import),
        }),
    }
}

/// The script that bytes encode for a module, which fits the module.
///
/// # Errors
///
/// The first fault of the walk over the text, or `Memory` if memory is out.
pub fn script_of(alloc: Global, bytes: &[u8], checked: &Checked) -> Result<Script, Fault>
    ensures taken { IfOk result (λ script. script_of_text checked.now bytes.now ≡ Ok script) }
    ensures fits { IfOk result (λ script. Fits checked.now script) }
    ensures cause { IfErr result (λ fault. (fault ≡ Memory) ⊎ IsRefusedScript checked.now bytes.now fault) }
    ensures refused { (fault : Fault) → IsRefusedScript checked.now bytes.now fault
        → (result ≡ Err fault) ⊎ (result ≡ Err Memory) }
    ensures accepted { (script : Script) → script_of_text checked.now bytes.now ≡ Ok script
        → (result ≡ Ok script) ⊎ (result ≡ Err Memory) }
{
    scripts_that_are_read_fit();
    match read_script(alloc, bytes, checked.module()) {
        Ok(script) => Ok(script),
        Err(ScriptFault::NotJson) => Err(Fault::NotJson),
        Err(ScriptFault::Shape { path }) => Err(Fault::Shape { path }),
        Err(ScriptFault::UnknownName { name }) => Err(Fault::UnknownName { name }),
        Err(ScriptFault::WrongType { name }) => Err(Fault::WrongType { name }),
        Err(ScriptFault::NoAccess { name }) => Err(Fault::NoAccess { name }),
        Err(ScriptFault::CallsOwn { name }) => Err(Fault::CallsOwn { name }),
        Err(ScriptFault::Memory) => Err(Fault::Memory),
    }
}
