// Refused instructions.

ghost use Rattle.std.specs.Prelude.{◌≡◌, ◌+◌, ◌<◌, ◌≤◌, length, slice_get, option_to_list, if◌then◌else◌};
ghost use Rattle.std.specs.List.{AllByRecursion, enumerate_from};
ghost use Rattle.wasm_profile.specs.Answers.{refusal_in, refused_of_all};
ghost use Rattle.wasm_profile.specs.Sizes.{HasShortLists, IsShortFunc, list_limit};
ghost use Rattle.wasm_syntax.specs.Index.{func_import, of_kind};
ghost use Rattle.wasm_syntax.specs.Profile.{feature_of, is_numbered, refused_feature, refused_in, refused_instructions};

use crate::faults::ProfileFault;
use base::opcodes::{
    F32_ABS, F32_EQ, F64_COPYSIGN, F64_GE, F64_PROMOTE_F32, I32_TRUNC_F32_S, I32_TRUNC_F64_U,
    I64_TRUNC_F32_S,
};
use wasm_syntax::{Feature, Func, Import, ImportKind, Instr, Module};

/// Refuses the first refused instruction, by function and number.
pub(crate) fn refuse_instructions(module: &Module) -> Result<(), ProfileFault>
    requires { HasShortLists «module».now }
    ensures { refusal_in result ≡ slice_get (refused_instructions «module».now) 0 }
{
    let imported = imported_funcs(module.imports.as_slice());
    refuse_bodies(imported, module.funcs.as_slice())
}

/// Refuses the first refused instruction of functions whose indices begin here.
pub(crate) fn refuse_bodies(imported: u32, funcs: &[Func]) -> Result<(), ProfileFault>
    requires indices { imported + length funcs.now < list_limit }
    requires short { AllByRecursion IsShortFunc funcs.now }
    ensures { refusal_in result ≡ slice_get (refused_of_all (enumerate_from imported funcs.now)) 0 }
{
    'funcs: for (place, func) in funcs.iter().enumerate() {
        refuse_body(imported + place as u32, func)?;
    }
    Ok(())
}

/// The number of imported functions.
fn imported_funcs(imports: &[Import]) -> u32
    requires { length imports.now < list_limit }
    ensures { result ≡ length (of_kind func_import imports.now) }
{
    let mut count = 0;
    'imports: for import in imports {
        count += one_if_func(import.kind);
    }
    count
}

/// 1 for a function, and 0 for another kind of import.
fn one_if_func(kind: ImportKind) -> u32
    ensures count { result ≡ length (option_to_list (func_import kind)) }
    ensures most { result ≤ 1 }
{
    match kind {
        ImportKind::Func(_) => 1,
        _ => 0,
    }
}

/// Refuses the first refused instruction of the function with this index.
fn refuse_body(index: u32, func: &Func) -> Result<(), ProfileFault>
    requires { IsShortFunc func.now }
    ensures { refusal_in result ≡ slice_get (refused_in index func.now) 0 }
{
    let mut number = 0;
    'instrs: for instr in func.body.as_slice() {
        if let Some(feature) = refused_feature(instr) {
            return Err(ProfileFault::Unsupported {
                func: index,
                number,
                feature,
            });
        }
        number = next_number(number, instr);
    }
    Ok(())
}

/// The number of the next instruction: `else` and `end` have no number of their own.
fn next_number(number: u32, instr: &Instr) -> u32
    requires { number < list_limit }
    ensures { result ≡ (if is_numbered instr.now then number + 1 else number) }
{
    match instr {
        Instr::Else | Instr::End => number,
        _ => number + 1,
    }
}

/// The class of an instruction that the profile leaves out.
fn refused_feature(instr: &Instr) -> Option<Feature>
    ensures { result ≡ refused_feature instr.now }
{
    match instr {
        Instr::Numeric(op) => feature_of(*op),
        _ => None,
    }
}

/// The class of a refused opcode (Core 1.0, 5.4.5).
fn feature_of(op: u8) -> Option<Feature>
    ensures { result ≡ feature_of op }
{
    match op {
        F32_EQ..=F64_GE => Some(Feature::FloatComparison),
        F32_ABS..=F64_COPYSIGN => Some(Feature::FloatArithmetic),
        I32_TRUNC_F32_S..=I32_TRUNC_F64_U | I64_TRUNC_F32_S..=F64_PROMOTE_F32 => {
            Some(Feature::FloatConversion)
        }
        _ => None,
    }
}
