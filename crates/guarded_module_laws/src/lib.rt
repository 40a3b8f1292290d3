//! What guarded modules are as modules and what their runs do: laws about the definitions, whose statements are in
//! `specs/`.
#![tactic(auto)]

ghost use Rattle.guarded_module_laws.specs.DigestLaws.{OneWordIsFound};
ghost use Rattle.guarded_module_laws.specs.Laws.{GuardedModulesAreValid, GuardedModulesKeepOriginals};

/// The guarded module of a valid module is valid: its fronts and its own functions have typings, and its other bodies
/// keep theirs under the numbers of the functions that they call.
pub fn guarded_modules_are_valid()
    ensures valid { GuardedModulesAreValid }
{}

/// A guarded module keeps types, the types of functions, and the original's functions, at their indices.
pub fn guarded_modules_keep_originals()
    ensures originals { GuardedModulesKeepOriginals }
{}

/// Memories that differ in one word of eight bytes have different digests, since each of the operations by which a
/// digest takes a word is one to one.
pub fn digests_find_one_word()
    ensures { OneWordIsFound }
{}
