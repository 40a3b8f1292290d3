//! Worked histories of flat code, beside those of the run.
#![tactic(auto)]

ghost use Rattle.std.specs.Prelude.{[], ◌∷◌};
ghost use Rattle.worked_histories.specs.Build.{i32};
ghost use Rattle.worked_histories.specs.Modules.{grow_access, overwrite, two_answers};
ghost use Rattle.worked_histories.specs.Scripts.{does_nothing, five_seven};
ghost use Rattle.worked_flat_code.specs.Bulk.{copies, grows};
ghost use Rattle.worked_flat_code.specs.Loops.{called_with, either, leaves, sum_down, switch};
ghost use Rattle.worked_flat_code.specs.Plays.{PlaysAs};

/// The flat code of the example modules has the histories of their runs.
pub fn flat_code_has_the_histories()
    ensures two_answers { PlaysAs two_answers five_seven 1 [] ((i32 5 ∷ []) ∷ (i32 7 ∷ []) ∷ []) 10 }
    ensures overwrite { PlaysAs overwrite does_nothing 1 [] ([] ∷ []) 20 }
    ensures grow_access { PlaysAs grow_access does_nothing 1 [] ([] ∷ []) 20 }
    ensures sum_down { PlaysAs sum_down (called_with 3) 0 (i32 3 ∷ []) [] 60 }
    ensures either_first { PlaysAs either (called_with 3) 0 (i32 3 ∷ []) [] 60 }
    ensures either_second { PlaysAs either (called_with 0) 0 (i32 0 ∷ []) [] 60 }
    ensures switch_first { PlaysAs switch (called_with 0) 0 (i32 0 ∷ []) [] 60 }
    ensures switch_second { PlaysAs switch (called_with 1) 0 (i32 1 ∷ []) [] 60 }
    ensures switch_default { PlaysAs switch (called_with 2) 0 (i32 2 ∷ []) [] 60 }
    ensures leaves { PlaysAs leaves (called_with 6) 0 (i32 6 ∷ []) [] 60 }
    ensures copies { PlaysAs copies (called_with 1) 0 (i32 1 ∷ []) [] 60 }
    ensures copies_past_the_end { PlaysAs copies (called_with 2) 0 (i32 2 ∷ []) [] 60 }
    ensures grows { PlaysAs grows (called_with 3) 0 (i32 3 ∷ []) [] 60 }
    ensures grows_refused { PlaysAs grows (called_with 4) 0 (i32 4 ∷ []) [] 60 }
{}
