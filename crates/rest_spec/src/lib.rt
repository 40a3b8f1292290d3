//! What is left of a run from a top-level call of the host on, as definitions: the rest of its history, what is known
//! before the call, the cut of its tape, and the module that begins in the known state.
#![tactic(auto)]
