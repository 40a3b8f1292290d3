//! State modules, which begin in a known state: the store in which they begin, that they are valid, their code, and the
//! sizes of their replay modules. These are laws about the definitions, whose statements are in `specs/`; their
//! functions do nothing.
#![tactic(auto)]

pub mod laws;
pub mod module_laws;

pub use laws::{known_states_are_of_stores, known_states_open, state_modules_open};
pub use module_laws::{
    state_modules_are_short, state_modules_are_valid, state_modules_can_be_replayed,
    state_modules_have_code, stores_have_states,
};
