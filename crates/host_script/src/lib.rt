//! Scripts that play a module's host: what it supplies, and what it does when the module calls it.
#![tactic(auto)]

mod copies;
pub mod scripts;
mod types;

pub use base::NoMemory;
pub use scripts::{
    Action, Actions, Address, Answer, Answers, GivenGlobals, LinkFault, Response, ResponseEnd,
    Responses, Script, Supply,
};
pub use types::is_type;
