//! Guarded replay modules, as definitions: replay modules that compare the words of their run with given ones.
#![tactic(auto)]

pub mod numbers;
pub mod words;

pub use numbers::Numbers;
pub use words::{DIGEST_FACTOR, DIGEST_ROTATION};
