//! Tests alone: a generated part that was written by hand, merged with a module.
#![tactic(auto)]

#[cfg(test)]
mod tests;
