//! Tests alone: integer operations, stores, what links and what the host's actions do to a store, and the lines of
//! histories. What is expected was worked out from the standard and from the format of histories by hand.
#![tactic(auto)]

#[cfg(test)]
mod tests;
