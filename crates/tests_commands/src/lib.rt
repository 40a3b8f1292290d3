//! Tests alone: calls of the commands over files and sinks that can fail; and these files and sinks, of the system and
//! in memory, if no contract says what a file contained or what was written; and replays with no turns, which the words
//! of a call do not allow. All was worked out by hand.
#![tactic(auto)]

#[cfg(test)]
mod tests;
