//! Tests alone: pages of an arena, and what is known of a memory and of a table.
#![tactic(auto)]

#[cfg(test)]
mod arena;
#[cfg(test)]
mod memory;
#[cfg(test)]
mod modules;
#[cfg(test)]
mod tables;
