//! What a run does, part by part.

mod actions;
mod entry_lines;
mod integer_operations;
mod linked_stores;
mod stores;
