//! Tables of files by subject, and the tests over them.

mod balances;
mod damages;
mod files;
mod fits;
mod lines;
mod plans;
mod prefixes;
mod reduced_files;
mod reductions;
mod rewritten_files;
