//! Tests alone: the scripts that are accepted for a module, and the line of error of each other script. The
//! lines were worked out by hand from the form of scripts and the order in which it is walked. Also a script for
//! an instrumented module, and the scripts of loads.
#![tactic(auto)]

#[cfg(test)]
mod tests;
