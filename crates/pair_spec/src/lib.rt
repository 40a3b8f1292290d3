//! Pairs of linked modules, as definitions: what an import of one module from the other comes to, the numbers of the
//! functions and globals of both, the run of both over one store, the history of each, the one module that both are
//! linked to, and why two modules do not link.
#![tactic(auto)]

pub mod faults;

pub use faults::PairFault;
