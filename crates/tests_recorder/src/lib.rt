//! Tests alone: hook calls made by hand, and the lines of their logs; cuts of a tape. The lines were also worked out by
//! hand.
#![tactic(auto)]

#[cfg(test)]
mod calls;
#[cfg(test)]
mod cuts;
#[cfg(test)]
mod freezes;
#[cfg(test)]
mod modules;
#[cfg(test)]
mod rows;
#[cfg(test)]
mod steps;
