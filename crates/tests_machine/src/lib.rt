//! Tests alone: the results of calls of functions with the machine alone, by many turns at once and turn by turn,
//! worked out by hand from the standard.
#![tactic(auto)]

#[cfg(test)]
mod both_ways;
#[cfg(test)]
mod core_2_rows;
#[cfg(test)]
mod rows;
#[cfg(test)]
mod table_rows;
