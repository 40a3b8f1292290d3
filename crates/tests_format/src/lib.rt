//! Tests alone: numbers, bodies and modules in the binary format that are read and written, and modules that are
//! copied. Bytes were worked out from the standard by hand.
#![tactic(auto)]

#[cfg(test)]
mod tests;
