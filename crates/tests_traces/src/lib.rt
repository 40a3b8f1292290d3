//! Tests alone: files of logs and of tapes that are read, written again, shown or refused; logs that are
//! balanced and tapes that fit; the segments of a tape that each activation of the host has; logs that are reduced to
//! their tapes, or refused. Bytes, places, lines and segments were worked out by hand, from the formats and from the
//! worked recordings.
#![tactic(auto)]

#[cfg(test)]
mod tests;
