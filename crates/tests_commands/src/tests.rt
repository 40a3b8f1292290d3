//! Calls of the commands by subject, and the files and sinks that they are over.

mod calls;
mod damages;
mod failing_calls;
mod faults;
mod files;
mod long_contents;
mod no_turns;
