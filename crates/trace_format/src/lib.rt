//! The files of logs and tapes: reading and writing them, and the lines that show them.
#![tactic(auto)]

mod events;
mod file_lines;
pub mod files;
mod headers;
mod items;
mod laws;
mod log_readers;
mod numbers;
mod parts;
mod segments;
mod texts;

pub use base::NoMemory;
pub use file_lines::{lines_of_log, lines_of_tape};
pub use files::{FormatFault, read_log, read_tape};
pub use headers::Digest;
pub use laws::{log_files, tape_files};
pub use log_readers::{LogSink, log_events, log_header};
pub use texts::{show_log, show_tape};
pub use trace_bytes::{write_log, write_tape};
