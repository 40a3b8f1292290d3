//! LEB128 numbers, as the binary format of WebAssembly has them (Core 1.0, 5.2.2).
#![tactic(auto)]

mod laws;
mod read;
mod unread;
mod write;

pub use base::NoMemory;
pub use laws::{i32_encoding, i64_encoding, s32_encoding, s64_encoding, u32_encoding};
pub use read::{BadLeb, read_i32, read_i64, read_u32};
pub use unread::Unread;
pub use write::{push_i64, push_u32};
