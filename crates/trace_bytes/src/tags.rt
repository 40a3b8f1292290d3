// The bytes that mark what follows them in the files of logs and tapes.

/// The first bytes of a log's file and of a tape's file.
pub const LOG_MAGIC: [u8; 4] = *b"r3lg";

pub const TAPE_MAGIC: [u8; 4] = *b"r3tp";

/// The versions that are read; files are written in the second.
pub const VERSION_1: u8 = 1;

pub const VERSION_2: u8 = 2;

/// The length of a digest in bytes.
pub const DIGEST_BYTES: usize = 32;

/// The mark of an option without a value, and that of an option whose value follows.
pub const OPTION_NONE: u8 = 0x00;

pub const OPTION_SOME: u8 = 0x01;

/// Events. All from `TAG_GROW` on, except `TAG_SEEN`, are effects too. Version 1 has no `TAG_TABLE`.
pub const TAG_ENTER: u8 = 0x01;

pub const TAG_LEAVE: u8 = 0x02;

pub const TAG_PRE: u8 = 0x03;

pub const TAG_POST: u8 = 0x04;

pub const TAG_GROW: u8 = 0x05;

pub const TAG_SEEN: u8 = 0x06;

pub const TAG_BYTES: u8 = 0x07;

pub const TAG_ENTRY: u8 = 0x08;

pub const TAG_GLOBAL: u8 = 0x09;

pub const TAG_TABLE: u8 = 0x0a;

/// Outcomes.
pub const TAG_ENDED: u8 = 0x10;

pub const TAG_TRAPPED: u8 = 0x11;

pub const TAG_HOST_TRAPPED: u8 = 0x12;

/// How control reaches the host.
pub const TAG_BEGIN: u8 = 0x00;

pub const TAG_IMPORT: u8 = 0x01;

pub const TAG_BACK: u8 = 0x02;

/// How control leaves the host.
pub const TAG_CALL: u8 = 0x20;

pub const TAG_RETURN: u8 = 0x21;

pub const TAG_END: u8 = 0x22;

pub const TAG_TRAP: u8 = 0x23;

/// The end of a tape.
pub const TAG_CLOSE: u8 = 0x2f;
