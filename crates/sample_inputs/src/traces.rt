// The contents of files of logs and tapes, and their lines. All were worked out from the formats by hand.

/// The first bytes of a log's file.
pub const LOG: &str = "72336c67";

/// The first bytes of a tape's file.
pub const TAPE: &str = "72337470";

/// A digest.
pub const DIGEST: &str = "000102030405060708090a0b0c0d0e0f101112131415161718191a1b1c1d1e1f";

/// The log of a run in which a function calls an import twice, which answers 5 and 7: the bytes after the
/// digest.
pub const LOG_OF_TWO_ANSWERS: &str = "0101010003010004017f0500000003010004017f07000000020110";

/// The lines of that log after the first.
pub const LOG_LINES_OF_TWO_ANSWERS: &str =
    "enter 1\npre 0\npost i32:00000005\npre 0\npost i32:00000007\nleave 1\nended\n";

/// The tape of the run with two answers: the bytes after the digest.
pub const TAPE_OF_TWO_ANSWERS: &str = "000020010001000021017f0500000001000021017f070000000200222f";

/// The lines of that tape after the first.
pub const TAPE_LINES_OF_TWO_ANSWERS: &str =
    "segment begin\ncall 1\nsegment import 0\nreturn i32:00000005\nsegment import 0\nreturn i32:00000007\n\
     segment back\nend\nclose\n";

/// A log with each kind of event: the bytes after the digest.
pub const EACH_EVENT: &str =
    "010101027f050000007e060000000000000002010301000300040004017d0000803f0502060a05070a02ccdd08000103080100\
     09027c000000000000f03f11";

/// The lines of that log after the first.
pub const LINES_OF_EACH_EVENT: &str =
    "enter 1 i32:00000005 i64:0000000000000006\nleave 1\npre 0\npre none\npost\npost f32:3f800000\ngrow 2\nseen\n\
     table 5\nbytes 10 ccdd\nentry 0 3\nentry 1 none\nglobal 2 f64:3ff0000000000000\ntrapped\n";

/// A tape with each kind of effect: the bytes after the digest.
pub const EACH_EFFECT: &str = "000505020a05070a02ccdd0800010309027f0700000021000201080100232f";

/// The lines of that tape after the first.
pub const LINES_OF_EACH_EFFECT: &str =
    "segment begin\ngrow 2\ntable 5\nbytes 10 ccdd\nentry 0 3\nglobal 2 i32:00000007\nreturn\nsegment back\n\
     entry 1 none\ntrap\nclose\n";

/// The lines after the first of a tape with a call by the host within a call of an import.
pub const LINES_OF_NESTED_CALL: &str =
    "segment begin\ncall 1\nsegment import 0\ncall 2\nsegment import 0\nreturn i32:00000002\nsegment back\n\
     bytes 0 04\nreturn i32:00000001\nsegment back\nend\nclose\n";
