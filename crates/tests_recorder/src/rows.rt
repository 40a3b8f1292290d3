// Steps, and the lines of their log.

use crate::steps::Step;
use crate::steps::Step::{Call, Grow, SetEntry, Write};
use hook_names::Hook;

/// What a row tests, the steps, and the lines.
type Row = (&'static str, &'static [Step], &'static str);

pub(crate) const ROWS: &[Row] = &[
    (
        "two answers",
        &[
            Call(Hook::Enter, &[1]),
            Call(Hook::Pre, &[0]),
            Call(Hook::Arg, &[0x7f, 5]),
            Call(Hook::Post, &[0]),
            Call(Hook::Pre, &[0]),
            Call(Hook::Arg, &[0x7f, 7]),
            Call(Hook::Post, &[0]),
            Call(Hook::Leave, &[1]),
        ],
        "enter 1\npre 0\npost i32:00000005\npre 0\npost i32:00000007\nleave 1\nended\n",
    ),
    (
        "all bytes of a load are compared, and just those of a store are taken",
        &[
            Call(Hook::Enter, &[1]),
            Call(Hook::Load, &[8, 0, 4]),
            Write(10, &[0xcc, 0xdd]),
            Call(Hook::Load, &[8, 0, 4]),
            Call(Hook::Load, &[8, 0, 4]),
            // only the lowest byte of the number is stored
            Call(Hook::Store, &[8, 2, 1, 0x0011]),
            Write(10, &[0x11]),
            Call(Hook::Load, &[8, 0, 4]),
            // two runs; the second is at the end of the load
            Write(8, &[1, 0, 2, 3]),
            Call(Hook::Load, &[8, 0, 4]),
            Call(Hook::Leave, &[1]),
        ],
        "enter 1\nbytes 10 ccdd\nbytes 8 01\nbytes 10 0203\nleave 1\nended\n",
    ),
    (
        "a growth is seen by an access past the known size",
        &[
            Call(Hook::Enter, &[1]),
            Call(Hook::Pre, &[0]),
            Grow,
            Write(65_540, &[7]),
            Call(Hook::Arg, &[0x7f, 0]),
            Call(Hook::Post, &[0]),
            Call(Hook::Load, &[65_532, 0, 4]),
            Call(Hook::Load, &[65_536, 0, 8]),
            Call(Hook::Size, &[]),
            Call(Hook::Leave, &[1]),
        ],
        "enter 1\npre 0\npost i32:00000000\ngrow 2\nseen\nbytes 65540 07\nleave 1\nended\n",
    ),
    (
        "a copy reads, and a fill writes",
        &[
            Write(300, &[9]),
            Call(Hook::Enter, &[1]),
            Call(Hook::Fill, &[0, 0x105, 600]),
            Call(Hook::Copy, &[1_000, 300, 2]),
            // the fill was reported, but this store was not filled: its bytes differ from the filled ones
            Write(1_000, &[9, 0, 1]),
            Call(Hook::Load, &[1_000, 0, 4]),
            Call(Hook::Leave, &[1]),
        ],
        "enter 1\nbytes 300 0900\nbytes 1002 01\nleave 1\nended\n",
    ),
    (
        "entries are told by the functions of the original",
        &[
            Call(Hook::Enter, &[1]),
            SetEntry,
            Call(Hook::Ipre, &[0]),
            Call(Hook::Enter, &[1]),
            Call(Hook::Leave, &[1]),
            Call(Hook::Arg, &[0x7f, 3]),
            Call(Hook::Ipost, &[]),
            Call(Hook::Ipre, &[0]),
            Call(Hook::Enter, &[1]),
            Call(Hook::Leave, &[1]),
            Call(Hook::Arg, &[0x7f, 3]),
            Call(Hook::Ipost, &[]),
            Call(Hook::Ipre, &[7]),
        ],
        "enter 1\nentry 0 1\npre 1\nenter 1\nleave 1\npost i32:00000003\npre 1\nenter 1\nleave 1\n\
         post i32:00000003\npre none\nended\n",
    ),
];

/// What is not allowed, and a call that is out of order after a function is entered.
type Disorder = (&'static str, Hook, &'static [u64]);

pub(crate) const OUT_OF_ORDER: &[Disorder] = &[
    ("a function within another", Hook::Enter, &[1]),
    ("the end of another function", Hook::Leave, &[0]),
    ("a load of three bytes", Hook::Load, &[0, 0, 3]),
    ("a value of no type", Hook::Arg, &[0x6f, 0]),
    ("a call of a function that is not there", Hook::Pre, &[18]),
    ("the end of no call", Hook::Post, &[0]),
    ("a global that is not there", Hook::Gget, &[0, 0]),
    ("another number of arguments", Hook::Size, &[0]),
];
