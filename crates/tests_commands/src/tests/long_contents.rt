//! Files that are read at any place, and long pieces that are written.

use r3_outside::{DiskFiles, Files, SureSink, put_all};
use std::alloc::{AllocError, Global};
use std::fs;
use std::test::Fail;

/// Whether four bytes are read from a place of a file.
pub fn reads<F: Files>(files: &mut F, name: &str, at: u64, bytes: &[u8]) -> bool {
    let mut piece = [0; 4];
    match files.read_at(name, at, &mut piece) {
        Ok(count) => count == 4 && piece.as_slice() == bytes,
        Err(_) => false,
    }
}

/// Bytes that differ from place to place.
fn long_bytes(alloc: Global) -> Result<Vec<u8>, AllocError> {
    let mut bytes = Vec::new(alloc);
    for n in 0..200_000u32 {
        bytes.push((n % 251) as u8)?;
    }
    Ok(bytes)
}

/// The program that runs the test.
const PROGRAM: &str = "/proc/self/exe";

/// The places go forward, back, and alternate with those of another file.
#[test]
fn a_file_is_read_at_places_in_any_order(rt: HostRuntime) -> Result<(), Fail> {
    // As another reader gives it.
    let program = fs::read(&rt, PROGRAM)?;
    let mut files = DiskFiles::new(&rt);
    assert!(rt; program.len() > 70_000);
    for at in [0, 4, 40_000, 40_004, 66_000, 3, 66_004, 40_004] {
        let place = at as usize;
        assert!(rt; reads(&mut files, PROGRAM, at, &program[place..place + 4]));
    }
    assert!(rt; reads(&mut files, PROGRAM, 1, &program[1..5]));
    assert!(rt; reads(&mut files, "/dev/zero", 9, &[0; 4]));
    assert!(rt; reads(&mut files, PROGRAM, 5, &program[5..9]));
    Ok(())
}

#[test]
fn a_sink_that_never_fails_keeps_long_pieces(rt: HostRuntime) -> Result<(), Fail> {
    let alloc = rt.alloc();
    let bytes = long_bytes(alloc)?;
    let mut sink = SureSink::new(alloc);
    assert!(rt; put_all(&mut sink, b"0123").is_ok());
    assert!(rt; put_all(&mut sink, &bytes).is_ok());
    let Some(kept) = sink.bytes() else {
        return Err(Fail::new(format_args!("nothing is told")));
    };
    assert!(rt; kept.len() == 200_004);
    assert!(rt; &kept[..4] == b"0123".as_slice());
    assert!(rt; &kept[4..] == bytes.as_slice());
    Ok(())
}
