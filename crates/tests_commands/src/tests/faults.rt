//! Files that are loaded and bytes that are written, until a call fails.

ghost use Rattle.std.specs.Prelude.{◌≤◌};

use crate::tests::long_contents::reads;
use r3_outside::{
    DiskFiles, Files, LoadFault, MemFiles, MemSink, NoMemory, Sink, StdSink, SureFiles, SureSink,
    load, put_all, put_parts,
};
use std::alloc::{AllocError, Global};
use std::io::{ErrorKind, Write};
use std::test::Fail;
use std::{fs, io};

/// Bytes that differ from place to place, more than one piece that `load` takes.
fn long_bytes(alloc: Global) -> Result<Vec<u8>, AllocError> {
    let mut bytes = Vec::new(alloc);
    for n in 0..70_000u32 {
        bytes.push((n % 251) as u8)?;
    }
    Ok(bytes)
}

/// Whether the file is loaded with these bytes.
fn loads<F: Files>(alloc: Global, files: &mut F, name: &str, limit: u64, bytes: &[u8]) -> bool
    requires { limit ≤ 536870912 }
{
    match load(alloc, files, name, limit) {
        Ok(loaded) => loaded.as_slice() == bytes,
        Err(_) => false,
    }
}

/// The fault of a load.
fn fault<F: Files>(alloc: Global, files: &mut F, name: &str, limit: u64) -> Option<LoadFault>
    requires { limit ≤ 536870912 }
{
    load(alloc, files, name, limit).err()
}

fn failing_files(alloc: Global, failing: u64) -> Result<MemFiles, NoMemory> {
    let mut files = MemFiles::new(alloc, vec![in alloc; failing]?);
    files.add("long", b"soon replaced")?;
    files.add("long", &long_bytes(alloc)?)?;
    Ok(files)
}

#[test]
fn a_file_is_loaded_up_to_its_limit(rt: HostRuntime) -> Result<(), Fail> {
    let alloc = rt.alloc();
    let mut files = failing_files(alloc, u64::MAX)?;
    let bytes = long_bytes(alloc)?;
    assert!(rt; loads(alloc, &mut files, "long", 70_000, &bytes));
    assert!(rt; fault(alloc, &mut files, "long", 69_999) == Some(LoadFault::TooLong));
    assert!(rt; fault(alloc, &mut files, "long", 0) == Some(LoadFault::TooLong));
    assert!(rt; fault(alloc, &mut files, "missing", 9) == Some(LoadFault::Failed));
    Ok(())
}

#[test]
fn each_call_that_fails_is_a_fault_of_the_load(rt: HostRuntime) -> Result<(), Fail> {
    let alloc = rt.alloc();
    // Two pieces and the end are three calls.
    for failing in 0..3 {
        let mut files = failing_files(alloc, failing)?;
        assert!(rt; fault(alloc, &mut files, "long", 70_000) == Some(LoadFault::Failed));
    }
    Ok(())
}

#[test]
fn a_missing_file_is_empty_where_no_read_fails(rt: HostRuntime) -> Result<(), Fail> {
    let alloc = rt.alloc();
    let mut files = SureFiles::new(alloc);
    files.add("short", b"soon replaced")?;
    files.add("short", b"now")?;
    assert!(rt; loads(alloc, &mut files, "short", 3, b"now"));
    assert!(rt; fault(alloc, &mut files, "short", 2) == Some(LoadFault::TooLong));
    assert!(rt; loads(alloc, &mut files, "missing", 0, b""));
    Ok(())
}

#[test]
fn bytes_are_written_until_a_call_fails(rt: HostRuntime) -> Result<(), Fail> {
    let alloc = rt.alloc();
    let mut sink = MemSink::new(alloc, 3, vec![in alloc; 2]?);
    assert!(rt; put_all(&mut sink, b"0123456789").is_err());
    assert!(rt; sink.bytes() == b"012345".as_slice());
    Ok(())
}

#[test]
fn parts_are_written_until_a_call_fails(rt: HostRuntime) -> Result<(), Fail> {
    let alloc = rt.alloc();
    let mut sink = MemSink::new(alloc, 3, vec![in alloc; 2]?);
    assert!(rt; put_parts(&mut sink, &[b"0123", b"4567"]).is_err());
    assert!(rt; sink.bytes() == b"0123".as_slice());
    Ok(())
}

#[test]
fn a_sink_that_never_fails_reports_its_bytes(rt: HostRuntime) {
    let mut sink = SureSink::new(rt.alloc());
    assert!(rt; put_parts(&mut sink, &[b"0123", b"45"]).is_ok());
    assert!(rt; sink.bytes() == Some(b"012345"));
}

#[test]
fn a_file_of_the_system_is_read_at_any_place(rt: HostRuntime) -> Result<(), Fail> {
    // The program that runs this test, as another reader gives it.
    let name = "/proc/self/exe";
    let program = fs::read(&rt, name)?;
    let mut files = DiskFiles::new(&rt);
    assert!(rt; program.len() > 70_000);
    assert!(rt; loads(rt.alloc(), &mut files, name, 536_870_912, &program));
    assert!(rt; reads(&mut files, name, 66_000, &program[66_000..66_004]));
    assert!(rt; reads(&mut files, name, 1, b"ELF\x02"));
    assert!(rt; fault(rt.alloc(), &mut files, name, 70_000) == Some(LoadFault::TooLong));
    Ok(())
}

#[test]
fn what_is_no_file_of_the_system_fails(rt: HostRuntime) {
    let mut files = DiskFiles::new(&rt);
    assert!(rt; loads(rt.alloc(), &mut files, "/dev/null", 0, b""));
    for name in ["/", "/no/such/file", ""] {
        assert!(rt; fault(rt.alloc(), &mut files, name, 9) == Some(LoadFault::Failed));
    }
}

/// A writer that takes at most two bytes in a call, and after its fifth byte none, or returns an error.
#[derive(Drop)]
struct Narrow {
    bytes: Vec<u8>,
    breaks: bool,
}

impl Write for Narrow {
    fn write(&mut self, buf: &[u8]) -> io::Result<usize> {
        let room = 5usize.saturating_sub(self.bytes.len());
        if self.breaks && room == 0 {
            return Err(io::Error::from(ErrorKind::BrokenPipe));
        }
        let count = buf.len().min(room).min(2);
        self.bytes.extend_from_slice(&buf[..count])?;
        Ok(count)
    }

    fn flush(&mut self) -> io::Result<()> {
        Ok(())
    }
}

#[test]
fn a_writer_that_takes_nothing_fails(rt: HostRuntime) {
    for breaks in [false, true] {
        let mut writer = Narrow {
            bytes: Vec::new(rt.alloc()),
            breaks,
        };
        let mut sink = StdSink::new(&mut writer);
        assert!(rt; put_all(&mut sink, b"0123").is_ok());
        assert!(rt; put_all(&mut sink, b"4567").is_err());
        assert!(rt; sink.write(b"567").is_err());
        drop(sink);
        assert!(rt; writer.bytes.as_slice() == b"01234".as_slice());
    }
}
