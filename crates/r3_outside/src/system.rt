// The files and streams of the system.

ghost use Rattle.std.specs.Prelude.{◌≡◌, ◌<◌, ◌≤◌, length, take, None, IfOk, OnOk, OnErr};
ghost use Rattle.std.specs.Io.KnownBytes.{Appends, Keeps};
ghost use Rattle.r3_outside.specs.Count.{NoneFell, saturating_add};
ghost use Rattle.r3_outside.specs.NameCounts.{no_counts, count_of, IsCountedFor};

use crate::counts::Counts;
use crate::{Failed, Files, Sink};
use std::io::{Read, Seek, SeekFrom, Write};
use std::marker::Model;
use std::{fs, io, rt};

/// The files of the system, whose names are their paths.
///
/// The last file that was read stays open, so that a file read front to back is opened once and
/// never sought in. A file for whose name there is no memory is opened anew for each read. One that
/// is missing, may not be read or is a directory gives `Failed`.
#[derive(Drop)]
pub struct DiskFiles<R: rt::Files + AllocGlobal + Drop> {
    reader: Reader<R>,
    faults: Counts,
    taken: Counts,
}

impl<R: rt::Files + AllocGlobal + Drop> Model for DiskFiles<R> {
    ghost use Rattle.r3_outside.specs.Stores.{DiskCounts, disk_counts_code};

    ghost Value = { DiskCounts };

    ghost coded = { disk_counts_code };

    ghost view = { λ files. record { faults = files.faults; taken = files.taken } };
}

impl<R: rt::Files + AllocGlobal + Drop> DiskFiles<R> {
    /// The files that a runtime reaches. Takes no memory.
    pub fn new(rt: R) -> DiskFiles<R>
        ensures { result ≡ record { faults = no_counts; taken = no_counts } }
    {
        let alloc = rt.alloc();
        DiskFiles {
            reader: Reader { rt, last: None },
            faults: Counts::new(alloc),
            taken: Counts::new(alloc),
        }
    }
}

impl<R: rt::Files + AllocGlobal + Drop> Files for DiskFiles<R> {
    ghost contents = { λ _. None };

    ghost faults = { λ files. count_of files.faults };

    ghost taken = { λ files. count_of files.taken };

    fn read_at(&mut self, name: &str, at: u64, into: &mut [u8]) -> Result<usize, Failed>
        requires { 0 < length into.old }
        ensures faults_never_fall { NoneFell (count_of self.old.faults) (count_of self.new.faults) }
        ensures fault_counted { OnErr result (IsCountedFor name.now 1 self.old.faults self.new.faults) }
        ensures fault_count { OnErr result
            (count_of self.new.faults name.now ≡ saturating_add (count_of self.old.faults name.now) 1) }
        ensures failed_none { OnOk result (self.new.faults ≡ self.old.faults) }
        ensures taken_never_falls { NoneFell (count_of self.old.taken) (count_of self.new.taken) }
        ensures bytes_counted { IfOk result (λ k. IsCountedFor name.now k self.old.taken self.new.taken) }
        ensures byte_count { IfOk result
            (λ k. count_of self.new.taken name.now ≡ saturating_add (count_of self.old.taken name.now) k) }
        ensures took_none { OnErr result (self.new.taken ≡ self.old.taken) }
        ensures within_buffer { IfOk result (λ k. k ≤ length into.new) }
    {
        match self.reader.read_at(name, at, into) {
            Ok(count) => {
                self.taken.add(name, count as u64);
                Ok(count)
            }
            Err(_) => {
                self.faults.add(name, 1);
                Err(Failed)
            }
        }
    }
}

/// What reads the files of the system, with the last one that was read.
#[derive(Drop)]
struct Reader<R: rt::Files + AllocGlobal + Drop> {
    rt: R,
    last: Option<OpenFile<R::File>>,
}

impl<R: rt::Files + AllocGlobal + Drop> Reader<R> {
    /// Reads from the open file if it has this name. It is closed if that fails.
    fn read_at(&mut self, name: &str, at: u64, into: &mut [u8]) -> io::Result<usize>
        ensures { IfOk result (λ k. k ≤ length into.new) }
    {
        let mut file = match self.last.take() {
            Some(file) if file.is_named(name) => file,
            _ => self.open(name)?,
        };
        let count = file.read_at(at, into)?;
        self.last = Some(file);
        Ok(count)
    }

    /// Opens a file at its beginning.
    fn open(&self, name: &str) -> io::Result<OpenFile<R::File>> {
        Ok(OpenFile {
            name: String::from_str(self.rt.alloc(), name).ok(),
            file: fs::open(&self.rt, name)?,
            place: 0,
        })
    }
}

/// A file of the system with the place at which it goes on, and with its name if there was memory
/// for it.
#[derive(Drop)]
struct OpenFile<F: Read + Seek + Drop> {
    name: Option<String>,
    file: F,
    place: u64,
}

impl<F: Read + Seek + Drop> OpenFile<F> {
    /// Whether the open file is known to have this name.
    fn is_named(&self, name: &str) -> bool {
        self.name.as_deref() == Some(name)
    }

    /// Reads at a place, which is sought only if the file is elsewhere.
    fn read_at(&mut self, at: u64, into: &mut [u8]) -> io::Result<usize>
        ensures { IfOk result (λ k. k ≤ length into.new) }
    {
        if self.place != at {
            self.file.seek(SeekFrom::Start(at))?;
        }
        let count = self.file.read(into)?;
        self.place = at.saturating_add(count as u64);
        Ok(count)
    }
}

/// A writer as a sink, as one of the standard streams. It is never flushed, so it should keep no
/// bytes back.
#[derive(Drop)]
pub struct StdSink<W: Write + Drop> {
    writer: W,
    faults: u64,
}

impl<W: Write + Drop> Model for StdSink<W> {
    ghost use Rattle.r3_outside.specs.Stores.{StdOutput, std_output_code};

    ghost Value = { StdOutput };

    ghost coded = { std_output_code };

    ghost view = { λ sink. record { held = W.contents sink.writer; faults = sink.faults } };
}

impl<W: Write + Drop> StdSink<W> {
    /// A writer as a sink. Takes no memory.
    pub fn new(writer: W) -> StdSink<W>
        ensures { result ≡ record { held = W.contents writer; faults = 0 } }
    {
        StdSink { writer, faults: 0 }
    }
}

impl<W: Write + Drop> Sink for StdSink<W> {
    ghost written = { λ _. None };

    ghost faults = { λ sink. sink.faults };

    /// A writer that takes nothing of `piece` fails.
    fn write(&mut self, piece: &[u8]) -> Result<usize, Failed>
        requires { 0 < length piece.now }
        ensures faults_never_fall { self.old.faults ≤ self.new.faults }
        ensures failed { OnErr result (self.new.faults ≡ saturating_add self.old.faults 1) }
        ensures failed_none { OnOk result (self.new.faults ≡ self.old.faults) }
        ensures some { IfOk result (λ k. 0 < k) }
        ensures within_piece { IfOk result (λ k. k ≤ length piece.now) }
        // If the writer shows the bytes that it holds: exactly the bytes counted were appended, and none at a failure.
        ensures held { IfOk result (λ k. Appends self.old.held self.new.held (take k piece.now)) }
        ensures kept { OnErr result (Keeps self.old.held self.new.held) }
    {
        match self.writer.write(piece) {
            Ok(count) if count > 0 => Ok(count),
            _ => {
                self.faults = self.faults.saturating_add(1);
                Err(Failed)
            }
        }
    }
}
