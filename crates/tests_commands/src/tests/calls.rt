// Calls over files and sinks in memory.

use r3_core::r3;
use r3_outside::{MemFiles, MemSink};
use std::alloc::Global;
use std::test::Fail;

/// The status that a call returns, what it prints, and the line of error that it writes.
#[derive(Drop)]
pub(crate) struct Outcome {
    pub(crate) status: u8,
    pub(crate) printed: Vec<u8>,
    pub(crate) line: Vec<u8>,
}

impl Outcome {
    /// Whether the call did its job, without a line of error.
    pub(crate) fn is_done(&self) -> bool {
        self.status == 0 && self.line.is_empty()
    }

    /// Whether the call ended because a write failed, and these bytes were written before.
    pub(crate) fn is_cut(&self, written: &[u8]) -> bool {
        self.status == 13
            && self.line.as_slice() == b"write\n".as_slice()
            && self.printed.as_slice() == written
    }

    /// Whether the call ended with this status and this line of error, and printed nothing.
    pub(crate) fn is_refused(&self, status: u8, line: &str) -> bool {
        self.status == status && self.line.as_slice() == line.as_bytes() && self.printed.is_empty()
    }
}

/// The outcome of a call with these words.
pub(crate) fn outcome_of(
    alloc: Global,
    words: &[&str],
    files: &mut MemFiles,
) -> Result<Outcome, Fail> {
    let out = MemSink::new(alloc, 1_000_000, Vec::new(alloc));
    outcome_into(alloc, words, files, out)
}

/// The outcome of a call whose second write fails; each write takes ten bytes.
pub(crate) fn outcome_cut(
    alloc: Global,
    words: &[&str],
    files: &mut MemFiles,
) -> Result<Outcome, Fail> {
    let out = MemSink::new(alloc, 10, vec![in alloc; 1u64]?);
    outcome_into(alloc, words, files, out)
}

/// Words in the type that the call takes.
pub(crate) fn texts_of(alloc: Global, words: &[&str]) -> Result<Vec<String>, Fail> {
    let mut texts = Vec::new(alloc);
    for word in words {
        texts.push(String::from_str(alloc, word)?)?;
    }
    Ok(texts)
}

/// The outcome of a call with these words and with a sink for the output.
pub(crate) fn outcome_into(
    alloc: Global,
    words: &[&str],
    files: &mut MemFiles,
    out: MemSink,
) -> Result<Outcome, Fail> {
    let mut out = out;
    let texts = texts_of(alloc, words)?;
    outcome_of_texts(alloc, texts.as_slice(), files, &mut out)
}

fn outcome_of_texts(
    alloc: Global,
    texts: &[String],
    files: &mut MemFiles,
    out: &mut MemSink,
) -> Result<Outcome, Fail> {
    let mut err = MemSink::new(alloc, 1_000_000, Vec::new(alloc));
    let status = r3(alloc, texts, files, out, &mut err);
    let printed = Vec::from_slice(alloc, out.bytes())?;
    let line = Vec::from_slice(alloc, err.bytes())?;
    Ok(Outcome {
        status,
        printed,
        line,
    })
}

/// The files of a module, in hexadecimal, and of a script. Some reads fail.
pub(crate) fn files_of(
    alloc: Global,
    module: &str,
    script: &str,
    failing: Vec<u64>,
) -> Result<MemFiles, Fail> {
    let mut files = MemFiles::new(alloc, failing);
    files.add("m.wasm", hex::decode(alloc, module)?.as_slice())?;
    files.add("s.json", script.as_bytes())?;
    Ok(files)
}

/// The outcome of `make` or `history` on a module, in hexadecimal, with a script.
pub(crate) fn outcome_of_command(
    alloc: Global,
    command: &str,
    module: &str,
    script: &str,
    turns: &str,
) -> Result<Outcome, Fail> {
    let mut files = files_of(alloc, module, script, Vec::new(alloc))?;
    outcome_of(alloc, &[command, "m.wasm", "s.json", turns], &mut files)
}
