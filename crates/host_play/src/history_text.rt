// The text of a history while it is printed.

ghost use Rattle.std.specs.Prelude.{◌≡◌, ◌∷◌, ◌++◌, [], OnOk, OnErr};
ghost use Rattle.history_spec.specs.Line.{entry_text, line};
ghost use Rattle.history_lines.specs.Growth.{GrewByFirstPart};
ghost use Rattle.wasm_interp.specs.InstrEntries.{as_entry, entries_of};
ghost use Rattle.host_play.specs.PrintedLines.{Prints};

use base::NoMemory;
use history_lines::{print_entry, print_step, print_trap};
use history_spec::Entry;
use std::alloc::Global;
use std::marker::Model;
use wasm_interp::{InstrEntry, TurnEntries};

/// The lines of the entries so far, and the number of these entries.
#[derive(Drop)]
pub struct HistoryText {
    pub(crate) text: Vec<u8>,
    pub(crate) entries: u64,
}

impl Model for HistoryText {
    ghost use Rattle.std.specs.Prelude.{◌≤◌, length};
    ghost use Rattle.host_play.specs.PrintedLines.{PrintedLines};

    ghost Value = { PrintedLines };

    ghost view = { λ j. record { text = j.text.items; entries = j.entries } };

    ghost invariant = { λ j. j.entries ≤ length j.text.items };
}

impl HistoryText {
    /// No entry printed yet.
    pub(crate) fn new(alloc: Global) -> HistoryText
        ensures { result ≡ record { text = []; entries = 0 } }
    {
        HistoryText {
            text: Vec::new(alloc),
            entries: 0,
        }
    }

    /// Prints an entry.
    pub(crate) fn print(&mut self, entry: &Entry) -> Result<(), NoMemory>
        ensures { OnOk result (Prints self.old self.new (entry.now ∷ [])) }
    {
        print_entry(&mut self.text, entry)?;
        let _length = self.text.len();
        self.entries += 1;
        Ok(())
    }

    /// Prints the entry of an instruction.
    fn print_instr_entry(&mut self, entry: &InstrEntry) -> Result<(), NoMemory>
        ensures { OnOk result (Prints self.old self.new (as_entry entry.now ∷ [])) }
    {
        print_instr(&mut self.text, entry)?;
        let _length = self.text.len();
        self.entries += 1;
        Ok(())
    }

    /// Prints the entries of a turn.
    pub(crate) fn print_turn(&mut self, entries: &TurnEntries) -> Result<(), NoMemory>
        ensures { OnOk result (Prints self.old self.new (entries_of entries.now)) }
    {
        self.print_instr_entry(&entries.instr)?;
        match entries.after.as_slice() {
            [] => Ok(()),
            after => self.print_all(after),
        }
    }

    /// Prints entries one after another.
    pub(crate) fn print_all(&mut self, entries: &[Entry]) -> Result<(), NoMemory>
        ensures { OnOk result (Prints self.old self.new entries.now) }
    {
        'entries: for entry in entries {
            self.print(entry)?;
        }
        Ok(())
    }
}

/// Appends the line of an instruction.
fn print_instr(out: &mut Vec<u8>, entry: &InstrEntry) -> Result<(), NoMemory>
    ensures ok { OnOk result (out.new.items ≡ out.old.items ++ line (entry_text (as_entry entry.now))) }
    ensures refused { OnErr result (GrewByFirstPart out.old.items out.new.items
        (line (entry_text (as_entry entry.now)))) }
{
    let operands = entry.operands.as_slice();
    let results = entry.results.as_slice();
    match entry.trap {
        None => print_step(
            out,
            entry.func,
            entry.number,
            operands,
            results,
            entry.found,
        ),
        Some(kind) => print_trap(out, entry.func, entry.number, kind, operands, entry.found),
    }
}
