// The text of what a run shows, while it is written.

ghost use Rattle.std.specs.Prelude.{◌≡◌, ◌<◌, ◌+◌, ◌++◌, [], ◌∷◌, length, IfOk, OnOk};
ghost use Rattle.std.specs.Option.{option_to_list};
ghost use Rattle.history_spec.specs.Projection as projection;
ghost use Rattle.shown_lines.specs.ShownLines.{lines, Shows, nothing_shown};
ghost use Rattle.replay_run_spec.specs.Inside as inside;
ghost use Rattle.replay_form.specs.Sides.{as_layout, side_of};
ghost use Rattle.wasm_interp.specs.InstrEntries.{as_entry, entries_of};
ghost use Rattle.history_spec.specs.declared.entries.Entry.TheVariants.{Step, Trap};

use base::NoMemory;
use history_lines::{print_entry, print_step};
use history_spec::{Entry, Outcome, TrapKind};
use replay_form::{Layout, Side};
use replay_run_spec::projections_run_along;
use std::alloc::Global;
use std::marker::Model;
use wasm_interp::{InstrEntry, TurnEntries};
use wasm_syntax::{List, Val, Vals};

/// The lines of what the entries so far show, the number of shown entries, and the functions that control is in,
/// the innermost last.
#[derive(Drop)]
pub struct ShownText {
    layout: Layout,
    text: Vec<u8>,
    entries: u64,
    inside: Vec<u32>,
}

impl Model for ShownText {
    ghost use Rattle.std.specs.Prelude.{◌≤◌, length, reverse};
    ghost use Rattle.shown_lines.specs.ShownLines.{ShownLines};
    ghost use Rattle.replay_form.specs.Sides.{as_layout};

    ghost Value = { ShownLines };

    ghost view = { λ shown. record {
      layout = as_layout shown.layout;
      text = shown.text.items;
      entries = shown.entries;
      inside = reverse shown.inside.items;
    } };

    ghost invariant = { λ shown. shown.entries ≤ length shown.text.items };
}

/// Copies of values.
fn copy_of(alloc: Global, values: &[Val]) -> Result<Vals, NoMemory>
    ensures { IfOk result (λ copy. copy ≡ values.now) }
{
    let items = Vec::from_slice(alloc, values)?;
    Ok(List::from_vec(items))
}

/// The entry shown for a call from one side to a function of another.
fn shown_call(
    alloc: Global,
    caller: Side,
    callee: Side,
    func: u32,
    args: &[Val],
) -> Result<Option<Entry>, NoMemory>
    ensures { IfOk result (λ shown. option_to_list shown
        ≡ projection.shown_call (side_of caller) (side_of callee) func args.now) }
{
    match (caller, callee) {
        (Side::Original, Side::Original) => Ok(Some(Entry::Enter { func })),
        (Side::Original, Side::Import) => Ok(Some(Entry::ImportCall {
            import: func,
            args: copy_of(alloc, args)?,
        })),
        (_, Side::Original) => Ok(Some(Entry::HostCall {
            func,
            args: copy_of(alloc, args)?,
        })),
        _ => Ok(None),
    }
}

/// The entry shown for the return of a call from one side to a function of another.
fn shown_return(
    alloc: Global,
    caller: Side,
    callee: Side,
    func: u32,
    results: &[Val],
) -> Result<Option<Entry>, NoMemory>
    ensures { IfOk result (λ shown. option_to_list shown
        ≡ projection.shown_return (side_of caller) (side_of callee) func results.now) }
{
    match (caller, callee) {
        (Side::Original, Side::Original) => Ok(Some(Entry::Exit {
            func,
            results: copy_of(alloc, results)?,
        })),
        (Side::Original, Side::Import) => Ok(Some(Entry::ImportReturn {
            import: func,
            results: copy_of(alloc, results)?,
        })),
        (_, Side::Original) => Ok(Some(Entry::HostReturn {
            func,
            results: copy_of(alloc, results)?,
        })),
        _ => Ok(None),
    }
}

/// The arguments among a call's operands: all but the index of a `call_indirect`; only such a call has found a
/// function.
fn call_args(operands: &[Val], found: Option<u32>) -> &[Val]
    ensures { result.now ≡ projection.call_args operands.now found }
{
    match found {
        None => operands,
        Some(_) => &operands[..operands.len().saturating_sub(1)],
    }
}

/// The outcome of a trap in a function.
fn trapped_in(layout: Layout, func: u32) -> Outcome
    ensures { result ≡ projection.trapped_on (projection.side (as_layout layout) func) }
{
    match layout.side(func) {
        Side::Original => Outcome::Trapped,
        _ => Outcome::HostTrapped,
    }
}

/// The outcome of a history that ends with a trap: `Trapped` if an original traps, `HostTrapped` if a function
/// outside does.
pub fn trap_outcome(layout: Layout, entries: &[Entry]) -> Outcome
    ensures { result ≡ projection.trap_outcome (as_layout layout) entries.now }
{
    'entries: for entry in entries {
        if let Entry::Trap { func, .. } = entry {
            return trapped_in(layout, *func);
        }
    }
    Outcome::Trapped
}

/// The outcome of a history that ends with the trap of a turn.
pub fn trap_outcome_of_turn(layout: Layout, turn: &TurnEntries) -> Outcome
    ensures { result ≡ projection.trap_outcome (as_layout layout) (entries_of turn.now) }
{
    match turn.instr.trap {
        None => trap_outcome(layout, turn.after.as_slice()),
        Some(_) => trapped_in(layout, turn.instr.func),
    }
}

impl ShownText {
    /// No lines yet; control is outside all functions. Takes no memory.
    pub fn new(alloc: Global, layout: Layout) -> ShownText
        ensures { result ≡ nothing_shown (as_layout layout) }
    {
        ShownText {
            layout,
            text: Vec::new(alloc),
            entries: 0,
            inside: Vec::new(alloc),
        }
    }

    /// The layout of the original.
    pub fn layout(&self) -> Layout
        ensures { as_layout result ≡ self.now.layout }
    {
        self.layout
    }

    /// The number of entries written.
    pub fn entries(&self) -> u64
        ensures { result ≡ self.now.entries }
    {
        self.entries
    }

    /// The lines.
    pub fn into_text(self) -> Vec<u8>
        ensures { result.items ≡ self.text }
    {
        let ShownText { text, .. } = self;
        text
    }

    /// The side of the innermost function; the caller of the outermost is outside.
    fn innermost(&self) -> Side
        ensures { side_of result ≡ projection.caller_side self.now.layout self.now.inside }
    {
        match self.inside.last() {
            Some(func) => self.layout.side(*func),
            None => Side::Appended,
        }
    }

    /// Counts an entry whose line was appended.
    fn count_entry(&mut self)
        requires { self.old.entries < length self.old.text }
        ensures { self.new ≡ record self.old { entries = self.old.entries + 1 } }
    {
        let _length = self.text.len();
        self.entries += 1;
    }

    /// Appends the line of an entry.
    fn print(&mut self, entry: &Entry) -> Result<(), NoMemory>
        ensures text { OnOk result (self.new.text ≡ self.old.text ++ lines (entry.now ∷ [])) }
        ensures count { OnOk result (self.new.entries ≡ self.old.entries + 1) }
        ensures layout { self.new.layout ≡ self.old.layout }
        ensures inside { self.new.inside ≡ self.old.inside }
    {
        print_entry(&mut self.text, entry)?;
        self.count_entry();
        Ok(())
    }

    /// Appends the line of an entry, if there is one.
    fn print_some(&mut self, entry: Option<Entry>) -> Result<(), NoMemory>
        ensures text { OnOk result (self.new.text ≡ self.old.text ++ lines (option_to_list entry)) }
        ensures count { OnOk result (self.new.entries ≡ self.old.entries + length (option_to_list entry)) }
        ensures layout { self.new.layout ≡ self.old.layout }
        ensures inside { self.new.inside ≡ self.old.inside }
    {
        match entry {
            Some(entry) => self.print(&entry),
            None => Ok(()),
        }
    }

    /// Shows that control enters a function.
    fn enter(&mut self, func: u32, args: &[Val]) -> Result<(), NoMemory>
        ensures layout { self.new.layout ≡ self.old.layout }
        ensures inside { OnOk result (self.new.inside ≡ func ∷ self.old.inside) }
        ensures text { OnOk result (self.new.text ≡ self.old.text
            ++ lines (projection.shown_call (projection.caller_side self.old.layout self.old.inside)
            (projection.side self.old.layout func) func args.now)) }
        ensures count { OnOk result (self.new.entries ≡ self.old.entries
            + length (projection.shown_call (projection.caller_side self.old.layout self.old.inside)
            (projection.side self.old.layout func) func args.now)) }
    {
        let alloc = *self.inside.allocator();
        let callee = self.layout.side(func);
        let shown = shown_call(alloc, self.innermost(), callee, func, args)?;
        self.print_some(shown)?;
        self.inside.push(func)?;
        Ok(())
    }

    /// Shows that control leaves the innermost function.
    fn leave(&mut self, func: u32, results: &[Val]) -> Result<(), NoMemory>
        ensures layout { self.new.layout ≡ self.old.layout }
        ensures inside { OnOk result (self.new.inside ≡ projection.without_innermost self.old.inside) }
        ensures text { OnOk result (self.new.text ≡ self.old.text
            ++ lines (projection.shown_return
            (projection.caller_side self.old.layout (projection.without_innermost self.old.inside))
            (projection.side self.old.layout func) func results.now)) }
        ensures count { OnOk result (self.new.entries ≡ self.old.entries
            + length (projection.shown_return
            (projection.caller_side self.old.layout (projection.without_innermost self.old.inside))
            (projection.side self.old.layout func) func results.now)) }
    {
        let alloc = *self.inside.allocator();
        let _left = self.inside.pop();
        let callee = self.layout.side(func);
        let shown = shown_return(alloc, self.innermost(), callee, func, results)?;
        self.print_some(shown)
    }

    /// Shows a step of an original.
    fn step(&mut self, func: u32, entry: &Entry) -> Result<(), NoMemory>
        ensures layout { self.new.layout ≡ self.old.layout }
        ensures inside { self.new.inside ≡ self.old.inside }
        ensures text { OnOk result (self.new.text ≡ self.old.text
            ++ lines (projection.shown_step (projection.side self.old.layout func) entry.now)) }
        ensures count { OnOk result (self.new.entries ≡ self.old.entries
            + length (projection.shown_step (projection.side self.old.layout func) entry.now)) }
    {
        match self.layout.side(func) {
            Side::Original => self.print(entry),
            _ => Ok(()),
        }
    }

    /// Shows a trap, as one of the original or of the host.
    fn trap(&mut self, func: u32, entry: &Entry) -> Result<(), NoMemory>
        ensures layout { self.new.layout ≡ self.old.layout }
        ensures inside { self.new.inside ≡ self.old.inside }
        ensures text { OnOk result (self.new.text ≡ self.old.text
            ++ lines (projection.shown_trap (projection.side self.old.layout func) entry.now ∷ [])) }
        ensures count { OnOk result (self.new.entries ≡ self.old.entries + 1) }
    {
        match self.layout.side(func) {
            Side::Original => self.print(entry),
            _ => self.print(&Entry::HostTrap),
        }
    }

    /// Appends the lines of what an entry shows, with the latest call's arguments.
    fn show(&mut self, entry: &Entry, args: &[Val]) -> Result<(), NoMemory>
        ensures { OnOk result (Shows self.old self.new args.now (entry.now ∷ [])) }
    {
        match entry {
            Entry::HostCall { func, args: given } => self.enter(*func, given.as_slice()),
            Entry::Enter { func } => self.enter(*func, args),
            Entry::HostReturn { func, results } => self.leave(*func, results.as_slice()),
            Entry::Exit { func, results } => self.leave(*func, results.as_slice()),
            Entry::Step { func, .. } => self.step(*func, entry),
            Entry::Trap { func, .. } => self.trap(*func, entry),
            _ => Ok(()),
        }
    }

    /// Appends the lines of what entries show, with the latest call's arguments before them.
    fn show_after(&mut self, first: &[Val], entries: &[Entry]) -> Result<(), NoMemory>
        ensures { OnOk result (Shows self.old self.new first.now entries.now) }
    {
        projections_run_along();
        let mut args: &[Val] = first;
        'entries: for entry in entries {
            self.show(entry, args)?;
            args = args_after(args, entry);
        }
        Ok(())
    }

    /// Appends the lines of what entries show. The entries are all that a run makes from a point where no
    /// arguments are known: before the first entry that enters a function without its arguments comes the
    /// instruction that calls it.
    ///
    /// # Errors
    ///
    /// `NoMemory` if memory is out; the text is not to be used then.
    pub fn show_all(&mut self, entries: &[Entry]) -> Result<(), NoMemory>
        ensures { OnOk result (Shows self.old self.new [] entries.now) }
    {
        self.show_after(&[], entries)
    }

    /// Appends the line of an instruction, which has not trapped.
    fn print_instr(&mut self, instr: &InstrEntry) -> Result<(), NoMemory>
        ensures text { OnOk result (self.new.text ≡ self.old.text ++ lines (Step instr.now.func instr.now.number
            instr.now.operands.items instr.now.results.items instr.now.found ∷ [])) }
        ensures count { OnOk result (self.new.entries ≡ self.old.entries + 1) }
        ensures layout { self.new.layout ≡ self.old.layout }
        ensures inside { self.new.inside ≡ self.old.inside }
    {
        print_step(
            &mut self.text,
            instr.func,
            instr.number,
            instr.operands.as_slice(),
            instr.results.as_slice(),
            instr.found,
        )?;
        self.count_entry();
        Ok(())
    }

    /// Shows an instruction that has not trapped, if it is the original's.
    fn show_step(&mut self, instr: &InstrEntry) -> Result<(), NoMemory>
        ensures { OnOk result (Shows self.old self.new [] (Step instr.now.func instr.now.number
            instr.now.operands.items instr.now.results.items instr.now.found ∷ [])) }
    {
        match self.layout.side(instr.func) {
            Side::Original => self.print_instr(instr),
            _ => Ok(()),
        }
    }

    /// Shows an instruction that has trapped.
    fn show_trap(&mut self, instr: &InstrEntry, kind: TrapKind) -> Result<(), NoMemory>
        ensures { OnOk result (Shows self.old self.new [] (Trap instr.now.func instr.now.number kind
            instr.now.operands.items instr.now.found ∷ [])) }
    {
        let alloc = *self.text.allocator();
        let entry = Entry::Trap {
            func: instr.func,
            number: instr.number,
            kind,
            operands: copy_of(alloc, instr.operands.as_slice())?,
            found: instr.found,
        };
        self.trap(instr.func, &entry)
    }

    /// Shows an instruction.
    fn show_instr(&mut self, instr: &InstrEntry) -> Result<(), NoMemory>
        ensures { OnOk result (Shows self.old self.new [] (as_entry instr.now ∷ [])) }
    {
        match instr.trap {
            None => self.show_step(instr),
            Some(kind) => self.show_trap(instr, kind),
        }
    }

    /// Appends the lines of what the entries of a turn show. No arguments are needed for them: that of the
    /// instruction comes first.
    ///
    /// # Errors
    ///
    /// `NoMemory` if memory is out; the text is not to be used then.
    pub fn show_turn(&mut self, turn: &TurnEntries) -> Result<(), NoMemory>
        ensures { OnOk result (Shows self.old self.new [] (entries_of turn.now)) }
    {
        projections_run_along();
        self.show_instr(&turn.instr)?;
        match turn.after.as_slice() {
            [] => Ok(()),
            after => self.show_after(args_after_instr(&turn.instr), after),
        }
    }
}

/// The latest call's arguments after an instruction, if none were known before it.
fn args_after_instr(instr: &InstrEntry) -> &[Val]
    ensures { result.now ≡ inside.args_after [] (as_entry instr.now) }
{
    match instr.trap {
        None => call_args(instr.operands.as_slice(), instr.found),
        Some(_) => &[],
    }
}

/// The latest call's arguments after an entry.
fn args_after<'a>(args: &'a [Val], entry: &'a Entry) -> &'a [Val]
    ensures { result.now ≡ inside.args_after args.now entry.now }
{
    match entry {
        Entry::HostCall { args: given, .. } => given.as_slice(),
        Entry::Step {
            operands,
            found,
            ..
        } => call_args(operands.as_slice(), *found),
        _ => args,
    }
}
