// The segments of a tape: what the host does each time that control reaches it.

ghost use Rattle.std.specs.Prelude.{◌≡◌, ◌^◌, ◌-◌, min};
ghost use Rattle.trace_model.specs.Weight.{effect_weight, next_weight, segment_weight, tape_weight};

use wasm_syntax::{Bytes, List, Val, Vals};

/// A change that the host makes.
#[derive(Drop)]
pub enum Effect {
    /// The memory grows to this number of pages.
    Grow { pages: u32 },
    /// The table grows to this number of entries.
    Table { size: u32 },
    /// The bytes from the address on.
    Bytes { addr: u32, bytes: Bytes },
    /// The entry of this index gets this function, or is emptied.
    Entry { index: u32, func: Option<u32> },
    /// The global gets this value.
    Global { global: u32, value: Val },
}

/// How control reaches the host.
#[derive(Clone, Copy, PartialEq, Eq, Debug)]
pub enum Origin {
    /// At the beginning of the run.
    Begin,
    /// By a call of this import.
    Import(u32),
    /// By the return of a function that the host called.
    Back,
}

/// How control leaves the host.
#[derive(Drop)]
pub enum Next {
    /// By a call of this function.
    Call { func: u32, args: Vals },
    /// By a return to the module.
    Return { result: Option<Val> },
    /// By the end of the host's work.
    End,
    /// By a trap.
    Trap,
}

/// What the host does from when control reaches it until control leaves it.
#[derive(Drop)]
pub struct Segment {
    pub origin: Origin,
    pub effects: Effects,
    pub next: Next,
}

/// What the host does in a run.
#[derive(Drop)]
pub struct Tape {
    pub segments: Segments,
}

impl Tape {
    /// The weight of the tape: one for each byte and each other effect, one for how control leaves each segment,
    /// and one for each value that is passed. 2^64 - 1 if the weight is more.
    pub fn weight(&self) -> u64
        ensures { result ≡ min (tape_weight self.now) (2 ^ 64 - 1) }
    {
        let mut weight: u64 = 0;
        'segments: for segment in self.segments.as_slice() {
            weight = weight.saturating_add(segment.weight());
        }
        weight
    }
}

impl Segment {
    /// The weight of the segment; 2^64 - 1 if the weight is more.
    pub fn weight(&self) -> u64
        ensures { result ≡ min (segment_weight self.now) (2 ^ 64 - 1) }
    {
        let mut weight = self.next.weight();
        'effects: for effect in self.effects.as_slice() {
            weight = weight.saturating_add(effect.weight());
        }
        weight
    }
}

impl Effect {
    /// The weight of the effect.
    fn weight(&self) -> u64
        ensures { result ≡ effect_weight self.now }
    {
        match self {
            Effect::Bytes { bytes, .. } => bytes.as_slice().len() as u64,
            _ => 1,
        }
    }
}

impl Next {
    /// The weight of how control leaves, with the values that are passed; 2^64 - 1 if the weight is more.
    fn weight(&self) -> u64
        ensures { result ≡ min (next_weight self.now) (2 ^ 64 - 1) }
    {
        match self {
            Next::Call { args, .. } => (args.as_slice().len() as u64).saturating_add(1),
            Next::Return { result: Some(_) } => 2,
            _ => 1,
        }
    }
}

/// A list of effects.
pub type Effects = List<Effect>;

/// A list of segments.
pub type Segments = List<Segment>;
