// Scripts with their names resolved to indices of a module.

use thiserror::Error;
use wasm_syntax::{Bytes, Limits, List, Val, Vals};

/// A script for a module: what the host supplies, its answers to calls, and what it does by itself.
/// `globals` has one item for each imported global, `imports` one for each imported function, both
/// in the module's order.
#[derive(Debug, Drop)]
pub struct Script {
    pub memory: Option<Limits>,
    pub table: Option<Limits>,
    pub globals: GivenGlobals,
    pub imports: Answers,
    pub main: Actions,
}

/// The answers to calls of one import: `calls` for the first calls, `rest` for all others.
#[derive(Debug, Drop)]
pub struct Answer {
    pub calls: Responses,
    pub rest: Option<Response>,
}

/// The answer to one call: its actions, and how the call ends.
#[derive(Debug, Drop)]
pub struct Response {
    pub actions: Actions,
    pub end: ResponseEnd,
}

/// How the host ends a call: it returns a value if the function has a result, or it traps.
#[derive(Clone, Copy, PartialEq, Eq, Debug)]
pub enum ResponseEnd {
    Return(Option<Val>),
    Trap,
}

/// An address in memory, in bytes: a fixed one, or an argument of the call that is answered plus an
/// offset, without wrapping.
#[derive(Clone, Copy, PartialEq, Eq, Debug)]
pub enum Address {
    Fixed(u32),
    Arg { number: u32, plus: u32 },
}

/// One action of the host. Functions, globals and table entries are named by their indices.
#[derive(Debug, Drop)]
pub enum Action {
    Write {
        to: Address,
        bytes: Bytes,
    },
    Copy {
        to: Address,
        source: Address,
        count: u32,
    },
    SetTable {
        index: u32,
        func: Option<u32>,
    },
    SetGlobal {
        global: u32,
        value: Val,
    },
    Grow {
        pages: u32,
    },
    GrowTable {
        entries: u32,
    },
    Call {
        func: u32,
        args: Vals,
    },
    CallTable {
        index: u32,
        args: Vals,
    },
}

/// What a script gives for each imported global.
pub type GivenGlobals = List<Option<Val>>;

/// The answers of a script for each imported function.
pub type Answers = List<Option<Answer>>;

/// Answers to calls, the first call first.
pub type Responses = List<Response>;

/// Actions, the first one first.
pub type Actions = List<Action>;

/// What the host supplies for imports: the limits of a memory of zeros and of an empty table, and
/// the values of the imported globals, by their indices.
#[derive(Debug, Drop)]
pub struct Supply {
    pub memory: Option<Limits>,
    pub table: Option<Limits>,
    pub globals: Vals,
}

/// Why a module does not link with a supply (Core 1.0, 4.5.4).
#[derive(Clone, Copy, PartialEq, Eq, Debug, Error)]
pub enum LinkFault {
    /// Nothing is supplied for this import, by its place in the list of imports.
    #[error("import {import} is missing")]
    Missing { import: u32 },
    /// What is supplied for this import does not match it.
    #[error("import {import} does not match")]
    Mismatch { import: u32 },
    /// This segment passes its table or memory; element segments count before data segments.
    #[error("segment {number} does not fit")]
    Segment { number: u32 },
    /// An allocation failed.
    #[error("out of memory")]
    Memory,
}
