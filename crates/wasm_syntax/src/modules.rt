// Modules and their parts.

ghost use Rattle.std.specs.Prelude.{◌≡◌};
ghost use Rattle.wasm_syntax.specs.EmptyModule.{empty_module};

use crate::instructions::Body;
use crate::lists::{Bytes, Indices, List};
use crate::names::Name;
use crate::signatures::{FuncTypes, GlobalType, Limits};
use crate::values::ValType;
use std::alloc;

/// An import (Core 1.0, 2.5.11).
#[derive(Debug, Drop)]
pub struct Import {
    pub module: Name,
    pub name: Name,
    pub kind: ImportKind,
}

/// What an import brings in; a function by the index of its type.
#[derive(Clone, Copy, PartialEq, Eq, Debug)]
pub enum ImportKind {
    Func(u32),
    Table(Limits),
    Memory(Limits),
    Global(GlobalType),
}

/// An export (Core 1.0, 2.5.10).
#[derive(Debug, Drop)]
pub struct Export {
    pub name: Name,
    pub kind: ExportKind,
}

/// What an export names, by its index.
#[derive(Clone, Copy, PartialEq, Eq, Debug)]
pub enum ExportKind {
    Func(u32),
    Table(u32),
    Memory(u32),
    Global(u32),
}

/// Neighbouring locals of one type.
#[derive(Clone, Copy, PartialEq, Eq, Debug)]
pub struct Run {
    pub count: u32,
    pub ty: ValType,
}

/// The locals of a function after its parameters, without empty runs and without neighbours of
/// one type (Core 1.0, 5.5.13).
pub type Runs = List<Run>;

/// A defined function: the index of its type, its locals, its body (Core 1.0, 2.5.3).
#[derive(Debug, Drop)]
pub struct Func {
    pub ty: u32,
    pub locals: Runs,
    pub body: Body,
}

/// A defined global (Core 1.0, 2.5.6).
#[derive(Debug, Drop)]
pub struct Global {
    pub ty: GlobalType,
    pub init: Body,
}

/// An element segment (Core 1.0, 2.5.7). A declared one is a form of Core 2.0 (2.5.7) that the
/// replay form alone spells.
#[derive(Debug, Drop)]
pub enum ElemSeg {
    Active {
        table: u32,
        offset: Body,
        funcs: Indices,
    },
    Declared {
        funcs: Indices,
    },
}

/// A data segment (Core 1.0, 2.5.8).
#[derive(Debug, Drop)]
pub struct DataSeg {
    pub memory: u32,
    pub offset: Body,
    pub bytes: Bytes,
}

/// A custom section (Core 1.0, 5.5.3).
#[derive(Debug, Drop)]
pub struct Custom {
    pub name: Name,
    pub bytes: Bytes,
}

pub type Imports = List<Import>;

pub type Funcs = List<Func>;

pub type LimitsList = List<Limits>;

pub type Globals = List<Global>;

pub type Exports = List<Export>;

pub type ElemSegs = List<ElemSeg>;

pub type DataSegs = List<DataSeg>;

pub type Customs = List<Custom>;

/// A module (Core 1.0, 2.5). Each list is in its section's order.
#[derive(Debug, Drop)]
pub struct Module {
    pub types: FuncTypes,
    pub imports: Imports,
    pub funcs: Funcs,
    pub tables: LimitsList,
    pub memories: LimitsList,
    pub globals: Globals,
    pub exports: Exports,
    pub start: Option<u32>,
    pub elems: ElemSegs,
    pub datas: DataSegs,
    pub customs: Customs,
}

impl Module {
    /// The empty module. Takes no memory.
    pub fn empty(alloc: alloc::Global) -> Module
        ensures { result ≡ empty_module }
    {
        Module {
            types: List::new(alloc),
            imports: List::new(alloc),
            funcs: List::new(alloc),
            tables: List::new(alloc),
            memories: List::new(alloc),
            globals: List::new(alloc),
            exports: List::new(alloc),
            start: None,
            elems: List::new(alloc),
            datas: List::new(alloc),
            customs: List::new(alloc),
        }
    }
}
