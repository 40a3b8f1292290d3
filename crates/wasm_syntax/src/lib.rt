//! The syntax trees of WebAssembly modules (Core 1.0, section 2): Core 1.0; of Core 2.0 the sign
//! extensions, `memory.copy` and `memory.fill`, and the few forms that replay binaries alone have.
#![tactic(auto)]

pub mod appended_types;
mod copies;
mod encoding_laws;
pub mod forms;
pub mod instructions;
pub mod laws;
pub mod limits;
mod list_sizes;
pub mod lists;
pub mod modules;
pub mod names;
pub mod profile;
pub mod signatures;
pub mod values;

pub use appended_types::Types;
pub use base::NoMemory;
pub use encoding_laws::{encoding_forms, fault_places, module_encoding, shortest_encoding};
pub use forms::Form;
pub use instructions::{Body, Instr, Labels, MemArg};
pub use laws::{bodies_are_read, typing_is_checked, validity_is_decided};
pub use list_sizes::lists_of_encoding;
pub use lists::{Bytes, Indices, Item, List};
pub use modules::{
    Custom, Customs, DataSeg, DataSegs, ElemSeg, ElemSegs, Export, ExportKind, Exports, Func,
    Funcs, Global, Globals, Import, ImportKind, Imports, LimitsList, Module, Run, Runs,
};
pub use names::Name;
pub use profile::{Feature, Which};
pub use signatures::{FuncType, FuncTypes, GlobalType, Limits};
pub use values::{Val, ValType, ValTypes, Vals};
