// What the arguments of hook calls report.

use wasm_syntax::Val;

/// The address of a load or a store, as a base and an offset, and the number of its bytes.
#[derive(Clone, Copy)]
pub struct Access {
    pub base: u64,
    pub offset: u64,
    pub width: u64,
}

/// The index of a table entry, which may not exist, and the function of the original in it, `None` if the entry
/// is empty or does not exist.
#[derive(Clone, Copy)]
pub struct EntryCall {
    pub index: u64,
    pub callee: Option<u32>,
}

/// A global and a value of its type.
#[derive(Clone, Copy)]
pub struct ReportedGlobal {
    pub global: u32,
    pub value: Val,
}
