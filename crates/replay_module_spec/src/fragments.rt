// The generated part of a replay module, for any module.

use wasm_syntax::{FuncTypes, Funcs, Globals, Indices};

/// What `replay_module` has in addition to the original's own parts: a body for each imported function, by
/// index; helper functions, types and globals after all of the original's; the index of the helper that is
/// exported as `_start`; and the functions that bodies refer to by `ref.func`.
#[derive(Debug, Drop)]
pub struct Fragment {
    pub bodies: Funcs,
    pub helpers: Funcs,
    pub entry: u32,
    pub types: FuncTypes,
    pub globals: Globals,
    pub declared: Indices,
}
