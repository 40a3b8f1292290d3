// The numbers of functions, types and globals that a guarded module keeps.

/// The numbers of functions, types and globals of a replay module, of its imports, of the first function that is
/// appended, and of the functions that a guarded module has for the digest of its memory.
#[derive(Clone, Copy)]
pub struct Numbers {
    pub funcs: u32,
    pub types: u32,
    pub globals: u32,
    pub imports: u32,
    pub past: u32,
    pub digests: u32,
}
