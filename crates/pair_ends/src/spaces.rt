// The index spaces of what modules import and export.

ghost use Rattle.std.specs.Prelude.{◌≡◌};
ghost use Rattle.pair_spec.specs.Pairs.{Funcs, Globals, Memories, Tables, index_in, is_in};
ghost use Rattle.pair_ends.specs.Spaces.{kind_space, space};

use wasm_syntax::{ExportKind, ImportKind};

/// An index space of what a module imports and exports (Core 1.0, 2.5.1).
#[derive(Clone, Copy)]
pub enum IndexSpace {
    Funcs,
    Tables,
    Memories,
    Globals,
}

/// The index space of an import.
pub(crate) fn space_of(kind: ImportKind) -> IndexSpace
    ensures { result ≡ kind_space kind }
{
    match kind {
        ImportKind::Func(_) => IndexSpace::Funcs,
        ImportKind::Table(_) => IndexSpace::Tables,
        ImportKind::Memory(_) => IndexSpace::Memories,
        ImportKind::Global(_) => IndexSpace::Globals,
    }
}

impl IndexSpace {
    /// Whether an import has its index in this space.
    pub(crate) fn has(self, kind: ImportKind) -> bool
        ensures { result ≡ is_in (space self) kind }
    {
        match self {
            IndexSpace::Funcs => matches!(kind, ImportKind::Func(_)),
            IndexSpace::Tables => matches!(kind, ImportKind::Table(_)),
            IndexSpace::Memories => matches!(kind, ImportKind::Memory(_)),
            IndexSpace::Globals => matches!(kind, ImportKind::Global(_)),
        }
    }

    /// The index of what is exported, if it is in this space.
    pub(crate) fn index(self, kind: ExportKind) -> Option<u32>
        ensures { result ≡ index_in (space self) kind }
    {
        match self {
            IndexSpace::Funcs => func_index(kind),
            IndexSpace::Tables => table_index(kind),
            IndexSpace::Memories => memory_index(kind),
            IndexSpace::Globals => global_index(kind),
        }
    }
}

fn func_index(kind: ExportKind) -> Option<u32>
    ensures { result ≡ index_in Funcs kind }
{
    match kind {
        ExportKind::Func(index) => Some(index),
        _ => None,
    }
}

fn table_index(kind: ExportKind) -> Option<u32>
    ensures { result ≡ index_in Tables kind }
{
    match kind {
        ExportKind::Table(index) => Some(index),
        _ => None,
    }
}

fn memory_index(kind: ExportKind) -> Option<u32>
    ensures { result ≡ index_in Memories kind }
{
    match kind {
        ExportKind::Memory(index) => Some(index),
        _ => None,
    }
}

fn global_index(kind: ExportKind) -> Option<u32>
    ensures { result ≡ index_in Globals kind }
{
    match kind {
        ExportKind::Global(index) => Some(index),
        _ => None,
    }
}
