// The index spaces of what is imported and exported.

ghost use Rattle.std.specs.Prelude.{◌≡◌, is_some};
ghost use Rattle.module_names.specs.Names.{index_in, is_in};

use wasm_syntax::{ExportKind, Import, ImportKind};

/// An index space of what a module imports and exports (Core 1.0, 2.5.1).
#[derive(Clone, Copy)]
pub enum Space {
    Funcs,
    Tables,
    Memories,
    Globals,
}

impl Space {
    /// Whether an import is in this index space.
    pub(crate) fn has_import(self, import: &Import) -> bool
        ensures { result ≡ is_in self import.now }
    {
        match self {
            Space::Funcs => matches!(import.kind, ImportKind::Func(_)),
            Space::Tables => matches!(import.kind, ImportKind::Table(_)),
            Space::Memories => matches!(import.kind, ImportKind::Memory(_)),
            Space::Globals => matches!(import.kind, ImportKind::Global(_)),
        }
    }

    /// Whether what is exported is in this index space.
    pub(crate) fn has_export(self, kind: ExportKind) -> bool
        ensures { result ≡ is_some (index_in self kind) }
    {
        match kind {
            ExportKind::Func(_) => matches!(self, Space::Funcs),
            ExportKind::Table(_) => matches!(self, Space::Tables),
            ExportKind::Memory(_) => matches!(self, Space::Memories),
            ExportKind::Global(_) => matches!(self, Space::Globals),
        }
    }
}
