// What a module exports, by name.

ghost use Rattle.std.specs.Prelude.{◌≡◌, IfOk};
ghost use Rattle.module_names.specs.Names.{export_of};

use base::NoMemory;
use indexmap::IndexMap;
use std::alloc::Global;
use std::marker::Model;
use wasm_syntax::{ExportKind, Module};

/// The exports of a module, with an index of their names.
#[derive(Drop)]
pub(crate) struct Exports<'a> {
    source: &'a Module,
    kinds: IndexMap<&'a str, ExportKind>,
}

impl<'a> Model for Exports<'a> {
    ghost use Rattle.wasm_syntax.specs.declared.modules.Module.{Module};
    ghost use Rattle.module_names.specs.Indexes.{HoldsExports};

    ghost Value = { Module };

    ghost view = { λ exports. exports.source.now };

    ghost invariant = { λ exports. HoldsExports exports.kinds.entries exports.source.now };
}

impl<'a> Exports<'a> {
    /// The exports of a module.
    pub(crate) fn of(alloc: Global, module: &'a Module) -> Result<Exports<'a>, NoMemory>
        ensures { IfOk result (λ exports. exports ≡ «module».now) }
    {
        let mut kinds = IndexMap::new(alloc);
        'exports: for export in module.exports.as_slice() {
            let name = export.name.as_str();
            if !kinds.contains_key(name) {
                kinds.insert(name, export.kind)?;
            }
        }
        Ok(Exports {
            source: module,
            kinds,
        })
    }

    /// What is exported under a name.
    pub(crate) fn get(&self, name: &str) -> Option<ExportKind>
        ensures { result ≡ export_of self.now name.now }
    {
        self.kinds.get(name).copied()
    }
}
