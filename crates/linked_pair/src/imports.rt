// The imports of a linked module.

ghost use Rattle.std.specs.Prelude.{◌≡◌, ◌++◌, map, IfOk};
ghost use Rattle.pair_spec.specs.Pairs.{host_imports};
ghost use Rattle.pair_spec.specs.Linked.{linked_import, linked_import_kind};
ghost use Rattle.linked_pair.specs.SideNumbers.{instance_by};

use crate::numbers::SideNumbers;
use base::NoMemory;
use instance_spec::Side;
use pair_ends::is_from_other;
use renamed_modules::Numbering;
use wasm_syntax::{Import, ImportKind, Imports, List};

/// Imports, and after them those of a side that are the host's.
pub(crate) fn with_linked_imports(
    numbers: &SideNumbers,
    side: Side,
    before: Imports,
    imports: &[Import],
) -> Result<Imports, NoMemory>
    ensures { IfOk result (λ list. list
        ≡ before ++ map (linked_import (instance_by numbers.now)) (host_imports side imports.now)) }
{
    let mut list = before.into_vec();
    'imports: for import in imports {
        if !is_from_other(side, import) {
            list.push(linked_import(numbers, import)?)?;
        }
    }
    Ok(List::from_vec(list))
}

/// An import of the host with the number of its type.
fn linked_import(numbers: &SideNumbers, import: &Import) -> Result<Import, NoMemory>
    ensures { IfOk result (λ made. made ≡ linked_import (instance_by numbers.now) import.now) }
{
    let module = import.module.clone()?;
    let name = import.name.clone()?;
    Ok(Import {
        module,
        name,
        kind: linked_import_kind(numbers, import.kind),
    })
}

/// What an import of the host brings in, with the number of its type if it is a function.
fn linked_import_kind(numbers: &SideNumbers, kind: ImportKind) -> ImportKind
    ensures { result ≡ linked_import_kind (instance_by numbers.now) kind }
{
    match kind {
        ImportKind::Func(ty) => ImportKind::Func(numbers.ty(ty)),
        other => other,
    }
}
