// Names of exports.

ghost use Rattle.std.specs.Prelude.{◌≡◌, ◌||◌, not, bytes_eq, List, ℕ, IfOk, OnOk};
ghost use Rattle.wasm_syntax.specs.ValidityTests.{names_differ as names_are_distinct};
ghost use Rattle.wasm_validate.specs.Names.{set_has};

use base::NoMemory;
use std::alloc::Global;
use std::collections::BTreeSet;
use wasm_syntax::Export;

/// No export is named as another.
pub(crate) fn names_differ(alloc: Global, exports: &[Export]) -> Result<bool, NoMemory>
    ensures { IfOk result (λ differ. differ ≡ names_are_distinct exports.now) }
{
    let mut names = BTreeSet::new(alloc);
    'exports: for export in exports {
        if !add(&mut names, export.name.as_str())? {
            return Ok(false);
        }
    }
    Ok(true)
}

/// Adds a name, and returns whether it is new.
fn add<'a>(names: &mut BTreeSet<&'a str>, name: &'a str) -> Result<bool, NoMemory>
    ensures added { IfOk result (λ added. added ≡ not (set_has names.old name.now)) }
    ensures known { OnOk result (
        (other : List ℕ) → set_has names.new other ≡ (bytes_eq other name.now || set_has names.old other)) }
{
    Ok(names.insert(name)?)
}
