// Ranges of a table's entries.

ghost use Rattle.std.specs.Prelude.{◌≡◌, ℕ, ◌+◌, ◌≤◌, List, length, Option, Some, None, OnOk, OnErr, map};
ghost use Rattle.wasm_store.specs.Calls.{with_funcs_at};

use crate::bounds::OutOfTable;
use crate::bytes::end_of;

/// Replaces as many entries by functions.
fn replace(part: &mut [Option<u32>], funcs: &[u32])
    requires { length part.old ≡ length funcs.now }
    ensures { part.new ≡ map (λ func. Some func) funcs.now }
{
    for at in 0..funcs.len() {
        part[at] = Some(funcs[at]);
    }
}

/// Puts functions into the entries from `index` on.
pub(crate) fn put_funcs(
    entries: &mut [Option<u32>],
    index: u64,
    funcs: &[u32],
) -> Result<(), OutOfTable>
    ensures ok { OnOk result (with_funcs_at entries.old index funcs.now ≡ Some entries.new) }
    ensures err { OnErr result (with_funcs_at entries.old index funcs.now ≡ None) }
    ensures same { OnErr result (entries.new ≡ entries.old) }
{
    let Ok(end) = end_of(entries.len(), index, funcs.len() as u64) else {
        return Err(OutOfTable);
    };
    replace(&mut entries[index as usize..end], funcs);
    Ok(())
}
