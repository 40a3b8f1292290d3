//! What is known of a table.

use crate::modules::{checked_module, no_supply};
use shadow_tables::ShadowTables;
use std::alloc::Global;
use std::test::Fail;

/// What is known of a table of two empty entries.
#[tactic(auto, using(crate::proofs::Linking::links))]
fn tables_of(alloc: Global) -> Result<ShadowTables, Fail> {
    let checked = checked_module(alloc, 0, &[1])?;
    let supply = no_supply(alloc);
    Ok(ShadowTables::of_opening(alloc, &checked, &supply)?)
}

/// Whether entries that a growth makes are known as empty, and the others as they were.
fn knows_new_entries(alloc: Global) -> Result<bool, Fail> {
    let mut tables = tables_of(alloc)?;
    if tables.known_size() != 2 {
        return Ok(false);
    }
    tables.take_entry(1, Some(5));
    tables.set_known_size(4)?;
    Ok(
        tables.known_size() == 4
            && !tables.entry_differs(0, None)
            && !tables.entry_differs(1, Some(5))
            && tables.entry_differs(1, None)
            && !tables.entry_differs(3, None)
            && tables.entry_differs(3, Some(0)),
    )
}

#[test]
fn new_entries_are_known_as_empty(rt: HostRuntime) -> Result<(), Fail> {
    assert!(rt; knows_new_entries(rt.alloc())?);
    Ok(())
}

/// Whether a table has these two entries, and no others.
fn has_entries(tables: &ShadowTables, first: Option<u32>, second: Option<u32>) -> bool {
    tables.known_size() == 2 && tables.entry(0) == first && tables.entry(1) == second
}

/// Grows a table of two entries and puts a function into it. Returns whether that shows in it.
fn changes(tables: &mut ShadowTables) -> Result<bool, Fail> {
    if tables.known_size() != 2 {
        return Ok(false);
    }
    tables.set_known_size(4)?;
    if tables.known_size() != 4 {
        return Ok(false);
    }
    tables.take_entry(1, Some(6));
    Ok(tables.known_size() == 4 && tables.entry(1) == Some(6))
}

/// Whether changes do not show in a copy.
fn is_copied(alloc: Global) -> Result<bool, Fail> {
    let mut tables = tables_of(alloc)?;
    if tables.known_size() != 2 {
        return Ok(false);
    }
    tables.take_entry(1, Some(5));
    let copy = tables.copy()?;
    let are_seen = changes(&mut tables)?;
    Ok(are_seen && has_entries(&copy, None, Some(5)))
}

#[test]
fn changes_do_not_show_in_a_copy(rt: HostRuntime) -> Result<(), Fail> {
    assert!(rt; is_copied(rt.alloc())?);
    Ok(())
}
