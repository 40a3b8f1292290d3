//! Pages of an arena.

use page_arena::PageArena;
use std::test::Fail;

#[test]
fn a_copied_page_is_apart_from_the_one_that_it_is_copied_from(rt: HostRuntime) -> Result<(), Fail> {
    let mut arena = PageArena::new(rt.alloc());
    let first = arena.new_page()?;
    let second = arena.new_page()?;
    arena.page_mut(first)[0] = 7;
    let copy = arena.copy_page(first)?;
    arena.page_mut(first)[0] = 9;
    assert!(rt; arena.page(first)[0] == 9);
    assert!(rt; arena.page(second)[0] == 0);
    assert!(rt; arena.page(copy)[0] == 7);
    assert!(rt; arena.count() == 3);
    Ok(())
}
