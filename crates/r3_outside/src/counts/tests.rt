use super::Counts;
use std::test::Fail;

#[test]
fn what_is_counted_for_a_name_counts_for_no_other(rt: HostRuntime) -> Result<(), Fail> {
    let mut counts = Counts::new(rt.alloc());
    for (name, more) in [("a", 1), ("b", 5), ("a", 2), ("", u64::MAX), ("", 1)] {
        counts.add(name, more);
    }
    assert!(rt; counts.listed.get("a").copied() == Some(3));
    assert!(rt; counts.listed.get("b").copied() == Some(5));
    assert!(rt; counts.listed.get("").copied() == Some(u64::MAX));
    assert!(rt; counts.listed.get("c").is_none());
    assert!(rt; counts.unlisted == 0);
    Ok(())
}
