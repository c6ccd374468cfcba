// A full table, with removals.
use crate::samples::pair;
use refusal::Refusal;
use series::uids::Uid;
use source::intervals::Interval;
use std::test::Fail;
use store::stores::Store;
use table::tables::Table;

// Whether the UIDs of a store, one behind the other, are these octets.
fn has_uids<St: Store>(store: &St, expected: &[u8]) -> bool {
    (0..store.count())
        .filter_map(|place| store.at(place))
        .flat_map(|pair| pair.uid.as_bytes())
        .eq(expected)
}

#[test]
fn a_table_of_two_rows(rt: HostRuntime) -> Result<(), Fail> {
    let mut table: Table<Interval> = Table::new(rt.alloc(), 2)?;
    assert_eq!(rt; table.capacity(), 2);
    assert_eq!(rt; table.put(pair(b"m")?), Ok(()));
    assert_eq!(rt; table.put(pair(b"c")?), Ok(()));
    assert!(rt; has_uids(&table, b"cm"));
    assert_eq!(rt; table.put(pair(b"x")?), Err(Refusal::StoreFull));
    assert!(rt; has_uids(&table, b"cm"));
    assert_eq!(rt; table.put(pair(b"m")?), Ok(()));
    table.remove(&Uid::new(b"x")?);
    assert!(rt; has_uids(&table, b"cm"));
    table.remove(&Uid::new(b"c")?);
    assert!(rt; has_uids(&table, b"m"));
    assert_eq!(rt; table.place(&Uid::new(b"m")?), Some(0));
    assert_eq!(rt; table.place(&Uid::new(b"c")?), None);
    assert_eq!(rt; table.put(pair(b"x")?), Ok(()));
    assert!(rt; has_uids(&table, b"mx"));
    Ok(())
}

#[test]
fn a_table_of_no_rows(rt: HostRuntime) -> Result<(), Fail> {
    let mut table: Table<Interval> = Table::new(rt.alloc(), 0)?;
    assert_eq!(rt; table.put(pair(b"m")?), Err(Refusal::StoreFull));
    assert_eq!(rt; table.count(), 0);
    Ok(())
}
