// Date lists at their bounds, unions, and the two parts of a cut.
use dates::dates::DateList;
use dates::unions::Union;
use source::cuts::parts;
use source::intervals::Interval;
use source::sources::Source;
use std::process::Abort;
use std::test::Fail;

fn refused(rt: &impl Abort, days: &[u32]) {
    let refusal = DateList::new(days).err();
    assert_eq!(rt; refusal.map(|refusal| refusal.number()), Some(8));
}

#[test]
fn bounds_of_date_lists(rt: HostRuntime) -> Result<(), Fail> {
    let many = [
        0, 1, 2, 3, 4, 5, 6, 7, 8, 9, 10, 11, 12, 13, 14, 15, 16, 17, 18, 19, 20, 21, 22, 23, 24,
    ];
    DateList::new(&[])?;
    DateList::new(&many[0..24])?;
    refused(&rt, &many[0..25]);
    DateList::new(&[0, 109_572])?;
    refused(&rt, &[109_573]);
    refused(&rt, &[7, 7]);
    refused(&rt, &[8, 7]);
    Ok(())
}

#[test]
fn a_union_has_no_day_twice(rt: HostRuntime) -> Result<(), Fail> {
    let both = Union {
        first: Interval::new(7, 7, 3)?,
        dates: DateList::new(&[3, 14, 30])?,
    };
    assert_eq!(rt; both.first_at(0), Some(3));
    assert_eq!(rt; both.first_at(4), Some(7));
    assert_eq!(rt; both.first_at(8), Some(14));
    assert_eq!(rt; both.first_at(15), Some(21));
    assert_eq!(rt; both.first_at(22), Some(30));
    assert_eq!(rt; both.first_at(31), None);
    let (head, tail) = parts(&both, 14);
    assert_eq!(rt; head.first_at(8), None);
    assert_eq!(rt; tail.first_at(0), Some(14));
    Ok(())
}
