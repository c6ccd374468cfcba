// Intervals made at their bounds, and cut at every edge.
use source::intervals::Interval;
use source::sources::Source;
use source::walks::days_from;
use std::process::Abort;
use std::test::Fail;

// A source has these days, and no other.
fn has_days(rt: &impl Abort, source: &Interval, days: &[u32]) {
    assert!(rt; days_from(source, 0).eq(days.iter().copied()));
}

fn refused(rt: &impl Abort, start: u32, step: u32, count: u32) {
    let refusal = Interval::new(start, step, count).err();
    assert_eq!(rt; refusal.map(|refusal| refusal.number()), Some(8));
}

#[test]
fn bounds(rt: HostRuntime) -> Result<(), Fail> {
    Interval::new(0, 1, 1)?;
    Interval::new(109_572, 999, 10_000)?;
    refused(&rt, 109_573, 1, 1);
    refused(&rt, 0, 0, 1);
    refused(&rt, 0, 1000, 1);
    refused(&rt, 0, 1, 0);
    refused(&rt, 0, 1, 10_001);
    Ok(())
}

#[test]
fn cuts_at_every_edge(rt: HostRuntime) -> Result<(), Fail> {
    let all = Interval::new(45_296, 14, 3)?;
    let three = [45_296, 45_310, 45_324];
    has_days(&rt, &all, &three);
    has_days(&rt, &all.head(0), &[]);
    has_days(&rt, &all.tail(0), &three);
    has_days(&rt, &all.head(45_296), &[]);
    has_days(&rt, &all.tail(45_296), &three);
    has_days(&rt, &all.head(45_297), &[45_296]);
    has_days(&rt, &all.tail(45_297), &[45_310, 45_324]);
    has_days(&rt, &all.head(45_324), &[45_296, 45_310]);
    has_days(&rt, &all.tail(45_324), &[45_324]);
    has_days(&rt, &all.head(45_325), &three);
    has_days(&rt, &all.tail(45_325), &[]);
    has_days(&rt, &all.head(u32::MAX), &three);
    has_days(&rt, &all.tail(u32::MAX), &[]);
    Ok(())
}

#[test]
fn none_past_the_last_day(rt: HostRuntime) -> Result<(), Fail> {
    let long = Interval::new(109_570, 1, 10_000)?;
    let last = [109_570, 109_571, 109_572];
    has_days(&rt, &long, &last);
    has_days(&rt, &long.head(u32::MAX), &last);
    has_days(&rt, &long.tail(109_572), &[109_572]);
    has_days(&rt, &long.tail(109_573), &[]);
    assert_eq!(rt; long.first_at(109_573), None);
    Ok(())
}
