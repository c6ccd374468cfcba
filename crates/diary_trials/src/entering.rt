// What enter accepts and refuses, in order.
use crate::samples::{STAMP, cancelled, entry, sundays};
use diary::diaries::Diary;
use diary::entries::Entry;
use refusal::Refusal;
use series::overrides::Overrides;
use source::intervals::Interval;
use source::sources::Source;
use std::test::Fail;
use table::tables::Table;
use undo::logs::UndoLog;

#[test]
fn refusals_in_order(rt: HostRuntime) -> Result<(), Fail> {
    let heap = rt.alloc();
    let table: Table<Interval> = Table::new(heap, 1)?;
    let mut diary = Diary::new(heap, table)?;
    let mut short = UndoLog::new(heap, 15)?;
    let mut log = UndoLog::new(heap, 16)?;
    let good = entry(sundays()?, 1110, b"Evensong", Overrides::none());
    let late = entry(sundays()?, 1440, b"Evensong", Overrides::none());
    let empty = entry(
        sundays()?.head(0),
        1110,
        b"Evensong",
        Overrides::new(&[cancelled(1)])?,
    );
    let off = entry(
        sundays()?,
        1110,
        b"Evensong",
        Overrides::new(&[cancelled(45_297)])?,
    );
    assert_eq!(rt;
        diary.enter(&mut short, b"", &late),
        Err(Refusal::ShortUndoLog)
    );
    assert_eq!(rt;
        diary.enter(&mut log, b"", &good),
        Err(Refusal::OutOfBounds)
    );
    assert_eq!(rt;
        diary.enter(&mut log, b"e", &late),
        Err(Refusal::OutOfBounds)
    );
    assert_eq!(rt;
        diary.enter(&mut log, b"e", &empty),
        Err(Refusal::EmptySource)
    );
    assert_eq!(rt; diary.enter(&mut log, b"e", &off), Err(Refusal::OffSource));
    assert_eq!(rt; diary.enter(&mut log, b"e", &good), Ok(()));
    assert_eq!(rt;
        diary.enter(&mut log, b"e", &empty),
        Err(Refusal::UidPresent)
    );
    assert_eq!(rt; diary.enter(&mut log, b"f", &off), Err(Refusal::OffSource));
    assert_eq!(rt; diary.enter(&mut log, b"f", &good), Err(Refusal::StoreFull));
    Ok(())
}

#[test]
fn values_at_their_bounds(rt: HostRuntime) -> Result<(), Fail> {
    let heap = rt.alloc();
    let table: Table<Interval> = Table::new(heap, 4)?;
    let mut diary = Diary::new(heap, table)?;
    let mut log = UndoLog::new(heap, 20)?;
    let days = sundays()?;
    let long = Entry {
        source: days,
        clock: 1439,
        duration: 1440,
        text: b"x",
        stamp: STAMP,
        overrides: Overrides::none(),
    };
    let longer = Entry {
        source: days,
        clock: 1439,
        duration: 1441,
        text: b"x",
        stamp: STAMP,
        overrides: Overrides::none(),
    };
    assert_eq!(rt; diary.enter(&mut log, &[b'u'; 64], &long), Ok(()));
    assert_eq!(rt;
        diary.enter(&mut log, &[b'u'; 65], &long),
        Err(Refusal::OutOfBounds)
    );
    assert_eq!(rt;
        diary.enter(&mut log, b"u", &longer),
        Err(Refusal::OutOfBounds)
    );
    Ok(())
}
