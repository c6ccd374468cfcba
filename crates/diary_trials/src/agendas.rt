// The agenda at the edges of its window and of its page.
use crate::samples::{altered, cancelled, entry, sundays};
use calendar::windows::Window;
use diary::diaries::Diary;
use page::pages::Page;
use refusal::Refusal;
use series::overrides::Overrides;
use source::intervals::Interval;
use std::alloc::Global;
use std::process::Abort;
use std::test::Fail;
use table::tables::Table;
use undo::logs::UndoLog;

// The 7th of January 2024 and the minutes of a day.
const SUNDAY: u32 = 45_296;

const DAY: u32 = 1440;

// Two series of three Sundays: b at 18:30, of which the second is moved to the Monday after at 10:00; a at 18:30, of which the first is cancelled.
fn two_series(rt: &impl Abort, heap: Global) -> Result<Diary<Table<Interval>>, Fail> {
    let table: Table<Interval> = Table::new(heap, 3)?;
    let mut diary = Diary::new(heap, table)?;
    let mut log = UndoLog::new(heap, 16)?;
    let moved = Overrides::new(&[altered(SUNDAY + 14, (SUNDAY + 15) * DAY + 600, b"Moved")?])?;
    assert_eq!(rt;
        diary.enter(&mut log, b"b", &entry(sundays()?, 1110, b"B", moved)),
        Ok(())
    );
    let gone = Overrides::new(&[cancelled(SUNDAY)])?;
    assert_eq!(rt;
        diary.enter(&mut log, b"a", &entry(sundays()?, 1110, b"A", gone)),
        Ok(())
    );
    Ok(diary)
}

// Whether the page of a window has these octets.
fn prints(diary: &mut Diary<Table<Interval>>, from: u32, end: u32, expected: &[u8]) -> bool {
    let mut octets = [0; 200];
    let mut page = Page::new(&mut octets);
    let answer = diary.agenda(Window { from, end }, &mut page);
    answer.is_ok() && page.written() == expected
}

#[test]
fn the_whole_page(rt: HostRuntime) -> Result<(), Fail> {
    let mut diary = two_series(&rt, rt.alloc())?;
    assert!(rt;
        prints(
            &mut diary,
            0,
            157_785_120,
            b"20240107,1830,45,b,B\n20240121,1830,45,a,A\n20240122,1000,45,b,Moved\n20240204,1830,45,a,A\n20240204,1830,45,b,B\n",
        )
    );
    Ok(())
}

// The moved one is on its new day's page, though its own day is not in that window; and not on its own day's.
#[test]
fn a_moved_one_by_its_shown_start(rt: HostRuntime) -> Result<(), Fail> {
    let mut diary = two_series(&rt, rt.alloc())?;
    let own = SUNDAY + 14;
    assert!(rt;
        prints(
            &mut diary,
            (own + 1) * DAY,
            (own + 2) * DAY,
            b"20240122,1000,45,b,Moved\n"
        )
    );
    assert!(rt;
        prints(
            &mut diary,
            own * DAY,
            (own + 1) * DAY,
            b"20240121,1830,45,a,A\n"
        )
    );
    Ok(())
}

#[test]
fn an_empty_window_and_refusals(rt: HostRuntime) -> Result<(), Fail> {
    let mut diary = two_series(&rt, rt.alloc())?;
    let at = SUNDAY * DAY + 1110;
    assert!(rt; prints(&mut diary, at, at, b""));
    assert!(rt; prints(&mut diary, at, at + 1, b"20240107,1830,45,b,B\n"));
    assert!(rt; prints(&mut diary, 157_785_120, 157_785_120, b""));
    let mut octets = [0; 4];
    let mut page = Page {
        octets: &mut octets,
        len: 5,
    };
    let backwards = Window { from: 1, end: 0 };
    let late = Window {
        from: 0,
        end: 157_785_121,
    };
    let none = Window { from: 0, end: 0 };
    assert_eq!(rt; diary.agenda(backwards, &mut page), Err(Refusal::BadWindow));
    assert_eq!(rt; diary.agenda(late, &mut page), Err(Refusal::BadWindow));
    assert_eq!(rt; diary.agenda(none, &mut page), Err(Refusal::PageFull));
    assert_eq!(rt; page.len, 5);
    page.len = 4;
    assert_eq!(rt; diary.agenda(none, &mut page), Ok(0));
    Ok(())
}

#[test]
fn a_page_one_octet_short(rt: HostRuntime) -> Result<(), Fail> {
    let mut diary = two_series(&rt, rt.alloc())?;
    let at = SUNDAY * DAY + 1110;
    let window = Window {
        from: at,
        end: at + 1,
    };
    let mut octets = [0; 21];
    let mut page = Page::new(&mut octets);
    assert_eq!(rt; diary.agenda(window, &mut page), Ok(1));
    assert_eq!(rt; page.len, 21);
    let mut short = [0; 20];
    let mut page = Page::new(&mut short);
    assert_eq!(rt; diary.agenda(window, &mut page), Err(Refusal::PageFull));
    assert_eq!(rt; page.len, 0);
    Ok(())
}
