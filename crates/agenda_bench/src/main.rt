// What an agenda costs: so many weekly series that began in some year, and the agenda of 2024, so many times.
#![tactic(auto)]

use anyhow::anyhow;
use calendar::date::Date;
use calendar::days::day_of;
use calendar::starts::{DAY_MINUTES, Moment, STARTS_END};
use calendar::windows::Window;
use dates::dates::DateList;
use dates::unions::Union;
use diary::diaries::Diary;
use diary::entries::Entry;
use notation::dates::read_day;
use notation::digits::number_of;
use page::pages::Page;
use refusal::Refusal;
use rule::rules::Rule;
use rule_text::reading::read_rule;
use series::changes::{Alteration, Change, Override};
use series::overrides::Overrides;
use series::texts::Text;
use source::sources::Source;
use std::env::Env;
use table::tables::Table;
use undo::logs::UndoLog;

// Room for the longest page that is asked for.
const PAGE_OCTETS: usize = 4 * 1024 * 1024;

// The minutes of 2024.
const YEAR_2024: Window = Window {
    from: 45_290 * DAY_MINUTES,
    end: 45_656 * DAY_MINUTES,
};

// The number that an argument is.
fn argument(rt: &HostRuntime, place: usize) -> Option<u32> {
    let mut word = [0; 8];
    let len = rt.arg(place, &mut word).ok()?;
    number_of(word.get(..len)?).ok()
}

// The UID s000 to s999: in place, so that no text asks for memory.
fn uid_of(number: u32) -> [u8; 4] {
    [
        b's',
        b'0' + (number / 100 % 10) as u8,
        b'0' + (number / 10 % 10) as u8,
        b'0' + (number % 10) as u8,
    ]
}

// A weekly series from a day of a year's first week on, at a clock of its own; its occurrence of a week in 2024 is moved by a day.
fn weekly(first: u32, number: u32) -> Result<Entry<'static, Union<Rule>>, Refusal> {
    let clock = 480 + number % 24 * 30;
    let start = Moment {
        day: first.saturating_add(number % 7),
        clock: clock as u16,
    };
    let rule = read_rule(b"FREQ=WEEKLY", start)?;
    let overrides = match rule.first_at(read_day(b"20240610")?) {
        Some(day) => Overrides::new(&[Override {
            day,
            change: Change::Altered(Alteration {
                start: day
                    .saturating_mul(DAY_MINUTES)
                    .saturating_add(2000)
                    .min(STARTS_END - 1),
                text: Text::new(b"Moved")?,
            }),
        }])?,
        None => Overrides::none(),
    };
    Ok(Entry {
        source: Union::new(rule, DateList::new(&[])?),
        clock,
        duration: 60,
        text: b"Service",
        stamp: b"20240101T120000Z",
        overrides,
    })
}

fn main(rt: HostRuntime) -> anyhow::Result<()> {
    let heap = rt.alloc();
    let count = argument(&rt, 1).unwrap_or(0).min(1000);
    let year = argument(&rt, 2).unwrap_or(0) % 10_000;
    let times = argument(&rt, 3).unwrap_or(0);
    let table: Table<Union<Rule>> = Table::new(heap, count as usize)?;
    let mut diary = Diary::new(heap, table)?;
    let mut log = UndoLog::new(heap, 16)?;
    let mut entered = 0u32;
    let first = day_of(Date {
        year: year as u16,
        month: 1,
        day: 1,
    });
    for number in 0..count {
        let entry = first
            .ok_or(Refusal::OutOfBounds)
            .and_then(|first| weekly(first, number))
            .map_err(|_| anyhow!("a series cannot be made"))?;
        if diary.enter(&mut log, &uid_of(number), &entry).is_ok() {
            entered = entered.saturating_add(1);
        }
    }
    let mut octets = vec![in heap; 0; PAGE_OCTETS]?;
    let mut page = Page::new(octets.as_mut_slice());
    let mut lines = 0;
    for _ in 0..times {
        page.len = 0;
        lines = diary
            .agenda(YEAR_2024, &mut page)
            .map_err(|_| anyhow!("the page is refused"))?;
    }
    println!(rt; "{entered} series, {lines} lines")?;
    Ok(())
}
