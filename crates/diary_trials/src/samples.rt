// Series, pairs and entries that the tests share.
use diary::entries::Entry;
use refusal::Refusal;
use series::changes::{Alteration, Change, Override};
use series::clocks::Clock;
use series::durations::Duration;
use series::overrides::Overrides;
use series::records::Series;
use series::stamps::Stamp;
use series::stored::StoredSeries;
use series::texts::Text;
use series::uids::Uid;
use source::intervals::Interval;
use store::pairs::Pair;

pub const STAMP: &[u8] = b"20240101T120000Z";

// Every other Sunday from 7 January 2024 on, three times.
pub fn sundays() -> Result<Interval, Refusal> {
    Interval::new(45_296, 14, 3)
}

// A pair whose text is its UID.
pub fn pair(uid: &[u8]) -> Result<Pair<Interval>, Refusal> {
    Ok(Pair {
        uid: Uid::new(uid)?,
        series: StoredSeries {
            repeats: Series {
                source: sundays()?,
                clock: Clock::new(1110)?,
                duration: Duration::new(45)?,
                text: Text::new(uid)?,
            },
            stamp: Stamp::new(STAMP)?,
            overrides: Overrides::none(),
        },
    })
}

pub fn entry<'a>(
    source: Interval,
    clock: u32,
    text: &'a [u8],
    overrides: Overrides,
) -> Entry<'a, Interval> {
    Entry {
        source,
        clock,
        duration: 45,
        text,
        stamp: STAMP,
        overrides,
    }
}

pub fn altered(day: u32, start: u32, text: &[u8]) -> Result<Override, Refusal> {
    Ok(Override {
        day,
        change: Change::Altered(Alteration {
            start,
            text: Text::new(text)?,
        }),
    })
}

pub fn cancelled(day: u32) -> Override {
    Override {
        day,
        change: Change::Cancelled,
    }
}
