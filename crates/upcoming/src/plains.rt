// The days of a series without an override.
ghost use Rattle.std.specs.Prelude.{◌≡◌, ℕ, ◌<◌, ◌≤◌};
ghost use Rattle.series.specs.Plans.{plan_of};
ghost use Rattle.upcoming.specs.Kinds.{Plain, PlainFrom};
ghost use Rattle.upcoming.specs.Least.{Next};

use crate::first_days::first_day;
use crate::keys::Key;
use calendar::starts::DAY_MINUTES;
use series::stored::StoredSeries;
use source::sources::Source;
use source::walks::days_from;

// The first day from a number on that has no override.
pub(crate) fn first_plain<S: Source>(series: &StoredSeries<S>, day: u32) -> Option<u32>
    ensures { PlainFrom (plan_of S.Source.days series.now) day result }
{
    days_from(&series.repeats.source, day).find(|found| series
        .overrides
        .change_on(*found)
        .is_none())
}

// The next occurrence without an override.
pub(crate) fn next_plain<S: Source>(series: &StoredSeries<S>, from: Key, end: u32) -> Option<Key>
    ensures { Next (Plain (plan_of S.Source.days series.now)) from.start from.day end result }
{
    let clock = series.repeats.clock.minutes();
    let day = first_plain(series, first_day(clock, from))?;
    let start = day * DAY_MINUTES + clock as u32;
    (start < end).then_some(Key { start, day })
}
