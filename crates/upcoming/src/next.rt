// The next shown occurrence of a series.
ghost use Rattle.series.specs.Plans.{plan_of};
ghost use Rattle.upcoming.specs.Least.{Next};
ghost use Rattle.upcoming.specs.Shown.{Shows};

use crate::keys::Key;
use crate::moves::better_of;
use crate::plains::next_plain;
use series::stored::StoredSeries;
use source::asking::has_day;
use source::sources::Source;

// The next live occurrence from a key on that starts before the end.
// The key goes on from call to call and the end stays, so that they are no one value.
// An altered one counts by its own start, wherever its day lies; the source is asked for it only where it would be the answer.
pub fn next_in<S: Source>(series: &StoredSeries<S>, from: Key, end: u32) -> Option<Key>
    ensures { Next (Shows (plan_of S.Source.days series.now)) from.start from.day end result }
{
    let source = &series.repeats.source;
    let mut best = next_plain(series, from, end);
    for item in series.overrides.as_slice() {
        let moved = better_of(item, from, end, best);
        if let Some(key) = moved.filter(|key| has_day(source, key.day)) {
            best = Some(key);
        }
    }
    best
}
