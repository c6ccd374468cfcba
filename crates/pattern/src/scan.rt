// The picked days, from one to the next.
ghost use Rattle.std.specs.Prelude.{◌≡◌, ◌<◌, ◌≤◌, true, None, MatchOption};
ghost use Rattle.pattern.specs.Picks.{picked, picks};
ghost use Rattle.pattern.specs.First.{NoneIn, FirstIs, First};
ghost use Rattle.pattern.specs.Asked.{Asked};

use crate::day::Day;
use crate::jumps::month_end;
use crate::started::Started;
use calendar::days::LAST_DAY;
use recurrence::parts::Pattern;

impl Started<'_> {
    // None if the day is picked, else a later one, before which none is picked: a month with no such day is passed
    // at once.
    fn skip(self, day: Day) -> Option<u32>
        ensures { MatchOption result (picked self.entry.pattern.now self.entry.start.number day.number ≡ true) (λ next. (day.number < next) × NoneIn (picked self.entry.pattern.now self.entry.start.number) day.number next) }
    {
        let seen = self.facts_of(day);
        if self.month_shut(&seen) {
            return Some(month_end(day));
        }
        (!self.is_picked(day, &seen)).then_some(day.number + 1)
    }

    // The first picked day from `from` on, before `end`. Days of idle periods are passed at once.
    // The end's bound is no type: it would be opened at each comparison with a day.
    #[tactic(auto, using(crate::proofs::Ahead::idle, crate::proofs::Ahead::left_out, crate::proofs::Ahead::taken_in))]
    fn seek(self, from: u32, end: u32) -> Option<u32>
        requires { end ≤ 109573 }
        ensures { First (picks self.entry.pattern.now self.entry.start.number) from end result }
    {
        // days are passed by months and periods: no index is counted
        let mut day = from;
        while day < end {
            let near = self.next_active(Day { number: day })?;
            if near.number >= end {
                return None;
            }
            let Some(next) = self.skip(near) else {
                return Some(near.number);
            };
            day = next;
        }
        None
    }
}

// The first picked day from `from` on, before `end`; none where too much is asked.
// Two numbers and no range: `from` moves from call to call, and the end stays.
pub fn next_picked(pattern: &Pattern, start: u32, from: u32, end: u32) -> Option<u32>
    ensures first { MatchOption result (Asked pattern.now start from end → NoneIn (picks pattern.now start) from end) (λ d. Asked pattern.now start from end × FirstIs (picks pattern.now start) from end d) }
    ensures unasked { (Asked pattern.now start from end → ⊥) → result ≡ None }
{
    // where no day lies between, the pattern is not looked at
    if from >= end || end > LAST_DAY + 1 {
        return None;
    }
    Started::new(pattern, start)?.seek(from, end)
}
