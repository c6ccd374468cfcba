// A pattern that may be asked, and the start that its periods count from.
ghost use Rattle.std.specs.Prelude.{◌≡◌, ℕ, ◌%◌, ◌<◌, MatchOption};
ghost use Rattle.pattern.specs.Periods.{period_in};
ghost use Rattle.pattern.specs.Asked.{Usable};

use crate::day::Day;
use crate::period::period_of;
use recurrence::parts::Pattern;

#[derive(Clone, Copy)]
pub(crate) struct Started<'a> {
    pub(crate) pattern: &'a Pattern,
    pub(crate) start: Day,
    // what the numbers of the active periods leave by the interval
    pub(crate) phase: u32,
    ghost usable: { Usable pattern.now },
    ghost phased: { phase ≡ period_in pattern.now start.number % pattern.now.interval },
}

impl<'a> Started<'a> {
    // None where the start is not in the calendar, or the pattern is not usable.
    pub(crate) fn new(pattern: &'a Pattern, start: u32) -> Option<Started<'a>>
        ensures { MatchOption result (Usable pattern.now → start < 109573 → ⊥) (λ s. (s.pattern.now ≡ pattern.now) × (s.start.number ≡ start)) }
    {
        let start = Day::new(start)?;
        // `then(|| Started { .. })` was tried: `invariant_of-result` of the closure stays open
        if (1..=999).contains(&pattern.interval)
            && pattern.months.len <= 12
            && pattern.month_days.len <= 12
            && pattern.week_days.len <= 12
        {
            Some(Started {
                pattern,
                start,
                phase: period_of(pattern, start) % pattern.interval,
            })
        } else {
            None
        }
    }
}
