// Which days a pattern picks.
ghost use Rattle.std.specs.Prelude.{◌≡◌, ℕ, ◌<◌, true, false};
ghost use Rattle.calendar.specs.Dates.{month_of};
ghost use Rattle.recurrence.specs.Entries.{given};
ghost use Rattle.pattern.specs.Picks.{in_month, facts, listed, implied, picked};

use crate::dated::Dated;
use crate::day::Day;
use crate::entry::allowed;
use crate::facts::Facts;
use crate::started::Started;
use recurrence::parts::{Frequency, Pattern};

// Its weekdays are counted in the month.
fn in_month(pattern: &Pattern) -> bool
    ensures { result ≡ in_month pattern.now.frequency (given pattern.now.months) }
{
    match pattern.frequency {
        Frequency::Daily | Frequency::Weekly => false,
        Frequency::Monthly => true,
        Frequency::Yearly => !pattern.months.is_empty(),
    }
}

fn is_listed(pattern: &Pattern, facts: &Facts) -> bool
    ensures { result ≡ listed pattern.now facts.now }
{
    allowed(&pattern.months, facts)
        && allowed(&pattern.month_days, facts)
        && allowed(&pattern.week_days, facts)
}

impl Started<'_> {
    fn is_implied(self, day: Day, seen: &Facts) -> bool
        requires { seen.now ≡ facts (in_month self.pattern.now.frequency (given self.pattern.now.months)) day.number }
        ensures { result ≡ implied self.entry.pattern.now.frequency (given self.entry.pattern.now.months) self.entry.start.number day.number }
    {
        match self.pattern.frequency {
            Frequency::Daily => true,
            Frequency::Weekly => day.number % 7 == self.start.number % 7,
            Frequency::Monthly => seen.day == Dated::new(self.start).date.day,
            Frequency::Yearly => {
                let first = Dated::new(self.start).date;
                seen.day == first.day
                    && (!self.pattern.months.is_empty() || seen.month == first.month)
            }
        }
    }

    pub(crate) fn facts_of(self, day: Day) -> Facts
        ensures { result ≡ facts (in_month self.entry.pattern.now.frequency (given self.entry.pattern.now.months)) day.number }
    {
        Dated::new(day).facts(in_month(self.pattern))
    }

    // No day of the month is picked.
    pub(crate) fn month_shut(self, seen: &Facts) -> bool
        ensures { result ≡ true → (k : ℕ) → month_of k ≡ seen.now.month → picked self.entry.pattern.now self.entry.start.number k ≡ false }
    {
        if !allowed(&self.pattern.months, seen) {
            return true;
        }
        if !self.pattern.months.is_empty()
            || !self.pattern.month_days.is_empty()
            || !self.pattern.week_days.is_empty()
        {
            return false;
        }
        match self.pattern.frequency {
            Frequency::Daily | Frequency::Weekly | Frequency::Monthly => false,
            Frequency::Yearly => seen.month != Dated::new(self.start).date.month,
        }
    }

    // A day with these facts is picked, if its period is active.
    pub(crate) fn is_picked(self, day: Day, seen: &Facts) -> bool
        requires { seen.now ≡ facts (in_month self.pattern.now.frequency (given self.pattern.now.months)) day.number }
        ensures { result ≡ picked self.entry.pattern.now self.entry.start.number day.number }
    {
        is_listed(self.pattern, seen)
            && (!self.pattern.month_days.is_empty()
                || !self.pattern.week_days.is_empty()
                || self.is_implied(day, seen))
    }
}
