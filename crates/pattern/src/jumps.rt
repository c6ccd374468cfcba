// From one active period to the next, by arithmetic.
ghost use Rattle.std.specs.Prelude.{◌≡◌, ℕ, ◌+◌, ◌%◌, ◌<◌, ◌≤◌, false, ◌==◌};
ghost use Rattle.std.specs.Option.{option_map};
ghost use Rattle.calendar.specs.Dates.{month_of};
ghost use Rattle.calendar.specs.Weekdays.{weekday_number};
ghost use Rattle.recurrence.specs.declared.parts.Frequency.TheVariants.{Monthly};
ghost use Rattle.pattern.specs.Periods.{active};
ghost use Rattle.pattern.specs.Openings.{OpensIf, least, most};
ghost use Rattle.pattern.specs.First.{First};

use crate::dated::{Dated, month_start};
use crate::day::Day;
use crate::period::period_of;
use crate::started::Started;
use calendar::days::LAST_DAY;
use recurrence::parts::{Frequency, Pattern};

// The least number from `here` on that leaves `rest` by `interval`.
#[tactic(auto, using(crate::proofs::Strides::stride_near, crate::proofs::Strides::stride_far))]
fn stride(here: u32, rest: u32, interval: u32) -> u32
    requires { (rest < interval) × ((here ≤ 1000000) × (interval ≤ 999)) }
    ensures range { (here ≤ result) × (result < here + interval) }
    ensures passed { (k : ℕ) → here ≤ k → k < result → (k % interval == rest) ≡ false }
    ensures value { result % interval ≡ rest }
{
    let past = here % interval;
    if past <= rest {
        here + (rest - past)
    } else {
        here + (rest + interval - past)
    }
}

// The first day of a month, by its number: twelve for each year, and one for each month.
#[tactic(auto, using(crate::proofs::Periods::month_opens))]
fn month_opening(number: u32) -> Option<Day>
    requires { (22801 ≤ number) × (number ≤ 28000) }
    ensures { (w : ℕ) → OpensIf Monthly w number (option_map (λ d. d.number) result) }
{
    month_start(((number - 1) / 12) as u16, ((number - 1) % 12 + 1) as u8)
}

// The day after a day's month.
pub(crate) fn month_end(day: Day) -> u32
    ensures range { (day.number < result) × (result ≤ 109573) }
    ensures same { (k : ℕ) → day.number ≤ k → k < result → month_of k ≡ month_of day.number }
{
    let date = Dated::new(day).date;
    month_opening(12 * date.year as u32 + date.month as u32 + 1).map_or(
        LAST_DAY + 1,
        |first| first.number,
    )
}

// The first day of a period, or none past the calendar.
#[tactic(auto, using(crate::proofs::Periods::day_opens, crate::proofs::Periods::week_opens, crate::proofs::Periods::year_opens))]
fn opening_of(pattern: &Pattern, number: u32) -> Option<Day>
    requires { (least pattern.now.frequency ≤ number) × (number ≤ most pattern.now.frequency) }
    ensures { OpensIf pattern.now.frequency (weekday_number pattern.now.week_start) number (option_map (λ d. d.number) result) }
{
    match pattern.frequency {
        Frequency::Daily => Day::new(number),
        Frequency::Weekly => Day::new(7 * number + u32::from(u8::from(pattern.week_start)) - 7),
        Frequency::Monthly => month_opening(number),
        Frequency::Yearly => month_start(number as u16, 1),
    }
}

impl Started<'_> {
    // The first day from `day` on that lies in an active period.
    #[tactic(auto, using(crate::proofs::Periods::floor, crate::proofs::Periods::ceiling, crate::proofs::Ahead::most_least))]
    pub(crate) fn next_active(self, day: Day) -> Option<Day>
        ensures { First (active self.entry.pattern.now self.entry.start.number) day.number 109573 (option_map (λ d. d.number) result) }
    {
        let here = period_of(self.pattern, day);
        let next = stride(here, self.phase, self.pattern.interval);
        if next == here {
            return Some(day);
        }
        opening_of(self.pattern, next)
    }
}
