// The number of a day's period.
ghost use Rattle.std.specs.Prelude.{◌≡◌, ℕ, ◌<◌};
ghost use Rattle.pattern.specs.Periods.{period_in};

use crate::dated::Dated;
use crate::day::Day;
use recurrence::parts::{Frequency, Pattern};

pub(crate) fn period_of(pattern: &Pattern, day: Day) -> u32
    ensures { result ≡ period_in pattern.now day.number }
{
    match pattern.frequency {
        Frequency::Daily => day.number,
        Frequency::Weekly => (day.number + 7 - u32::from(u8::from(pattern.week_start))) / 7,
        Frequency::Monthly => {
            let date = Dated::new(day).date;
            12 * date.year as u32 + date.month as u32
        }
        Frequency::Yearly => Dated::new(day).date.year as u32,
    }
}
