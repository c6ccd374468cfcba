// Days and their dates, one from the other.
ghost use Rattle.std.specs.Prelude.{◌≡◌, ℕ, ◌+◌, ◌-◌, ◌<◌, ◌≤◌, IfSome, Some};
ghost use Rattle.calendar.specs.Dates.{date_of, date_at, day_at};
ghost use Rattle.calendar.specs.Years.{last_day};
ghost use Rattle.calendar.specs.Laws.{Inverse, Follows, OneDay};

use crate::date::Date;
use crate::months::{days_of, length_of, month_day};
use crate::years::{is_leap, year_of, year_start};

pub const LAST_DAY: u32 = 109_572;

// The date of a day, or none past the last day.
pub fn date_of(day: u32) -> Option<Date>
    ensures value { result ≡ date_at day }
    ensures there { day ≤ last_day → result ≡ Some (date_of day) }
    ensures inverse { Inverse }
    ensures follows { Follows }
{
    if day > LAST_DAY {
        return None;
    }
    let year = year_of(day);
    let found = month_day(is_leap(year), (day - year_start(year)) as u16);
    Some(Date {
        year,
        month: found.month,
        day: found.day,
    })
}

// The day of a date, or none where the date does not exist or lies outside 1900 to 2199.
pub fn day_of(date: Date) -> Option<u32>
    ensures value { result ≡ day_at date }
    ensures bound { IfSome result (λ d. d ≤ last_day) }
    ensures inverse { Inverse }
    ensures one { OneDay }
{
    let leap = is_leap(date.year);
    let length = length_of(leap, date.month)?;
    if date.year < 1900 || date.year > 2199 || date.day < 1 || date.day > length {
        return None;
    }
    let months = days_of(leap, date.month - 1);
    Some(year_start(date.year) + months as u32 + (date.day - 1) as u32)
}
