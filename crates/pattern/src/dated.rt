// A day of the calendar with its date.
ghost use Rattle.std.specs.Prelude.{◌≡◌, ℕ, ◌+◌, ◌-◌, ◌<◌, ◌≤◌, Some, None};
ghost use Rattle.std.specs.Option.{option_map};
ghost use Rattle.calendar.specs.Years.{is_leap, year_start};
ghost use Rattle.calendar.specs.Months.{month_length, before};
ghost use Rattle.pattern.specs.Openings.{DateIs};
ghost use Rattle.pattern.specs.Picks.{lead, rest, facts};

use crate::day::Day;
use crate::facts::Facts;
use calendar::date::Date;
use calendar::days::{date_of, day_of};
use calendar::months::month_length;
use calendar::weekdays::weekday_of;
use calendar::years::is_leap;

#[derive(Clone, Copy)]
pub(crate) struct Dated {
    pub(crate) day: Day,
    pub(crate) date: Date,
    ghost dated: { DateIs day.number date },
}

impl Dated {
    pub(crate) fn new(day: Day) -> Dated
        ensures { result.day ≡ day }
    {
        Dated {
            day,
            date: date_of(day.number).unwrap(),
        }
    }

    // The days of the month, or of the year, before the day.
    fn lead(self, month: bool) -> u16
        ensures value { result ≡ lead month self.day.number }
        ensures bound { result ≤ 365 }
    {
        if month {
            self.date.day as u16 - 1
        } else {
            (self.day.number - new_year(self.date.year)) as u16
        }
    }

    // The days of the month, or of the year.
    fn span(self, month: bool) -> u16
        ensures value { result ≡ lead month self.day.number + 1 + rest month self.day.number }
        ensures bound { result ≤ 366 }
    {
        if month {
            length_of(self.date.year, self.date.month) as u16
        } else if is_leap(self.date.year) {
            366
        } else {
            365
        }
    }

    // Its weekdays are counted in the month or in the year.
    pub(crate) fn facts(self, month: bool) -> Facts
        ensures { result ≡ facts month self.day.number }
    {
        let lead = self.lead(month);
        let rest = self.span(month) - 1 - lead;
        Facts {
            month: self.date.month,
            day: self.date.day,
            back: length_of(self.date.year, self.date.month) - self.date.day + 1,
            weekday: weekday_of(self.day.number),
            nth: (lead / 7 + 1) as u8,
            last: (rest / 7 + 1) as u8,
        }
    }
}

// The first day of a month, or none past the calendar. A year and a month are two numbers of a date here, which no type of its own holds.
#[tactic(auto, using(crate::proofs::Openings::first_is, crate::proofs::Openings::first_past))]
pub(crate) fn month_start(year: u16, month: u8) -> Option<Day>
    requires { (1900 ≤ year) × ((1 ≤ month) × (month ≤ 12)) }
    ensures there { year < 2200 → option_map (λ d. d.number) result ≡ Some (year_start year + before (is_leap year) (month - 1)) }
    ensures past { 2200 ≤ year → result ≡ None }
{
    let number = day_of(Date {
        year,
        month,
        day: 1,
    })?;
    Some(Day { number })
}

// The first day of a year of the calendar.
#[tactic(auto, using(calendar::proofs::MonthDays::before_none))]
fn new_year(year: u16) -> u32
    requires { (1900 ≤ year) × (year < 2200) }
    ensures { result ≡ year_start year }
{
    month_start(year, 1).unwrap().number
}

// The days of a month.
#[tactic(auto, using(crate::proofs::Openings::length_here, calendar::proofs::MonthDays::month_long))]
fn length_of(year: u16, month: u8) -> u8
    requires { (1 ≤ month) × (month ≤ 12) }
    ensures value { result ≡ month_length (is_leap year) month }
    ensures bound { result ≤ 31 }
{
    month_length(year, month).unwrap()
}
