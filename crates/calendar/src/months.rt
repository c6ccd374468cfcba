// Month lengths, and the months of a year by its days.
ghost use Rattle.std.specs.Prelude.{◌≡◌, ℕ, ◌+◌, ◌-◌, ◌<◌, ◌≤◌, length, sum, Some, None, if◌then◌else◌};
ghost use Rattle.calendar.specs.Years.{year_length};
ghost use Rattle.calendar.specs.Months.{is_month, month_length, length_at, before, begun};

use crate::years::is_leap;

// A row for common years and a row for leap years.
const MONTHS: [[u8; 12]; 2] = [
    [31, 28, 31, 30, 31, 30, 31, 31, 30, 31, 30, 31],
    [31, 29, 31, 30, 31, 30, 31, 31, 30, 31, 30, 31],
];

// Bare numbers: a type for a month, or a year, would be opened at each comparison.
pub(crate) fn length_in(leap: bool, month: u8) -> u8
    requires { (1 ≤ month) × (month ≤ 12) }
    ensures value { result ≡ month_length leap month }
    ensures bound { (28 ≤ result) × (result ≤ 31) }
{
    MONTHS[leap as usize][(month - 1) as usize]
}

// The days of a month, or none where there is no such month.
pub fn month_length(year: u16, month: u8) -> Option<u8>
    ensures { result ≡ length_at year month }
{
    length_of(is_leap(year), month)
}

// The same, by whether the year is a leap year.
pub(crate) fn length_of(leap: bool, month: u8) -> Option<u8>
    ensures { result ≡ (if is_month month then Some (month_length leap month) else None) }
{
    (1 <= month && month <= 12).then(|| length_in(leap, month))
}

// The sum of a part of a row: over a slice, so that the rows are not written out in what is proved of it.
fn total(lengths: &[u8]) -> u16
    requires { length lengths.now ≤ 12 }
    ensures { result ≡ sum lengths.now }
{
    lengths.iter().map(|days| *days as u16).sum()
}

// The days of a year's first months.
pub(crate) fn days_of(leap: bool, months: u8) -> u16
    requires { months ≤ 12 }
    ensures { result ≡ before leap months }
{
    total(&MONTHS[leap as usize][..months as usize])
}

// A month, and a day of it counted from 1: a date whose year is known elsewhere.
#[derive(Clone, Copy)]
pub(crate) struct MonthDay {
    pub(crate) month: u8,
    pub(crate) day: u8,
}

// The month and its day of the day n of a year, counted from 0.
pub(crate) fn month_day(leap: bool, n: u16) -> MonthDay
    requires { n < (if leap then 366 else 365) }
    ensures month { result.month ≡ begun leap n 12 }
    ensures day { before leap (result.month - 1) + result.day ≡ n + 1 }
    ensures range { (1 ≤ result.month) × (result.month ≤ 12) }
    ensures within { (1 ≤ result.day) × (result.day ≤ month_length leap result.month) }
{
    // months are taken off one by one, and the walk ends within a month: no chain stops with both numbers
    let mut left = n;
    for month in 1..12 {
        let length = length_in(leap, month) as u16;
        if left < length {
            return MonthDay {
                month,
                day: (left + 1) as u8,
            };
        }
        left -= length;
    }
    MonthDay {
        month: 12,
        day: (left + 1) as u8,
    }
}
