// Leap years, the first day of a year, and the year of a day.
ghost use Rattle.std.specs.Prelude.{◌≡◌, ℕ, ◌+◌, ◌-◌, ◌<◌, ◌≤◌, not, ◌&&◌, ◌||◌, ◌==◌};
ghost use Rattle.calendar.specs.Years.{is_leap, year_length, year_start, year_of, days_of_years};

pub fn is_leap(year: u16) -> bool
    ensures { result ≡ is_leap year }
{
    leap_by(year % 4, year % 100, year % 400)
}

// The rule, by what a year leaves over fours, hundreds and four hundreds.
pub(crate) fn leap_by(fours: u16, hundreds: u16, cycles: u16) -> bool
    ensures { result ≡ (fours == 0 && (not (hundreds == 0) || cycles == 0)) }
{
    fours == 0 && (hundreds != 0 || cycles == 0)
}

// The first day of a year: the one place where the days before a year are counted.
pub(crate) fn year_start(year: u16) -> u32
    requires { (1900 ≤ year) × (year ≤ 2200) }
    ensures value { result ≡ year_start year }
    ensures counts { result ≡ days_of_years (year - 1900) }
    ensures bound { result ≤ 109573 }
{
    let past = year as u32 - 1;
    365 * past + past / 4 - past / 100 + past / 400 - 693_595
}

// The year of a day: by 365 days a year it is guessed, and the leap days put it at most one year late.
pub(crate) fn year_of(day: u32) -> u16
    requires { day < 109573 }
    ensures value { result ≡ year_of day }
    ensures range { (1900 ≤ result) × (result < 2200) }
    ensures within { (year_start result ≤ day) × (day < year_start result + year_length result) }
{
    let guess = (1900 + day / 365) as u16;
    if day < year_start(guess) {
        guess - 1
    } else {
        guess
    }
}
