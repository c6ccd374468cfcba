// Days as yyyymmdd, and moments as yyyymmddThhmm00.
// A `let .. else` at each mark that parts the text.
ghost use Rattle.std.specs.Prelude.{◌≡◌, ℕ, ◌+◌, ◌*◌, ◌/◌, ◌%◌, ◌<◌, ◌≤◌, IfOk};
ghost use Rattle.calendar.specs.Years.{last_day};
ghost use Rattle.notation.specs.Dates.{date_named, day_named, moment_named};

use crate::digits::numeral_of;
use crate::fields::cut;
use calendar::date::Date;
use calendar::days::day_of;
use calendar::starts::Moment;
use refusal::Refusal;

// The date that eight digits name, whether or not there is such a date.
fn date_named(digits: u32) -> Date
    requires { digits < 100000000 }
    ensures { result ≡ date_named digits }
{
    Date {
        year: (digits / 10_000) as u16,
        month: (digits / 100 % 100) as u8,
        day: (digits % 100) as u8,
    }
}

// The day that yyyymmdd names.
pub fn read_day(octets: &[u8]) -> Result<u32, Refusal>
    ensures value { result ≡ day_named octets.now }
    ensures bound { IfOk result (λ d. d ≤ last_day) }
{
    let digits = numeral_of(octets, 8, 8).ok_or(Refusal::Malformed)?;
    day_of(date_named(digits)).ok_or(Refusal::OutOfBounds)
}

// The day and the minute that yyyymmddThhmm00 names.
pub fn read_moment(octets: &[u8]) -> Result<Moment, Refusal>
    ensures value { result ≡ moment_named octets.now }
    ensures bound { IfOk result (λ m. m.clock < 1440) }
{
    let Some((date, time)) = cut(octets, 'T') else {
        return Err(Refusal::Malformed);
    };
    let digits = numeral_of(date, 8, 8).ok_or(Refusal::Malformed)?;
    let clock = numeral_of(time, 6, 6).ok_or(Refusal::Malformed)?;
    if clock % 100 != 0 {
        return Err(Refusal::Malformed);
    }
    let hour = clock / 10_000;
    let minute = clock / 100 % 100;
    if hour > 23 || minute > 59 {
        return Err(Refusal::OutOfBounds);
    }
    let day = day_of(date_named(digits)).ok_or(Refusal::OutOfBounds)?;
    Ok(Moment {
        day,
        clock: (hour * 60 + minute) as u16,
    })
}
