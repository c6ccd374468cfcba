// Intervals as Rn/yyyymmddThhmm00/PmD.
// A `let .. else` at each mark that parts the text.
ghost use Rattle.std.specs.Prelude.{◌≡◌, ℕ, ◌+◌, ◌<◌, ◌≤◌, IfOk};
ghost use Rattle.notation.specs.Intervals.{letter_number, repeat_named, period_named, interval_named};
ghost use Rattle.notation.specs.Spelling.{Spelling};

use crate::dates::read_moment;
use crate::digits::number_of;
use crate::fields::{cut, first_rest};
use calendar::starts::Moment;
use refusal::Refusal;

// What an interval's text says: so many times from a start on, every so many days. Nothing is bounded here, as it is in an interval.
#[derive(Clone, Copy, PartialEq, Eq, Debug)]
pub struct Spelled {
    pub count: u32,
    pub start: Moment,
    pub step: u32,
}

// A letter, then a number.
fn read_lettered(octets: &[u8]) -> Result<(char, u32), Refusal>
    ensures { result ≡ letter_number octets.now }
{
    let (letter, digits) = first_rest(octets).ok_or(Refusal::Malformed)?;
    Ok((letter, number_of(digits)?))
}

// The count in Rn.
fn read_repeat(octets: &[u8]) -> Result<u32, Refusal>
    ensures { result ≡ repeat_named octets.now }
{
    match read_lettered(octets)? {
        ('R', count) => Ok(count),
        _ => Err(Refusal::Malformed),
    }
}

// The step in PmD.
fn read_period(octets: &[u8]) -> Result<u32, Refusal>
    ensures { result ≡ period_named octets.now }
{
    let Some((period, behind)) = cut(octets, 'D') else {
        return Err(Refusal::Malformed);
    };
    if !behind.is_empty() {
        return Err(Refusal::Malformed);
    }
    match read_lettered(period)? {
        ('P', step) => Ok(step),
        _ => Err(Refusal::Malformed),
    }
}

// The parts of Rn/yyyymmddThhmm00/PmD: first the form of all, then whether there is such a start.
pub fn read_interval(octets: &[u8]) -> Result<Spelled, Refusal>
    ensures value { result ≡ interval_named octets.now }
    ensures bound { IfOk result (λ s. s.start.clock < 1440) }
    ensures spelled { Spelling }
{
    let Some((repeat, rest)) = cut(octets, '/') else {
        return Err(Refusal::Malformed);
    };
    let Some((moment, period)) = cut(rest, '/') else {
        return Err(Refusal::Malformed);
    };
    let count = read_repeat(repeat)?;
    let step = read_period(period)?;
    let start = read_moment(moment)?;
    Ok(Spelled { count, start, step })
}
