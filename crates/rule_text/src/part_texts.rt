// Reading one part of a rule.
// A `let .. else` at each mark that parts the text.
ghost use Rattle.std.specs.Prelude.{◌≡◌, MatchResult, Ok, Err};
ghost use Rattle.rule_text.specs.Parts.{until_named, once, there, part_read};

use crate::lists::read_list;
use crate::parts::Parts;
use crate::words::{Part, frequency_named, part_named, weekday_named};
use calendar::starts::Moment;
use calendar::weekdays::Weekday;
use notation::dates::read_moment;
use notation::digits::capped_of;
use notation::fields::cut;
use recurrence::parts::{DayEntry, Ordinal};
use refusal::Refusal;

// A text that has a moment's form; whether there is such a moment is asked when all parts are read.
fn until_named(octets: &[u8]) -> Option<Result<Moment, Refusal>>
    ensures { result ≡ until_named octets.now }
{
    match read_moment(octets) {
        Err(Refusal::Malformed) => None,
        Err(_) => Some(Err(Refusal::OutOfBounds)),
        Ok(moment) => Some(Ok(moment)),
    }
}

// An entry that means nothing.
pub(crate) const BLANK: DayEntry = DayEntry {
    weekday: Weekday::Monday,
    ordinal: None,
};

// Fills the place of a part; one that is there already, or was not read, is refused.
fn once<T: Copy>(part: &mut Option<T>, read: Option<T>) -> Result<(), Refusal>
    ensures { MatchResult result (λ _. once part.old read ≡ Ok part.new) (λ e. once part.old read ≡ Err e) }
{
    if part.is_some() {
        return Err(Refusal::BadPart);
    }
    *part = Some(read.ok_or(Refusal::BadPart)?);
    Ok(())
}

// Whether a part is there already.
fn is_there(parts: &Parts, part: Part) -> bool
    ensures { result ≡ there parts.now part }
{
    match part {
        Part::Freq => parts.frequency.is_some(),
        Part::Interval => parts.interval.is_some(),
        Part::WeekStart => parts.week_start.is_some(),
        Part::Count => parts.count.is_some(),
        Part::Until => parts.until.is_some(),
        Part::Months => parts.months.is_some(),
        Part::MonthDays => parts.month_days.is_some(),
        Part::WeekDays => parts.week_days.is_some(),
    }
}

// The parts with the one that a field NAME=value gives.
#[tactic(auto, using(crate::proofs::Repeats::there_refused))]
pub(crate) fn read_part(mut parts: Parts, field: &[u8]) -> Result<Parts, Refusal>
    ensures { result ≡ part_read parts field.now }
{
    let Some((name, value)) = cut(field, '=') else {
        return Err(Refusal::BadPart);
    };
    let part = part_named(name).ok_or(Refusal::BadPart)?;
    // before its value is read, which may be long
    if is_there(&parts, part) {
        return Err(Refusal::BadPart);
    }
    match part {
        Part::Freq => once(&mut parts.frequency, frequency_named(value))?,
        Part::Interval => once(&mut parts.interval, capped_of(value))?,
        Part::WeekStart => once(&mut parts.week_start, weekday_named(value))?,
        Part::Count => once(&mut parts.count, capped_of(value))?,
        Part::Until => once(&mut parts.until, until_named(value))?,
        Part::Months => once(&mut parts.months, read_list(value, 0u8))?,
        Part::MonthDays => once(
            &mut parts.month_days,
            read_list(value, Ordinal::FromStart(0)),
        )?,
        Part::WeekDays => once(&mut parts.week_days, read_list(value, BLANK))?,
    }
    Ok(parts)
}
