// Each argument's word, read or refused.
ghost use Rattle.std.specs.Prelude.{◌≡◌, ◌≤◌, IfOk, Ok};
ghost use Rattle.notation.specs.Digits.{number};
ghost use Rattle.notation.specs.Intervals.{interval_named};
ghost use Rattle.notation.specs.Dates.{day_named};
ghost use Rattle.bounded.specs.Held.{held};
ghost use Rattle.series.specs.Octets.{bounded};
ghost use Rattle.calendar.specs.Years.{last_day};
ghost use Rattle.arguments.specs.Faults.{told_of, within, interval_fault, recurring_fault, duration_fault, day_fault, days_fault};
ghost use Rattle.arguments.specs.Words.{spelled, Recurs};

use crate::faults::{Argument, Fault};
use crate::job::Days;
use crate::timed::Timed;
use notation::dates::{read_day, read_moment};
use notation::digits::number_of;
use notation::intervals;
use refusal::Refusal;
use rule::rules::Rule;
use rule_text::reading::read_rule;
use series::alphabets::Alphabet;
use series::clocks::Clock;
use series::durations::Duration;
use series::labels::Label;
use source::intervals::Interval;

// A UID or a text.
pub(crate) fn read_label<A: Alphabet, const N: usize>(
    word: &[u8],
    argument: Argument,
) -> Result<Label<A, N>, Fault>
    ensures fault { told_of result ≡ within argument (bounded N A.holds word.now) }
    ensures value { IfOk result (λ l. held l.octets ≡ word.now) }
{
    Label::new(word).map_err(|refusal| Fault::Refused(argument, refusal))
}

pub(crate) fn read_duration(word: &[u8]) -> Result<Duration, Fault>
    ensures fault { told_of result ≡ duration_fault word.now }
    ensures value { IfOk result (λ d. number word.now ≡ Ok d.minutes) }
{
    number_of(word)
        .and_then(Duration::new)
        .map_err(|refusal| Fault::Refused(Argument::Duration, refusal))
}

pub(crate) fn read_interval(word: &[u8]) -> Result<Timed<Interval>, Fault>
    ensures fault { told_of result ≡ interval_fault word.now }
    ensures value { IfOk result (λ t. interval_named word.now ≡ Ok (spelled t)) }
{
    let refused = |refusal| Fault::Refused(Argument::Interval, refusal);
    let spelled = intervals::read_interval(word).map_err(refused)?;
    let source = Interval::new(spelled.start.day, spelled.step, spelled.count).map_err(refused)?;
    let clock = Clock::new(spelled.start.clock as u32).map_err(refused)?;
    Ok(Timed { source, clock })
}

// A rule and its start: the start's word is the first that is refused.
pub(crate) fn read_recurring(start: &[u8], rule: &[u8]) -> Result<Timed<Rule>, Fault>
    ensures fault { told_of result ≡ recurring_fault start.now rule.now }
    ensures value { IfOk result (λ t. Recurs start.now rule.now t) }
{
    let refused = |refusal| Fault::Refused(Argument::Start, refusal);
    let start = read_moment(start).map_err(refused)?;
    let source = read_rule(rule, start).map_err(|refusal| Fault::Refused(Argument::Rule, refusal))?;
    let clock = Clock::new(start.clock as u32).map_err(refused)?;
    Ok(Timed { source, clock })
}

fn read_date(word: &[u8], argument: Argument) -> Result<u32, Fault>
    ensures fault { told_of result ≡ day_fault argument word.now }
    ensures value { IfOk result (λ d. (day_named word.now ≡ Ok d) × (d ≤ last_day)) }
{
    read_day(word).map_err(|refusal| Fault::Refused(argument, refusal))
}

// Two days, or the refusal where they are not in order.
pub(crate) fn read_days(first: &[u8], last: &[u8]) -> Result<Days, Fault>
    ensures fault { told_of result ≡ days_fault first.now last.now }
    ensures value { IfOk result (λ d. (day_named first.now ≡ Ok d.first) × (day_named last.now ≡ Ok d.last)) }
{
    let first = read_date(first, Argument::First)?;
    let last = read_date(last, Argument::Last)?;
    if first > last {
        return Err(Fault::Refused(Argument::Last, Refusal::BadWindow));
    }
    Ok(Days { first, last })
}
