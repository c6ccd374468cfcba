// Reading the text of a rule.
ghost use Rattle.std.specs.Prelude.{◌≡◌};
ghost use Rattle.std.specs.Option.{option_map};
ghost use Rattle.rule_text.specs.Lists.{fields_at};
ghost use Rattle.rule_text.specs.Reading.{no_parts, parts_read, bad_field, settled_by, after_last, recurrence_named, ReadsRule};

use crate::fields::Fields;
use crate::part_texts::{BLANK, read_part};
use crate::parts::Parts;
use calendar::days::LAST_DAY;
use calendar::starts::Moment;
use calendar::weekdays::Weekday;
use recurrence::parts::{Few, Frequency, Ordinal, Pattern, Recurrence};
use refusal::Refusal;
use rule::rules::Rule;

// All parts of a text.
fn read_parts(octets: &[u8]) -> Result<Parts, Refusal>
    ensures { result ≡ parts_read (fields_at 59 octets.now) no_parts }
{
    let mut parts = Parts::default();
    for field in Fields::new(octets, ';') {
        parts = read_part(parts, field)?;
    }
    Ok(parts)
}

// The first field of a text that is no part of a rule, or repeats one.
pub fn bad_field(octets: &[u8]) -> Option<&[u8]>
    ensures { option_map (λ f. f.now) result ≡ bad_field (fields_at 59 octets.now) no_parts }
{
    let mut parts = Parts::default();
    for field in Fields::new(octets, ';') {
        match read_part(parts, field) {
            Ok(more) => parts = more,
            Err(_) => return Some(field),
        }
    }
    None
}

fn settled(frequency: Frequency, until: Option<u32>, parts: &Parts) -> Recurrence
    ensures { result ≡ settled_by frequency until parts.now }
{
    Recurrence {
        pattern: Pattern {
            frequency,
            interval: parts.interval.unwrap_or(1),
            week_start: parts.week_start.unwrap_or(Weekday::Monday),
            months: parts.months.unwrap_or(Few::empty(0)),
            month_days: parts
                .month_days
                .unwrap_or(Few::empty(Ordinal::FromStart(0))),
            week_days: parts.week_days.unwrap_or(Few::empty(BLANK)),
        },
        count: parts.count,
        until,
    }
}

// The day after the last day that UNTIL leaves.
fn after_last(moment: Moment, clock: u16) -> u32
    ensures { result ≡ after_last clock moment }
{
    if moment.clock < clock {
        moment.day
    } else {
        moment.day.min(LAST_DAY) + 1
    }
}

// The recurrence that a text names, for events at a clock.
pub fn read_recurrence(octets: &[u8], clock: u16) -> Result<Recurrence, Refusal>
    ensures { result ≡ recurrence_named clock octets.now }
{
    let parts = read_parts(octets)?;
    let frequency = parts.frequency.ok_or(Refusal::BadPart)?;
    let until = parts.until.transpose()?;
    let until = until.map(|moment| after_last(moment, clock));
    Ok(settled(frequency, until, &parts))
}

// The rule of a start and a text: what is read, and then what a rule is refused for.
pub fn read_rule(octets: &[u8], start: Moment) -> Result<Rule, Refusal>
    ensures { ReadsRule start octets.now result }
{
    let recurrence = read_recurrence(octets, start.clock)?;
    Rule::new(start.day, Some(recurrence))
}
