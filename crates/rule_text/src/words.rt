// The keywords of a rule. Functions and no `TryFrom`: of the three types only `Part` is of this crate.
ghost use Rattle.std.specs.Prelude.{◌≡◌};
ghost use Rattle.rule_text.specs.Words.{frequency_named, weekday_named, part_named};

use calendar::weekdays::Weekday;
use recurrence::parts::Frequency;

// The parts of a rule.
#[derive(Clone, Copy)]
pub(crate) enum Part {
    Freq,
    Interval,
    WeekStart,
    Count,
    Until,
    Months,
    MonthDays,
    WeekDays,
}

pub(crate) fn frequency_named(octets: &[u8]) -> Option<Frequency>
    ensures { result ≡ frequency_named octets.now }
{
    match octets {
        b"DAILY" => Some(Frequency::Daily),
        b"WEEKLY" => Some(Frequency::Weekly),
        b"MONTHLY" => Some(Frequency::Monthly),
        b"YEARLY" => Some(Frequency::Yearly),
        _ => None,
    }
}

pub(crate) fn weekday_named(octets: &[u8]) -> Option<Weekday>
    ensures { result ≡ weekday_named octets.now }
{
    match octets {
        b"MO" => Some(Weekday::Monday),
        b"TU" => Some(Weekday::Tuesday),
        b"WE" => Some(Weekday::Wednesday),
        b"TH" => Some(Weekday::Thursday),
        b"FR" => Some(Weekday::Friday),
        b"SA" => Some(Weekday::Saturday),
        b"SU" => Some(Weekday::Sunday),
        _ => None,
    }
}

pub(crate) fn part_named(octets: &[u8]) -> Option<Part>
    ensures { result ≡ part_named octets.now }
{
    match octets {
        b"FREQ" => Some(Part::Freq),
        b"INTERVAL" => Some(Part::Interval),
        b"WKST" => Some(Part::WeekStart),
        b"COUNT" => Some(Part::Count),
        b"UNTIL" => Some(Part::Until),
        b"BYMONTH" => Some(Part::Months),
        b"BYMONTHDAY" => Some(Part::MonthDays),
        b"BYDAY" => Some(Part::WeekDays),
        _ => None,
    }
}
