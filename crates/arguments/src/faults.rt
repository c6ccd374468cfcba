// What is wrong with an argument, and how it is said.
use refusal::Refusal;
use std::fmt;

// The arguments. An interval stands alone, or a start and a rule in its place.
#[derive(Clone, Copy, PartialEq, Eq, Debug)]
pub enum Argument {
    Uid,
    Interval,
    Start,
    Rule,
    Duration,
    Text,
    First,
    Last,
}

#[derive(Clone, Copy)]
pub enum Fault {
    // fewer than six arguments: the first that is absent
    Missing(Argument),
    // more than seven arguments
    Surplus,
    // an argument that has not its form, is out of bounds, or ends the window before it begins
    Refused(Argument, Refusal),
}

impl fmt::Display for Argument {
    fn fmt<W: fmt::Write>(&self, f: &mut fmt::Formatter<W>) -> fmt::Result {
        f.write_str(match *self {
            Argument::Uid => "UID",
            Argument::Interval => "interval",
            Argument::Start => "start",
            Argument::Rule => "rule",
            Argument::Duration => "duration",
            Argument::Text => "text",
            Argument::First => "first day",
            Argument::Last => "last day",
        })
    }
}

impl Argument {
    // The bounds in words: the Display of an argument is its name, and the readers hold the numbers.
    fn bounds(self) -> &'static str {
        match self {
            Argument::Uid => {
                "1 to 64 octets from 33 to 126, without comma, semicolon, colon and backslash"
            }
            Argument::Interval => {
                "Rn/yyyymmddThhmm00/PmD, n from 1 to 10000, m from 1 to 999, a date from 19000101 to 21991231 and a time from 0000 to 2359"
            }
            Argument::Start => {
                "yyyymmddThhmm00, a date from 19000101 to 21991231 and a time from 0000 to 2359"
            }
            Argument::Rule => {
                "FREQ=DAILY, WEEKLY, MONTHLY or YEARLY, and if wanted INTERVAL (1 to 999), WKST, COUNT (1 to 10000) or UNTIL, BYMONTH (1 to 12), BYMONTHDAY (1 to 31 or -1 to -31; not in WEEKLY) and BYDAY (weekdays; ordinals 1 to 53 or -1 to -53 only in MONTHLY and YEARLY), parted by semicolons, each list of at most 12; the start is its first day"
            }
            Argument::Duration => "0 to 1440 minutes, in one to five digits",
            Argument::Text => "1 to 60 octets, each from 32 to 126 or from 128 to 255",
            Argument::First => "yyyymmdd, a date from 19000101 to 21991231",
            Argument::Last => {
                "yyyymmdd, a date from 19000101 to 21991231, not before the first day"
            }
        }
    }
}

// The argument is the subject, so that a refusal's own sentence does not fit.
fn reason(refusal: Refusal) -> &'static str {
    match refusal {
        Refusal::Malformed => "is malformed",
        Refusal::OutOfBounds => "is out of bounds",
        Refusal::BadPart => "has a part that is unknown, repeated or malformed, or no FREQ",
        Refusal::RuleConflict => "has parts that may not stand together",
        Refusal::StartNotPicked => "does not pick its start",
        Refusal::PageFull => "does not fit the page",
        Refusal::BadWindow => "lies before the first day",
        // no argument is refused otherwise
        _ => "is refused",
    }
}

impl fmt::Display for Fault {
    fn fmt<W: fmt::Write>(&self, f: &mut fmt::Formatter<W>) -> fmt::Result {
        match *self {
            Fault::Missing(argument) => {
                let bounds = argument.bounds();
                write!(f, "the {argument} is missing: {bounds}")
            }
            Fault::Surplus => write!(
                f,
                "too many arguments: UID, interval (or start and rule), duration, text, first day, last day; a text with spaces stands in quotes"
            ),
            Fault::Refused(argument, refusal) => {
                let reason = reason(refusal);
                let bounds = argument.bounds();
                write!(f, "the {argument} {reason}: {bounds}")
            }
        }
    }
}
