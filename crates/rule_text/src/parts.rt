// The parts of a rule as they are read, one after the other.
use calendar::starts::Moment;
use calendar::weekdays::Weekday;
use recurrence::parts::{DayEntry, Few, Frequency, Ordinal};
use refusal::Refusal;

// The parts that were read so far, each open until then, as none of a pattern is; UNTIL has a moment's form, and may be refused as one.
#[derive(Clone, Copy, Default)]
pub struct Parts {
    pub frequency: Option<Frequency>,
    pub interval: Option<u32>,
    pub week_start: Option<Weekday>,
    pub count: Option<u32>,
    pub until: Option<Result<Moment, Refusal>>,
    pub months: Option<Few<u8>>,
    pub month_days: Option<Few<Ordinal>>,
    pub week_days: Option<Few<DayEntry>>,
}
