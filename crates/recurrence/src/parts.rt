// The parts of a recurrence.
use calendar::weekdays::Weekday;

// FREQ: what the periods are.
#[derive(Clone, Copy, PartialEq, Eq, Debug)]
pub enum Frequency {
    Daily,
    Weekly,
    Monthly,
    Yearly,
}

// A place in a month or a year, counted from its beginning or its end: an entry of BYMONTHDAY counts days,
// and one of BYDAY the like weekdays.
#[derive(Clone, Copy, PartialEq, Eq, Debug)]
pub enum Ordinal {
    FromStart(u8),
    FromEnd(u8),
}

// An entry of BYDAY; without an ordinal it means every such weekday.
#[derive(Clone, Copy, PartialEq, Eq)]
pub struct DayEntry {
    pub weekday: Weekday,
    pub ordinal: Option<Ordinal>,
}

// The first `len` items are the entries, in the order given; there are none where the part is absent.
// The items after them mean nothing, so that `==` is not derived. A plain value, unchecked: `fits` refuses a length
// above 12, which a bounded list could not have.
#[derive(Clone, Copy)]
pub struct Few<T> {
    pub items: [T; 12],
    pub len: usize,
}

// What says which days are picked.
#[derive(Clone, Copy)]
pub struct Pattern {
    pub frequency: Frequency,
    pub interval: u32,
    pub week_start: Weekday,
    pub months: Few<u8>,
    pub month_days: Few<Ordinal>,
    pub week_days: Few<DayEntry>,
}

// A recurrence as it is read, with nothing checked: a pattern and its ends. `until` is the day after the last day.
#[derive(Clone, Copy)]
pub struct Recurrence {
    pub pattern: Pattern,
    pub count: Option<u32>,
    pub until: Option<u32>,
}
