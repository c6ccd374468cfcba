// The facts of a day.
use calendar::weekdays::Weekday;

// What a pattern asks of a day: its month, its number in the month from the beginning and from the end,
// its weekday, and which of the like weekdays of the month or year it is, from either side.
#[derive(Clone, Copy)]
pub(crate) struct Facts {
    pub(crate) month: u8,
    pub(crate) day: u8,
    pub(crate) back: u8,
    pub(crate) weekday: Weekday,
    pub(crate) nth: u8,
    pub(crate) last: u8,
}
