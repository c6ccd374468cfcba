// A date by its numbers. Not every such triple is a date: `days::day_of` tells.
#[derive(Clone, Copy, PartialEq, Eq, Debug)]
pub struct Date {
    pub year: u16,
    pub month: u8,
    pub day: u8,
}
