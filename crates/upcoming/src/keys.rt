// Where an occurrence stands among those of its series: by its start, then by its day.
#[derive(Clone, Copy, PartialEq, Eq, PartialOrd, Ord)]
pub struct Key {
    pub start: u32,
    pub day: u32,
}
