// Where a series stands: its next shown start and day, at its place in the store.
// Not a key beside a place: nodes rank by start and place, and the day comes last.
#[derive(Clone, Copy, PartialEq, Eq, PartialOrd, Ord)]
pub struct Node {
    pub start: u32,
    pub place: usize,
    pub day: u32,
}
