// What became of one day of a series.
use crate::texts::Text;

#[derive(Clone, Copy)]
pub struct Alteration {
    pub start: u32,
    pub text: Text,
}

// Not an Option: that a day has no change is the None, and one Option in another would name neither.
#[derive(Clone, Copy)]
pub enum Change {
    Cancelled,
    Altered(Alteration),
}

#[derive(Clone, Copy)]
pub struct Override {
    pub day: u32,
    pub change: Change,
}
