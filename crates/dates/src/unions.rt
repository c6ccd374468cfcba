// The union: what a source gives, and some days more.
use crate::dates::DateList;

#[derive(Clone, Copy)]
pub struct Union<S> {
    pub first: S,
    pub dates: DateList,
}
