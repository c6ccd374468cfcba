// What is handed to enter: a source and an override map, which are in bounds by making, and unchecked values.
use series::overrides::Overrides;

#[derive(Clone, Copy)]
pub struct Entry<'a, S> {
    pub source: S,
    pub clock: u32,
    pub duration: u32,
    pub text: &'a [u8],
    pub stamp: &'a [u8],
    pub overrides: Overrides,
}
