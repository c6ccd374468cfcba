// What the words that name the days give, and the words beside them.
use series::clocks::Clock;

// A source and the clock of its occurrences: of an interval, or of a start and a rule.
#[derive(Clone, Copy)]
pub(crate) struct Timed<S> {
    pub source: S,
    pub clock: Clock,
}

// The words that stand in both forms.
#[derive(Clone, Copy)]
pub(crate) struct Shared<'a> {
    pub uid: &'a [u8],
    pub duration: &'a [u8],
    pub text: &'a [u8],
    pub first: &'a [u8],
    pub last: &'a [u8],
}
