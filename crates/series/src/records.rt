// The record of a series.
use crate::clocks::Clock;
use crate::durations::Duration;
use crate::texts::Text;

// What repeats: the days of a source, with a clock, a duration and a text.
#[derive(Clone, Copy)]
pub struct Series<S> {
    pub source: S,
    pub clock: Clock,
    pub duration: Duration,
    pub text: Text,
}
