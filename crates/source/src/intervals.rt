// The interval: a day every so many days, so many times.
ghost use Rattle.std.specs.Prelude.{◌<◌, ◌≤◌};

// The days start, start + step, start + 2 × step, .. : count of them, less those past the last day.
// Only a cut makes a count of 0.
#[derive(Clone, Copy)]
pub struct Interval {
    pub(crate) start: u32,
    pub(crate) step: u32,
    pub(crate) count: u32,
    ghost day: { start ≤ 109572 },
    ghost rise: { (1 ≤ step) × (step ≤ 999) },
    ghost few: { count ≤ 10000 },
}
