// Starts: a day and a minute of it as one number.
ghost use Rattle.std.specs.Prelude.{◌≡◌, ℕ, ◌+◌, ◌*◌, ◌/◌, ◌%◌, ◌<◌, ◌≤◌};
ghost use Rattle.calendar.specs.Starts.{start_at, moment_at, Parts};

use crate::days::LAST_DAY;

pub const DAY_MINUTES: u32 = 1_440;

// One past the last start.
pub const STARTS_END: u32 = 157_785_120;

// A day and a minute of it.
#[derive(Clone, Copy, PartialEq, Eq, Debug)]
pub struct Moment {
    pub day: u32,
    pub clock: u16,
}

// The start at a moment, or none where its day or its clock is out of range.
pub fn start_of(moment: Moment) -> Option<u32>
    ensures value { result ≡ start_at moment }
    ensures parts { Parts }
{
    let clock = moment.clock as u32;
    (moment.day <= LAST_DAY && clock < DAY_MINUTES).then(|| moment.day * DAY_MINUTES + clock)
}

// The parts of a start, or none past the last start.
pub fn moment_of(start: u32) -> Option<Moment>
    ensures value { result ≡ moment_at start }
    ensures parts { Parts }
{
    let day = start / DAY_MINUTES;
    let clock = (start % DAY_MINUTES) as u16;
    (day <= LAST_DAY).then_some(Moment { day, clock })
}
