// A day of the calendar, by its number.
ghost use Rattle.std.specs.Prelude.{◌≡◌, ◌<◌, ◌≤◌, MatchOption, nat_le};
ghost use Rattle.std.specs.Bool.{then_some};
ghost use Rattle.std.specs.Option.{option_map};

use calendar::days::LAST_DAY;

#[derive(Clone, Copy)]
pub(crate) struct Day {
    pub(crate) number: u32,
    ghost known: { number < 109573 },
}

impl Day {
    // None past the last day.
    pub(crate) fn new(number: u32) -> Option<Day>
        ensures cases { MatchOption result (109573 ≤ number) (λ d. d.number ≡ number) }
        ensures value { option_map (λ d. d.number) result ≡ then_some (nat_le number 109572) number }
    {
        // `then(|| Day { number })` was tried: `invariant_of-result` of the closure stays open
        if number <= LAST_DAY {
            Some(Day { number })
        } else {
            None
        }
    }
}
