// Minutes: 0 to MOST. Clocks and durations are minutes.
ghost use Rattle.std.specs.Prelude.{◌≡◌, ◌<◌, ◌≤◌, MatchResult};
ghost use Rattle.refusal.specs.Numbers.{number};

use refusal::Refusal;

#[derive(Clone, Copy)]
pub struct Minutes<const MOST: u16> {
    pub(crate) minutes: u16,
    ghost within: { minutes ≤ MOST },
}

impl<const MOST: u16> Minutes<MOST> {
    pub fn new(minutes: u32) -> Result<Minutes<MOST>, Refusal>
        ensures { MatchResult result (λ m. m.minutes ≡ minutes) (λ e. (MOST < minutes) × (number e ≡ 8)) }
    {
        if minutes > MOST as u32 {
            return Err(Refusal::OutOfBounds);
        }
        Ok(Minutes {
            minutes: minutes as u16,
        })
    }

    pub fn minutes(self) -> u16
        ensures value { result ≡ self.entry.minutes }
        ensures bound { result ≤ MOST }
    {
        self.minutes
    }
}
