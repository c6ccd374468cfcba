// The first day that a key reaches.
ghost use Rattle.std.specs.Prelude.{◌≡◌, ℕ, ◌+◌, ◌*◌, ◌<◌, ◌≤◌};
ghost use Rattle.upcoming.specs.Least.{rank};

use crate::keys::Key;
use calendar::starts::DAY_MINUTES;

// The first day whose own key is not before this one.
pub(crate) fn first_day(clock: u16, from: Key) -> u32
    ensures from { (d : ℕ) → result ≤ d → rank from.start from.day ≤ rank (d * 1440 + clock) d }
    ensures before { (d : ℕ) → d < 4294967296 → rank from.start from.day ≤ rank (d * 1440 + clock) d → result ≤ d }
{
    let Some(span) = from.start.checked_sub(clock as u32) else {
        return 0;
    };
    let whole = span / DAY_MINUTES;
    if span % DAY_MINUTES > 0 || whole < from.day {
        return whole + 1;
    }
    whole
}
