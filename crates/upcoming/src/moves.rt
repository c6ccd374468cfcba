// Where an override moves its day.
ghost use Rattle.std.specs.Prelude.{◌≡◌, ℕ, ◌<◌, ◌≤◌};
ghost use Rattle.upcoming.specs.Kinds.{BetterOf, KeyOf};

use crate::keys::Key;
use series::changes::{Change, Override};

// The key that an alteration gives its day, where it lies in the window and before the best so far.
pub(crate) fn better_of(item: &Override, from: Key, end: u32, best: Option<Key>) -> Option<Key>
    ensures { BetterOf item.now from.start from.day end best result }
{
    let key = key_of(item)?;
    if key.start >= end || key < from || best.is_some_and(|other| other <= key) {
        return None;
    }
    Some(key)
}

// The key that an alteration gives its day.
fn key_of(item: &Override) -> Option<Key>
    ensures { KeyOf item.now result }
{
    match &item.change {
        Change::Cancelled => None,
        Change::Altered(alteration) => Some(Key {
            start: alteration.start,
            day: item.day,
        }),
    }
}
