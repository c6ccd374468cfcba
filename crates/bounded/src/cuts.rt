// Making a list, its values, and its parts.
ghost use Rattle.std.specs.Prelude.{◌≡◌, ◌<◌, ◌≤◌, [], length, take, drop, MatchOption};
ghost use Rattle.bounded.specs.Held.{held};

use crate::lists::Bounded;

impl<T: Copy, const N: usize> Bounded<T, N> {
    // The list of these values, or none where they are more than N. The blank fills what stands past them.
    pub fn new(values: &[T], blank: T) -> Option<Bounded<T, N>>
        ensures { MatchOption result (N < length values.now) (λ b. (length values.now ≤ N) × (held b ≡ values.now)) }
    {
        if values.len() > N {
            return None;
        }
        let mut items = [blank; N];
        items[..values.len()].copy_from_slice(values);
        Some(Bounded {
            items,
            len: values.len(),
        })
    }

    // The list of no value.
    pub fn empty(blank: T) -> Bounded<T, N>
        ensures { held result ≡ [] }
    {
        Bounded {
            items: [blank; N],
            len: 0,
        }
    }

    pub fn as_slice(&self) -> &[T]
        ensures { result.now ≡ held self.now }
    {
        &self.items[..self.len]
    }

    // The first so many values, or all where there are fewer.
    pub fn first(&self, count: usize) -> Bounded<T, N>
        ensures { held result ≡ take count (held self.now) }
    {
        Bounded {
            items: self.items,
            len: count.min(self.len),
        }
    }

    // All values past the first so many.
    pub fn past(&self, count: usize) -> Bounded<T, N>
        ensures { held result ≡ drop count (held self.now) }
    {
        let values = self.as_slice();
        let rest = &values[count.min(values.len())..];
        let mut items = self.items;
        items[..rest.len()].copy_from_slice(rest);
        Bounded {
            items,
            len: rest.len(),
        }
    }
}
