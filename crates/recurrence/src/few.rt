// The entries of a part, as a slice.
ghost use Rattle.std.specs.Prelude.{◌≡◌, not};
ghost use Rattle.recurrence.specs.Entries.{entries, given, none};

use crate::parts::Few;

impl<T: Copy> Few<T> {
    // No entries; the items are there to be written.
    pub fn empty(item: T) -> Few<T>
        ensures { result ≡ none item }
    {
        Few {
            items: [item; 12],
            len: 0,
        }
    }

    // The part is absent.
    pub fn is_empty(&self) -> bool
        ensures { result ≡ not (given self.now) }
    {
        self.len == 0
    }

    // A length above 12 means 12.
    pub fn as_slice(&self) -> &[T]
        ensures { result.now ≡ entries self.now }
    {
        &self.items[..self.len.min(self.items.len())]
    }
}
