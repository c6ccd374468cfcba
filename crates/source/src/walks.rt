// The days of a source from a number on, one after the other.
ghost use Rattle.std.specs.Prelude.{◌≡◌, ◌≤◌, length};
ghost use Rattle.std.specs.Iterator.{YieldsFirst, item_count};
ghost use Rattle.source.specs.Days.{since};
ghost use Rattle.source.specs.Walks.{days_left};

use crate::sources::Source;

// Where a walk over the days stands: it asks the source for one day at a time.
#[derive(Clone, Copy)]
pub struct Walk<'a, S> {
    source: &'a S,
    next: u32,
}

// The days from a number on.
pub fn days_from<S: Source>(source: &S, day: u32) -> Walk<'_, S>
    ensures left { days_left S.Source.days result ≡ since day (S.Source.days source.now) }
    ensures few { length (days_left S.Source.days result) ≤ 109573 }
{
    Walk { source, next: day }
}

impl<S: Source> Iterator for Walk<'_, S> {
    type Item = u32;

    ghost next_gives = { YieldsFirst (days_left S.Source.days) };

    ghost remaining = { item_count (days_left S.Source.days) };

    fn next(&mut self) -> Option<u32> {
        let day = self.source.first_at(self.next)?;
        self.next = day + 1;
        Some(day)
    }
}
