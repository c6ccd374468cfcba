// The entries of a pattern's lists: each passes or not at the facts of a day.
ghost use Rattle.std.specs.Prelude.{◌≡◌, ◌≤◌, Bool};
ghost use Rattle.std.specs.List.{list_any};
ghost use Rattle.pattern.specs.declared.facts.Facts.{Facts};
ghost use Rattle.pattern.specs.Picks.{allows, at_month, at_place, at_month_day, at_weekday};

use crate::facts::Facts;
use recurrence::parts::{DayEntry, Few, Ordinal};

pub(crate) trait Entry: Copy {
    ghost test: { Facts → Self → Bool };

    fn passes(&self, facts: &Facts) -> bool
        ensures { result ≡ test facts.now self.now };
}

impl Entry for u8 {
    ghost test = { λ f m. at_month f m };

    fn passes(&self, facts: &Facts) -> bool {
        facts.month == *self
    }
}

// Whether a place is the one that an ordinal counts, given its numbers from the beginning and from the end.
fn is_at(nth: u8, last: u8, ordinal: Ordinal) -> bool
    ensures { result ≡ at_place nth last ordinal }
{
    match ordinal {
        Ordinal::FromStart(n) => nth == n,
        Ordinal::FromEnd(n) => last == n,
    }
}

impl Entry for Ordinal {
    ghost test = { λ f e. at_month_day f e };

    fn passes(&self, facts: &Facts) -> bool {
        is_at(facts.day, facts.back, *self)
    }
}

impl Entry for DayEntry {
    ghost test = { λ f e. at_weekday f e };

    fn passes(&self, facts: &Facts) -> bool {
        facts.weekday == self.weekday
            && self.ordinal.is_none_or(|n| is_at(facts.nth, facts.last, n))
    }
}

fn any_passes<T: Entry>(list: &[T], facts: &Facts) -> bool
    ensures { result ≡ list_any (T.Entry.test facts.now) list.now }
{
    list.iter().any(|e| e.passes(facts))
}

// The part is absent, or some entry passes.
pub(crate) fn allowed<T: Entry>(few: &Few<T>, facts: &Facts) -> bool
    ensures { result ≡ allows (T.Entry.test facts.now) few.now }
{
    few.is_empty() || any_passes(few.as_slice(), facts)
}
