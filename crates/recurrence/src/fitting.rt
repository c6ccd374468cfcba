// The bounds of the parts, and which may stand together.
ghost use Rattle.std.specs.Prelude.{◌≡◌, Bool};
ghost use Rattle.std.specs.List.{list_all};
ghost use Rattle.recurrence.specs.Entries.{entries};
ghost use Rattle.recurrence.specs.Bounds.{number, month_fits, month_day_fits, day_entry_fits, few_fit, plain, pattern_fits, suits};

use crate::parts::{DayEntry, Few, Frequency, Ordinal, Pattern};

trait Entry: Copy {
    ghost bounds: { Self → Bool };

    fn fits(&self) -> bool
        ensures { result ≡ bounds self.now };
}

impl Entry for u8 {
    ghost bounds = { λ m. month_fits m };

    fn fits(&self) -> bool {
        (1..=12).contains(self)
    }
}

impl Ordinal {
    fn number(self) -> u8
        ensures { result ≡ number self }
    {
        match self {
            Ordinal::FromStart(n) | Ordinal::FromEnd(n) => n,
        }
    }
}

impl Entry for Ordinal {
    ghost bounds = { λ e. month_day_fits e };

    fn fits(&self) -> bool {
        (1..=31).contains(&self.number())
    }
}

impl Entry for DayEntry {
    ghost bounds = { λ e. day_entry_fits e };

    fn fits(&self) -> bool {
        self.ordinal.is_none_or(|n| (1..=53).contains(&n.number()))
    }
}

// Each entry is in its bounds.
fn each_fits<T: Entry>(list: &[T]) -> bool
    ensures { result ≡ list_all T.Entry.bounds list.now }
{
    list.iter().all(|e| e.fits())
}

// At most 12 entries, each in its bounds.
fn few_fit<T: Entry>(few: &Few<T>) -> bool
    ensures { result ≡ few_fit T.Entry.bounds few.now }
{
    few.len <= 12 && each_fits(few.as_slice())
}

// No entry has an ordinal.
fn all_plain(few: &Few<DayEntry>) -> bool
    ensures { result ≡ list_all plain (entries few.now) }
{
    few.as_slice().iter().all(|e| e.ordinal.is_none())
}

impl Pattern {
    // The parts are in their bounds.
    pub fn fits(&self) -> bool
        ensures { result ≡ pattern_fits self.now }
    {
        (1..=999).contains(&self.interval)
            && few_fit(&self.months)
            && few_fit(&self.month_days)
            && few_fit(&self.week_days)
    }

    // The parts may stand together.
    pub fn suits(&self) -> bool
        ensures { result ≡ suits self.now.frequency self.now.month_days self.now.week_days }
    {
        match self.frequency {
            Frequency::Daily => all_plain(&self.week_days),
            Frequency::Weekly => all_plain(&self.week_days) && self.month_days.is_empty(),
            Frequency::Monthly | Frequency::Yearly => true,
        }
    }
}
