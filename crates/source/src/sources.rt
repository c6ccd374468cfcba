// A source means a strictly ascending list of days, and answers for it.
ghost use Rattle.std.specs.Prelude.{◌≡◌, ℕ, ◌≤◌, List};
ghost use Rattle.std.specs.List.{AllByRecursion};
ghost use Rattle.calendar.specs.Years.{last_day};
ghost use Rattle.source.specs.Days.{Ascending, first_from, before, since};

// A plain value, so that a series can be kept twice without asking for memory.
pub trait Source: Copy + Sized {
    ghost days: { Self → List ℕ };

    // The first day at or after a number, or none.
    fn first_at(&self, day: u32) -> Option<u32>
        ensures { result ≡ first_from day (days self.now) };

    // The days before a number, as a source of their own.
    fn head(&self, day: u32) -> Self
        ensures { days result ≡ before day (days self.now) };

    // The days from a number on, as a source of their own.
    fn tail(&self, day: u32) -> Self
        ensures { days result ≡ since day (days self.now) };

    ghost ascending: { (s : Self) → Ascending (days s) };

    ghost bounded: { (s : Self) → AllByRecursion (λ d. d ≤ last_day) (days s) };
}
