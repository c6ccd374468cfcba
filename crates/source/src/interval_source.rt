// Making an interval, and its days by arithmetic.
ghost use Rattle.std.specs.Prelude.{◌≡◌, ℕ, ◌+◌, ◌*◌, ◌<◌, ◌≤◌, true, false, ltb, List, length, MatchResult, nat_lt};
ghost use Rattle.std.specs.List.{AllByRecursion};
ghost use Rattle.calendar.specs.Years.{last_day};
ghost use Rattle.refusal.specs.Numbers.{number};
ghost use Rattle.source.specs.Days.{Ascending, first_from, before, since};
ghost use Rattle.source.specs.Intervals.{in_bounds, interval_days, Cut, Placed, ticks};
ghost use Rattle.source.specs.Ascents.{kept_ascends};
ghost use Rattle.source.specs.Ticks.{ticks_ascend};
ghost use Rattle.std.proofs.Common.{arith};
ghost use Rattle.std.proofs.ByRecursion.{All-weaker, kept_by_passes};
ghost use Rattle.std.proofs.lemmas.Bool.{ltb-true};

use crate::intervals::Interval;
use crate::sources::Source;
use calendar::days::LAST_DAY;
use refusal::Refusal;

impl Interval {
    // An interval, or a refusal where a number is out of bounds.
    pub fn new(start: u32, step: u32, count: u32) -> Result<Interval, Refusal>
        ensures { MatchResult result (λ i. (in_bounds start step count ≡ true) × (i.start ≡ start) × (i.step ≡ step) × (i.count ≡ count)) (λ e. (in_bounds start step count ≡ false) × (number e ≡ 8)) }
    {
        if start > LAST_DAY || step < 1 || step > 999 || count < 1 || count > 10_000 {
            return Err(Refusal::OutOfBounds);
        }
        Ok(Interval { start, step, count })
    }

    // How many of the count days lie before `day`.
    fn below(&self, day: u32) -> u32
        ensures { Cut self.now.start self.now.step self.now.count result day }
    {
        // no division where none lies before it, and no `div_ceil` or `min`: they took a third more time
        if day <= self.start {
            return 0;
        }
        let places = (day - self.start - 1) / self.step + 1;
        if places < self.count {
            places
        } else {
            self.count
        }
    }

    // How many days there are before `day`, and in all: those past the last day do not count.
    fn places(&self, day: u32) -> Places
        ensures { Placed self.now day result.low result.high }
    {
        Places {
            low: self.below(day.min(LAST_DAY + 1)),
            high: self.below(LAST_DAY + 1),
        }
    }
}

// Of so many days the first so many lie before a number.
#[derive(Clone, Copy)]
struct Places {
    low: u32,
    high: u32,
}

impl Source for Interval {
    ghost days = { interval_days };

    ghost ascending = { λ s. kept_ascends (λ x. ltb x 109573) (ticks s.start s.step s.count) (ticks_ascend s.start s.step s.count s.rise.0) };

    ghost bounded = { λ s.
        All-weaker (λ x. nat_lt x 109573 ≡ true) (λ x. x ≤ 109572) (λ x h. omega (arith, ltb-true x 109573 h)) (interval_days s)
        (kept_by_passes (λ x. ltb x 109573) (ticks s.start s.step s.count)) };

    fn first_at(&self, day: u32) -> Option<u32> {
        let at = self.places(day);
        if at.low < at.high {
            Some(self.start + at.low * self.step)
        } else {
            None
        }
    }

    fn head(&self, day: u32) -> Interval
        ensures days { interval_days result ≡ before day (interval_days self.now) }
        ensures count { result.count ≡ length (interval_days result) }
        ensures same { (result.start ≡ self.now.start) × (result.step ≡ self.now.step) }
    {
        let at = self.places(day);
        Interval {
            start: self.start,
            step: self.step,
            count: at.low,
        }
    }

    fn tail(&self, day: u32) -> Interval
        ensures days { interval_days result ≡ since day (interval_days self.now) }
        ensures count { result.count ≡ length (interval_days result) }
        ensures same { (result.count ≡ 0 → result.start ≡ self.now.start) × (result.step ≡ self.now.step) }
    {
        let at = self.places(day);
        // the places are asked for once: first_at would ask again
        if at.low < at.high {
            return Interval {
                start: self.start + at.low * self.step,
                step: self.step,
                count: at.high - at.low,
            };
        }
        Interval {
            start: self.start,
            step: self.step,
            count: 0,
        }
    }
}
