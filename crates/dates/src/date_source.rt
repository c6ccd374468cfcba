// Making a date list, and the days of it that are asked for.
ghost use Rattle.std.specs.Prelude.{◌≡◌, ◌≤◌, true, false, length, take, drop, MatchResult};
ghost use Rattle.refusal.specs.Numbers.{number};
ghost use Rattle.dates.specs.Climbs.{holdable};
ghost use Rattle.dates.specs.Dates.{date_days, Split};
ghost use Rattle.dates.specs.Climbing.{climbs_ascend, climbs_bounded};

use crate::dates::DateList;
use bounded::climbing::Climbing;
use lookup::find;
use refusal::Refusal;
use source::sources::Source;

impl DateList {
    // A date list, or a refusal where there are too many days, one past the last, or one not after the one before it.
    pub fn new(days: &[u32]) -> Result<DateList, Refusal>
        ensures { MatchResult result (λ l. (holdable days.now ≡ true) × (date_days l ≡ days.now)) (λ e. (holdable days.now ≡ false) × (number e ≡ 8)) }
    {
        let days = Climbing::new(days, 0).ok_or(Refusal::OutOfBounds)?;
        Ok(DateList { days })
    }

    // How many days lie before `day`: where it would stand, and not whether it is there, as the override map asks.
    fn place(&self, day: u32) -> usize
        ensures { Split self.now day result }
    {
        match find(self.days.as_slice(), &day) {
            Ok(place) | Err(place) => place,
        }
    }
}

impl Source for DateList {
    ghost days = { date_days };

    ghost ascending = { λ s. climbs_ascend 0 (date_days s) s.days.sound };

    ghost bounded = { λ s. climbs_bounded 0 (date_days s) s.days.sound };

    fn first_at(&self, day: u32) -> Option<u32> {
        self.days.as_slice().get(self.place(day)).copied()
    }

    fn head(&self, day: u32) -> DateList {
        DateList {
            days: self.days.first(self.place(day)),
        }
    }

    fn tail(&self, day: u32) -> DateList {
        DateList {
            days: self.days.past(self.place(day)),
        }
    }
}
