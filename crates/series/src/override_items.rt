// Making an override map, and what it says of a day.
ghost use Rattle.std.specs.Prelude.{◌≡◌, true, false, [], MatchResult};
ghost use Rattle.std.specs.Option.{option_map};
ghost use Rattle.refusal.specs.Numbers.{number};
ghost use Rattle.series.specs.Marks.{map_holdable, mark_from, mark_on, Place};
ghost use Rattle.series.specs.Plans.{overrides_of};

use crate::changes::{Change, Override};
use crate::overrides::Overrides;
use bounded::climbing::Climbing;
use lookup::find;
use refusal::Refusal;

impl Overrides {
    // An override map, or a refusal where there are too many, a day past the last, one not after the one before it, or a start past the last.
    pub fn new(items: &[Override]) -> Result<Overrides, Refusal>
        ensures { MatchResult result (λ m. (map_holdable items.now ≡ true) × (overrides_of m ≡ items.now)) (λ e. (map_holdable items.now ≡ false) × (number e ≡ 8)) }
    {
        let items = Climbing::new(items, BLANK).ok_or(Refusal::OutOfBounds)?;
        Ok(Overrides { items })
    }

    // No override.
    pub fn none() -> Overrides
        ensures { overrides_of result ≡ [] }
    {
        Overrides {
            items: Climbing::empty(BLANK),
        }
    }

    pub fn as_slice(&self) -> &[Override]
        ensures { result.now ≡ overrides_of self.now }
    {
        self.items.as_slice()
    }

    // The place of the override of a day, or none.
    fn place(&self, day: u32) -> Option<usize>
        ensures { Place (overrides_of self.now) day result }
    {
        find(self.as_slice(), &day).ok()
    }

    // What became of a day, or none where no override has it.
    pub fn change_on(&self, day: u32) -> Option<&Change>
        ensures { mark_from (option_map (λ x. x.now) result) ≡ mark_on (overrides_of self.now) day }
    {
        let place = self.place(day)?;
        Some(&self.as_slice()[place].change)
    }
}

// What stands past the overrides of a map, and means nothing.
const BLANK: Override = Override {
    day: 0,
    change: Change::Cancelled,
};
