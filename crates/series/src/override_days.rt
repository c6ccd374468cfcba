// The day of an override, by which it is found, and what it carries.
ghost use Rattle.std.specs.Prelude.{◌≡◌, ◌<◌};
ghost use Rattle.std.proofs.Common.{rules};
ghost use Rattle.series.specs.Marks.{change_fits};

use crate::changes::{Change, Override};
use bounded::dated::Dated;
use calendar::starts::STARTS_END;
use lookup::Keyed;
use std::cmp::Ordering;

impl Keyed for Override {
    type Key = u32;

    ghost before = { λ a b. a.day < b.day };

    ghost less = { λ a k. a.day < k };

    ghost same = { λ a k. a.day ≡ k };

    ghost more = { λ a k. k < a.day };

    ghost down = { Prim.search rules };

    ghost up = { Prim.search rules };

    ghost below = { Prim.search rules };

    ghost above = { Prim.search rules };

    fn order(&self, key: &u32) -> Ordering {
        self.day.cmp(key)
    }
}

impl Dated for Override {
    ghost day_of = { λ o. o.day };

    ghost carries = { λ o. change_fits o.change };

    fn day(&self) -> u32 {
        self.day
    }

    fn fits(&self) -> bool {
        match &self.change {
            Change::Cancelled => true,
            Change::Altered(alteration) => alteration.start < STARTS_END,
        }
    }
}
