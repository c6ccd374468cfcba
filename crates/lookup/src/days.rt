// Days as records that are their own keys.
ghost use Rattle.std.specs.Prelude.{◌≡◌, ◌<◌};
ghost use Rattle.std.proofs.Common.{rules};

use super::Keyed;
use std::cmp::Ordering;

impl Keyed for u32 {
    type Key = u32;

    ghost before = { λ a b. a < b };

    ghost less = { λ a k. a < k };

    ghost same = { λ a k. a ≡ k };

    ghost more = { λ a k. k < a };

    ghost down = { Prim.search rules };

    ghost up = { Prim.search rules };

    ghost below = { Prim.search rules };

    ghost above = { Prim.search rules };

    fn order(&self, key: &u32) -> Ordering {
        self.cmp(key)
    }
}
