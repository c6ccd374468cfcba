// A UID with its series, found by the UID.
ghost use Rattle.std.specs.Prelude.{◌≡◌};
ghost use Rattle.series.specs.Order.{Ahead};
ghost use Rattle.series.specs.Values.{uid_octets};
ghost use Rattle.series.proofs.Orders.{chain};
ghost use Rattle.store.specs.Keys.{ahead_apart, behind_apart};

use lookup::Keyed;
use series::stored::StoredSeries;
use series::uids::Uid;
use std::cmp::Ordering;

#[derive(Clone, Copy)]
pub struct Pair<S> {
    pub uid: Uid,
    pub series: StoredSeries<S>,
}

impl<S> Keyed for Pair<S> {
    type Key = Uid;

    ghost before = { λ a b. Ahead (uid_octets a.uid) (uid_octets b.uid) };

    ghost less = { λ a k. Ahead (uid_octets a.uid) (uid_octets k) };

    ghost same = { λ a k. uid_octets a.uid ≡ uid_octets k };

    ghost more = { λ a k. Ahead (uid_octets k) (uid_octets a.uid) };

    ghost down = { λ a b k p q. chain (uid_octets a.uid) (uid_octets b.uid) (uid_octets k) p q };

    ghost up = { λ a b k p q. chain (uid_octets k) (uid_octets a.uid) (uid_octets b.uid) q p };

    ghost below = { λ a k p q. ahead_apart (uid_octets a.uid) (uid_octets k) p q };

    ghost above = { λ a k p q. behind_apart (uid_octets a.uid) (uid_octets k) p q };

    fn order(&self, key: &Uid) -> Ordering {
        self.uid.cmp(key)
    }
}
