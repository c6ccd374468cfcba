// The place of a key among ascending records, by halving: proved once for every kind of key.
#![tactic(auto)]

pub mod days;

ghost use Rattle.std.specs.Result.{MatchResult};
ghost use Rattle.std.specs.Ordering.{MatchOrdering};
ghost use Rattle.lookup.specs.Places.{Rising, Present, Absent};

use std::cmp::Ordering;

// A record with a key of a total order.
pub trait Keyed {
    type Key;

    // One record's key lies below another's.
    ghost before: { Self → Self → Type 0 };

    // The record's key lies below a key, is that key, lies above it.
    ghost less: { Self → Self.Key → Type 0 };

    ghost same: { Self → Self.Key → Type 0 };

    ghost more: { Self → Self.Key → Type 0 };

    fn order(&self, key: &Self::Key) -> Ordering
        ensures { MatchOrdering result (less self.now key.now) (same self.now key.now) (more self.now key.now) };

    ghost down: { (a b : Self) (k : Self.Key) → before a b → less b k → less a k };

    ghost up: { (a b : Self) (k : Self.Key) → before a b → more a k → more b k };

    ghost below: { (a : Self) (k : Self.Key) → less a k → same a k → ⊥ };

    ghost above: { (a : Self) (k : Self.Key) → more a k → same a k → ⊥ };
}

// The place of the key, or the place where it would stand.
// The records must ascend: every caller has that from its own type's invariant, and a check here would cost more than the answer.
pub fn find<R: Keyed>(records: &[R], key: &R::Key) -> Result<usize, usize>
    requires { Rising R.Keyed.before records.now }
    ensures { MatchResult result (λ i. Present R.Keyed.same records.now key.now i) (λ i. Absent R.Keyed.less R.Keyed.same R.Keyed.more records.now key.now i) }
{
    // Halved by hand: `binary_search_by` says its place only of an order that is a function (`ComputesKey`), and a record's order is known by relations.
    let mut low = 0;
    let mut high = records.len();
    while low < high {
        let mid = low + (high - low) / 2;
        match records[mid].order(key) {
            Ordering::Less => low = mid + 1,
            Ordering::Equal => return Ok(mid),
            Ordering::Greater => high = mid,
        }
    }
    Err(low)
}
