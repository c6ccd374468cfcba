// A list of at most N records whose days climb. Date lists and override maps hold one.
ghost use Rattle.std.specs.Prelude.{◌≡◌, true, false, [], take, drop, ⊤, MatchOption};
ghost use Rattle.bounded.specs.Climbing.{climbing, climbable};
ghost use Rattle.bounded.specs.Held.{held};

use crate::dated::{Dated, climb};
use crate::lists::Bounded;
use std::alloc::AllocError;

pub struct Climbing<T: Dated, const N: usize> {
    pub(crate) list: Bounded<T, N>,
    ghost sound: { climbing T.day_of T.carries 0 (held list) ≡ true },
}

impl<T: Dated + Copy, const N: usize> Climbing<T, N> {
    // The list of these records, or none where they are more than N or do not climb. The blank fills what stands past them.
    pub fn new(records: &[T], blank: T) -> Option<Climbing<T, N>>
        ensures { MatchOption result (climbable T.day_of T.carries N records.now ≡ false) (λ c. (climbable T.day_of T.carries N records.now ≡ true) × (held c.list ≡ records.now)) }
    {
        // the number of records first, so that a long slice is not read
        if records.len() > N || !climb(records) {
            return None;
        }
        let list = Bounded::new(records, blank)?;
        Some(Climbing { list })
    }

    // The list of no record.
    pub fn empty(blank: T) -> Climbing<T, N>
        ensures { held result.list ≡ [] }
    {
        Climbing {
            list: Bounded::empty(blank),
        }
    }

    pub fn as_slice(&self) -> &[T]
        ensures { result.now ≡ held self.now.list }
    {
        self.list.as_slice()
    }

    // The first so many records, or all where there are fewer.
    #[tactic(auto, using(crate::specs::Climbing::climb_take))]
    pub fn first(&self, count: usize) -> Climbing<T, N>
        ensures { held result.list ≡ take count (held self.now.list) }
    {
        Climbing {
            list: self.list.first(count),
        }
    }

    // All records past the first so many.
    #[tactic(auto, using(crate::specs::Climbing::climb_drop))]
    pub fn past(&self, count: usize) -> Climbing<T, N>
        ensures { held result.list ≡ drop count (held self.now.list) }
    {
        Climbing {
            list: self.list.past(count),
        }
    }
}

// By hand, as for `Bounded`.
impl<T: Dated + Copy, const N: usize> Clone for Climbing<T, N> {
    ghost is_clone = { λ b c. c ≡ b };

    ghost is_infallible = { λ _. ⊤ };

    fn clone(&self) -> Result<Climbing<T, N>, AllocError> {
        Ok(*self)
    }
}

impl<T: Dated + Copy, const N: usize> Copy for Climbing<T, N> {}
