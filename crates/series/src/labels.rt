// A label: 1 to N octets of an alphabet. Texts and UIDs are labels.
ghost use Rattle.std.specs.Prelude.{◌≡◌, ⊤, true};
ghost use Rattle.bounded.specs.Held.{held};
ghost use Rattle.series.specs.Octets.{bounded};

use crate::alphabets::Alphabet;
use bounded::lists::Bounded;
use std::alloc::AllocError;
use std::marker::PhantomData;

pub struct Label<A: Alphabet, const N: usize> {
    pub(crate) octets: Bounded<u8, N>,
    pub(crate) of: PhantomData<A>,
    ghost valid: { bounded N A.holds (held octets) ≡ true },
}

// By hand: beside a ghost field, `derive` is refused for a struct that is generic in a type (`derive-over-ghost-field`).
impl<A: Alphabet, const N: usize> Clone for Label<A, N> {
    ghost is_clone = { λ a b. b ≡ a };

    ghost is_infallible = { λ _. ⊤ };

    fn clone(&self) -> Result<Label<A, N>, AllocError> {
        Ok(*self)
    }
}

impl<A: Alphabet, const N: usize> Copy for Label<A, N> {}
