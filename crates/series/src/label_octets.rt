// Making a label, and its octets.
ghost use Rattle.std.specs.Prelude.{◌≡◌, true, false, MatchResult};
ghost use Rattle.bounded.specs.Held.{held};
ghost use Rattle.refusal.specs.Numbers.{number};
ghost use Rattle.series.specs.Octets.{bounded};

use crate::alphabets::{Alphabet, all_of};
use crate::labels::Label;
use bounded::lists::Bounded;
use refusal::Refusal;
use std::marker::PhantomData;

impl<A: Alphabet, const N: usize> Label<A, N> {
    pub fn new(octets: &[u8]) -> Result<Label<A, N>, Refusal>
        ensures { MatchResult result (λ l. (bounded N A.holds octets.now ≡ true) × (held l.octets ≡ octets.now)) (λ e. (bounded N A.holds octets.now ≡ false) × (number e ≡ 8)) }
    {
        if octets.is_empty() || octets.len() > N || !all_of::<A>(octets) {
            return Err(Refusal::OutOfBounds);
        }
        let octets = Bounded::new(octets, 0).ok_or(Refusal::OutOfBounds)?;
        Ok(Label {
            octets,
            of: PhantomData,
        })
    }

    pub fn as_bytes(&self) -> &[u8]
        ensures { result.now ≡ held self.now.octets }
    {
        self.octets.as_slice()
    }
}
