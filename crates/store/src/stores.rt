// What every store means and keeps.
ghost use Rattle.std.specs.Prelude.{◌≡◌, ℕ, ◌≤◌, List, length, MatchResult};
ghost use Rattle.std.specs.Option.{option_map};
ghost use Rattle.refusal.specs.Numbers.{number};
ghost use Rattle.series.specs.Values.{uid_octets};
ghost use Rattle.store.specs.declared.pairs.Pair.{Pair};
ghost use Rattle.store.specs.Pairs.{Ascends, pair_at, place_of, placed, without, Full};

use crate::pairs::Pair;
use refusal::Refusal;
use series::uids::Uid;
use source::sources::Source;

// Pairs of UID and series, strictly ascending by UID, and a fixed capacity.
pub trait Store: Drop {
    // The one kind of source that its series have.
    type Source: Source;

    ghost pairs: { Self → List (Pair Self.Source) };

    ghost limit: { Self → ℕ };

    fn capacity(&self) -> usize
        ensures { result ≡ limit self.now };

    fn count(&self) -> usize
        ensures { result ≡ length (pairs self.now) };

    // The place of a UID, or none.
    fn place(&self, uid: &Uid) -> Option<usize>
        ensures { result ≡ place_of (uid_octets uid.now) (pairs self.now) };

    // The pair at a place, or none past the last.
    fn at(&self, place: usize) -> Option<&Pair<Self::Source>>
        ensures { option_map (λ x. x.now) result ≡ pair_at (pairs self.now) place };

    // Puts a pair in the place of the one with its UID, or adds it; refuses a new UID at full capacity.
    fn put(&mut self, pair: Pair<Self::Source>) -> Result<(), Refusal>
        ensures cases { MatchResult result (λ _. pairs self.new ≡ placed pair (pairs self.old)) (λ e. Full (limit self.old) pair (pairs self.old) (pairs self.new) (number e)) }
        ensures capacity { limit self.new ≡ limit self.old };

    // Takes the pair of a UID out; an absent UID changes nothing.
    fn remove(&mut self, uid: &Uid)
        ensures pairs { pairs self.new ≡ without (uid_octets uid.now) (pairs self.old) }
        ensures capacity { limit self.new ≡ limit self.old };

    ghost ascending: { (s : Self) → Ascends (pairs s) };

    ghost bounded: { (s : Self) → length (pairs s) ≤ limit s };
}
