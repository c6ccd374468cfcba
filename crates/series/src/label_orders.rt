// Equality and order of labels: octet by octet, a proper beginning first.
// By hand, since a derive would read what stands past the last octet.
ghost use Rattle.std.specs.Prelude.{◌≡◌, ◌==◌};
ghost use Rattle.std.proofs.Common.{rules};
ghost use Rattle.std.specs.Cmp.{partial_order_from_own_ties};
ghost use Rattle.std.specs.Cmp.Lexicographic.{slice_cmp};
ghost use Rattle.std.specs.Cmp.Rules.{comparing};
ghost use Rattle.std.specs.Ordering.{MatchOrdering, nat_cmp, on, as_partial_cmp};
ghost use Rattle.std.specs.Str.{bytes_eq};
ghost use Rattle.bounded.specs.Held.{held};
ghost use Rattle.series.specs.Order.{Ahead};

use crate::alphabets::Alphabet;
use crate::labels::Label;
use std::cmp::Ordering;

impl<A: Alphabet, const N: usize> PartialEq for Label<A, N> {
    ghost eq = { on (λ l. held l.octets) bytes_eq };

    ghost laws = { Prim.search (comparing, rules) };

    fn eq(&self, other: &Label<A, N>) -> bool {
        self.as_bytes() == other.as_bytes()
    }
}

impl<A: Alphabet, const N: usize> Eq for Label<A, N> {
    ghost laws = { Prim.search (comparing, rules) };
}

impl<A: Alphabet, const N: usize> Ord for Label<A, N> {
    ghost cmp = { on (λ l. held l.octets) (slice_cmp nat_cmp) };

    ghost total = { Prim.search (comparing, rules) };

    ghost matches_partial_cmp = { Prim.search (comparing, rules) };

    ghost matches_eq = { Prim.search (comparing, rules) };

    #[tactic(auto, using(crate::proofs::Orders::ranks_at))]
    fn cmp(&self, other: &Label<A, N>) -> Ordering
        ensures value { result ≡ slice_cmp nat_cmp (held self.now.octets) (held other.now.octets) }
        ensures ranks { MatchOrdering result (Ahead (held self.now.octets) (held other.now.octets)) (held self.now.octets ≡ held other.now.octets) (Ahead (held other.now.octets) (held self.now.octets)) }
    {
        self.as_bytes().cmp(&other.as_bytes())
    }
}

impl<A: Alphabet, const N: usize> PartialOrd for Label<A, N> {
    ghost partial_cmp = { as_partial_cmp (on (λ l. held l.octets) (slice_cmp nat_cmp)) };

    ghost laws = { partial_order_from_own_ties (Prim.search (comparing, rules)) (Prim.search (comparing, rules)) };

    fn partial_cmp(&self, other: &Label<A, N>) -> Option<Ordering> {
        Some(self.cmp(other))
    }
}
