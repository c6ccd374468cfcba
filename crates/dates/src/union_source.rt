// The days of both sides of a union, each day once.
ghost use Rattle.std.specs.Prelude.{◌≡◌, ◌≤◌};
ghost use Rattle.dates.specs.Dates.{date_days};
ghost use Rattle.dates.specs.Unions.{merged, sooner, Joined};
ghost use Rattle.dates.specs.Merges.{merged_ascends, all_merged};
ghost use Rattle.dates.specs.Climbing.{climbs_bounded};

use crate::dates::DateList;
use crate::unions::Union;
use source::sources::Source;

impl<S: Source> Union<S> {
    // A union's days are those of both sides and no other.
    #[tactic(auto, using(crate::proofs::Members::among_merged, crate::proofs::Members::joined_alone))]
    pub fn new(first: S, dates: DateList) -> Union<S>
        ensures sides { (result.first ≡ first) × (result.dates ≡ dates) }
        ensures days { Joined (S.Source.days first) (date_days dates) (merged (S.Source.days result.first) (date_days result.dates)) }
    {
        Union { first, dates }
    }
}

impl<S: Source> Source for Union<S> {
    ghost days = { λ u. merged (S.Source.days u.first) (date_days u.dates) };

    ghost ascending = { λ u. merged_ascends (S.Source.days u.first) (date_days u.dates) (S.Source.ascending u.first) };

    ghost bounded = { λ u. all_merged (λ d. d ≤ 109572) (S.Source.days u.first) (date_days u.dates) (S.Source.bounded u.first) (climbs_bounded 0 (date_days u.dates) u.dates.days.sound) };

    #[tactic(auto, using(crate::proofs::Members::union_first))]
    fn first_at(&self, day: u32) -> Option<u32> {
        sooner_of(self.first.first_at(day), self.dates.first_at(day))
    }

    #[tactic(auto, using(crate::proofs::Members::union_head))]
    fn head(&self, day: u32) -> Union<S> {
        Union {
            first: self.first.head(day),
            dates: self.dates.head(day),
        }
    }

    #[tactic(auto, using(crate::proofs::Members::union_tail))]
    fn tail(&self, day: u32) -> Union<S> {
        Union {
            first: self.first.tail(day),
            dates: self.dates.tail(day),
        }
    }
}

// The one there is, or the sooner of two. The least of two Options would be the None.
fn sooner_of(a: Option<u32>, b: Option<u32>) -> Option<u32>
    ensures { result ≡ sooner a b }
{
    match (a, b) {
        (Some(x), Some(y)) => Some(x.min(y)),
        _ => a.or(b),
    }
}
