// What is asked of any source by its first days.
ghost use Rattle.std.specs.Prelude.{◌≡◌};
ghost use Rattle.source.specs.Days.{among, no_days};

use crate::sources::Source;

// Whether a day is one of a source's.
#[tactic(auto, using(crate::proofs::Among::among_first))]
pub fn has_day<S: Source>(source: &S, day: u32) -> bool
    ensures { result ≡ among day (S.Source.days source.now) }
{
    source.first_at(day) == Some(day)
}

// Whether a source has no day at all.
pub fn is_empty<S: Source>(source: &S) -> bool
    ensures { result ≡ no_days (S.Source.days source.now) }
{
    source.first_at(0).is_none()
}
