// Both parts of a source at once.
ghost use Rattle.std.specs.Prelude.{◌≡◌, ◌++◌};
ghost use Rattle.source.specs.Days.{before, since};

use crate::sources::Source;

// Head and tail at a number: one after the other they are the whole.
#[tactic(auto, using(crate::specs::Ascents::before_since))]
pub fn parts<S: Source>(source: &S, day: u32) -> (S, S)
    ensures head { S.Source.days result.0 ≡ before day (S.Source.days source.now) }
    ensures tail { S.Source.days result.1 ≡ since day (S.Source.days source.now) }
    ensures whole { S.Source.days result.0 ++ S.Source.days result.1 ≡ S.Source.days source.now }
{
    (source.head(day), source.tail(day))
}
