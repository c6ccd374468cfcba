// The chosen days from a number on, one after the other.
ghost use Rattle.std.specs.Prelude.{◌≡◌, ◌≤◌, length};
ghost use Rattle.std.specs.Iterator.{YieldsFirst, item_count};
ghost use Rattle.rule.specs.Spans.{span};
ghost use Rattle.rule.specs.Lists.{chooses};
ghost use Rattle.rule.specs.Listing.{chosen_left};

use crate::choice::{Choice, Chosen};

impl Choice {
    // The chosen days from `from` on, before `end`.
    #[tactic(auto, using(crate::proofs::Settling::few_in))]
    pub(crate) fn days_from(&self, from: u32, end: u32) -> Chosen<'_>
        requires { end ≤ 109573 }
        ensures left { chosen_left result ≡ span (chooses self.now.pattern self.now.start) from end }
        ensures few { length (chosen_left result) ≤ 109573 }
    {
        Chosen {
            choice: self,
            next: from,
            end,
        }
    }
}

impl Iterator for Chosen<'_> {
    type Item = u32;

    ghost next_gives = { YieldsFirst chosen_left };

    ghost remaining = { item_count chosen_left };

    #[tactic(auto, using(crate::proofs::Settling::next_in, crate::specs::SpansLemmas::empty))]
    fn next(&mut self) -> Option<u32> {
        let day = self.choice.next_day(self.next, self.end)?;
        self.next = day + 1;
        Some(day)
    }
}
