// A rule as a source of days, and its cuts. They write every field: there is no `..*self` beside ghost fields.
ghost use Rattle.std.specs.Prelude.{◌≡◌, ◌≤◌, max};
ghost use Rattle.source.specs.Days.{first_from, before, since};
ghost use Rattle.pattern.specs.First.{First};
ghost use Rattle.rule.specs.Spans.{span};
ghost use Rattle.rule.specs.Lists.{chooses};
ghost use Rattle.rule.specs.Cut.{Head, Tail, days_in, recount, lowered, reuntil};
ghost use Rattle.rule.specs.Meaning.{ListsMeant, Ordinals};
ghost use Rattle.rule.specs.Cuts;

use crate::choice::Choice;
use crate::rules::Rule;
use calendar::days::LAST_DAY;
use source::sources::Source;

// The last day lowered to the day before `day`.
fn lower(until: Option<u32>, day: u32) -> Option<u32>
    ensures { result ≡ lowered until day }
{
    match until {
        None => (day <= LAST_DAY).then_some(day),
        Some(end) => Some(end.min(day)),
    }
}

impl Rule {
    // The first day of the list that is not before `day`.
    fn at_or_after(&self, day: u32) -> Option<u32>
        ensures { First (chooses self.now.choice.pattern self.now.choice.start) (max self.now.choice.start day) self.now.end result }
    {
        let from = self.choice.start.max(day);
        // past the end nothing is asked of the pattern
        if from >= self.end {
            return None;
        }
        self.choice.next_day(from, self.end)
    }

    // The last day of the head before `day`.
    fn until_before(&self, day: u32) -> Option<u32>
        ensures { result ≡ reuntil self.now.count self.now.until day }
    {
        if self.count.is_some() {
            self.until
        } else {
            lower(self.until, day)
        }
    }

    // COUNT, if it is given, of the days from `from` on, before `end`.
    fn count_of(&self, from: u32, end: u32) -> Option<u32>
        requires { end ≤ 109573 }
        ensures { result ≡ recount self.now.count (span (chooses self.now.choice.pattern self.now.choice.start) from end) }
    {
        self.count.map(|_| self.choice.count_days(from, end))
    }
}

impl Source for Rule {
    ghost days = { days_in };

    ghost ascending = { λ r. Cuts.ascending r.choice.pattern r.choice.start r.until r.count r.end r.settled };

    ghost bounded = { λ r. Cuts.bounded r.choice.pattern r.choice.start r.until r.count r.end r.settled r.choice.begun r.range.0 r.range.1 };

    #[tactic(auto, using(crate::specs::Cuts::first_is, crate::proofs::Meanings::lists_meant))]
    fn first_at(&self, day: u32) -> Option<u32>
        ensures value { result ≡ first_from day (days_in self.now) }
        ensures meant { ListsMeant self.now }
        ensures ordinals { Ordinals }
    {
        self.at_or_after(day)
    }

    fn head(&self, day: u32) -> Rule
        ensures days { days_in result ≡ before day (days_in self.now) }
        ensures parts { Head day self.now result }
    {
        let end = self.end.min(day);
        Rule {
            choice: self.choice,
            until: self.until_before(day),
            count: self.count_of(self.choice.start, end),
            end,
        }
    }

    fn tail(&self, day: u32) -> Rule
        ensures days { days_in result ≡ since day (days_in self.now) }
        ensures parts { Tail day self.now result }
    {
        let Some(first) = self.at_or_after(day) else {
            return Rule {
                choice: self.choice,
                until: self.until,
                count: Some(0),
                end: 0,
            };
        };
        Rule {
            choice: Choice {
                pattern: self.choice.pattern,
                start: first,
            },
            until: self.until,
            count: self.count_of(first, self.end),
            end: self.end,
        }
    }
}
