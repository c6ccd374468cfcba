// The chosen days, from one to the next.
ghost use Rattle.std.specs.Prelude.{◌≡◌, ◌<◌, ◌≤◌, length, take};
ghost use Rattle.pattern.specs.First.{First};
ghost use Rattle.rule.specs.Spans.{span, stop};
ghost use Rattle.rule.specs.Lists.{chooses, days_of};
ghost use Rattle.rule.specs.Refused.{count_bounds, among};

use crate::choice::Choice;
use pattern::scan::next_picked;

// Two numbers and no range: `from` moves and the end stays. The bound of an end stands at each function: a type for it would be opened at every comparison with a day.
impl Choice {
    // The first chosen day from `from` on, before `end`.
    #[tactic(auto, using(crate::proofs::Firsts::the_day, crate::proofs::Firsts::no_day))]
    pub(crate) fn next_day(&self, from: u32, end: u32) -> Option<u32>
        requires { end ≤ 109573 }
        ensures { First (chooses self.now.pattern self.now.start) from end result }
    {
        match &self.pattern {
            None => (from <= self.start && self.start < end).then_some(self.start),
            Some(p) => next_picked(p, self.start, from, end),
        }
    }

    pub(crate) fn chooses(&self, day: u32) -> bool
        requires { day < 109573 }
        ensures { result ≡ chooses self.now.pattern self.now.start day }
    {
        self.next_day(day, day + 1).is_some()
    }

    // How many days are chosen from `from` on, before `end`.
    pub(crate) fn count_days(&self, from: u32, end: u32) -> u32
        requires { end ≤ 109573 }
        ensures { result ≡ length (span (chooses self.now.pattern self.now.start) from end) }
    {
        self.days_from(from, end).count() as u32
    }

    // Where the first `count` days from the start on, before `stop`, end.
    #[tactic(auto, using(crate::proofs::Settling::settled_none))]
    pub(crate) fn settle(&self, stop: u32, count: u32) -> u32
        requires { stop ≤ 109573 }
        ensures low { result ≤ stop }
        ensures value { take count (span (chooses self.now.pattern self.now.start) self.now.start stop) ≡ span (chooses self.now.pattern self.now.start) self.now.start result }
    {
        if count == 0 {
            return self.start.min(stop);
        }
        let Some(last) = self.days_from(self.start, stop).nth(count as usize - 1) else {
            return stop;
        };
        last + 1
    }
}
