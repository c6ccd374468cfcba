// Making a rule of a start and a recurrence, or refusing it.
ghost use Rattle.std.specs.Prelude.{◌≡◌, ◌≤◌, true, false, Some, None, MatchResult};
ghost use Rattle.rule.specs.Spans.{span, stop};
ghost use Rattle.rule.specs.Lists.{chooses, days_of};
ghost use Rattle.rule.specs.Refused.{pattern_of, until_of, count_of, count_bounds, in_bounds, conflict, among, refusal, Made, MakesRule};

use crate::choice::Choice;
use crate::rules::Rule;
use calendar::days::LAST_DAY;
use recurrence::parts::{Pattern, Recurrence};
use refusal::Refusal;

fn pattern_of(recurrence: &Option<Recurrence>) -> Option<Pattern>
    ensures { result ≡ pattern_of recurrence.now }
{
    recurrence.map(|r| r.pattern)
}

fn until_of(recurrence: &Option<Recurrence>) -> Option<u32>
    ensures { result ≡ until_of recurrence.now }
{
    recurrence.and_then(|r| r.until)
}

fn count_of(recurrence: &Option<Recurrence>) -> Option<u32>
    ensures { result ≡ count_of recurrence.now }
{
    recurrence.and_then(|r| r.count)
}

fn stop_of(until: Option<u32>) -> u32
    ensures value { result ≡ stop until }
    ensures bound { result ≤ 109573 }
{
    until.map_or(LAST_DAY + 1, |day| day.min(LAST_DAY + 1))
}

fn count_fits(count: Option<u32>) -> bool
    ensures { result ≡ count_bounds count }
{
    count.is_none_or(|n| (1..=10_000).contains(&n))
}

fn in_bounds(start: u32, recurrence: &Option<Recurrence>) -> bool
    ensures { result ≡ in_bounds start recurrence.now }
{
    start <= LAST_DAY
        && recurrence
            .as_ref()
            .is_none_or(|r| r.pattern.fits() && count_fits(r.count))
}

// The parts may not stand together, or two ends are given.
fn conflicting(recurrence: &Option<Recurrence>) -> bool
    ensures { result ≡ conflict recurrence.now }
{
    recurrence.as_ref().is_some_and(|r| !r.pattern.suits()
        || r.count.is_some() && r.until.is_some())
}

impl Choice {
    // The start is chosen, and lies before the end.
    #[tactic(auto, using(crate::proofs::Refusals::start_told, crate::proofs::Refusals::too_late))]
    fn starts(&self, until: Option<u32>, count: Option<u32>) -> bool
        requires { count_bounds count ≡ true }
        ensures { result ≡ among self.now.start (days_of self.now.pattern self.now.start until count) }
    {
        self.start < stop_of(until) && self.chooses(self.start)
    }

    // Where the list ends: COUNT is settled here.
    fn end_of(&self, until: Option<u32>, count: Option<u32>) -> u32
        ensures low { result ≤ stop until }
        ensures settled { days_of self.now.pattern self.now.start until count ≡ span (chooses self.now.pattern self.now.start) self.now.start result }
    {
        let stop = stop_of(until);
        count.map_or(stop, |n| self.settle(stop, n))
    }
}

// What chooses the days of a rule, or the first refusal that applies.
#[tactic(auto, using(crate::proofs::Refusals::refused_bounds, crate::proofs::Refusals::refused_conflict, crate::proofs::Refusals::refused_start, crate::proofs::Refusals::refused_none, crate::proofs::Refusals::same_list))]
fn checked(start: u32, recurrence: &Option<Recurrence>) -> Result<Choice, Refusal>
    ensures { MatchResult result (λ choice. (refusal start recurrence.now ≡ None) × (choice.pattern ≡ pattern_of recurrence.now) × (choice.start ≡ start)) (λ e. refusal start recurrence.now ≡ Some e) }
{
    if !in_bounds(start, recurrence) {
        return Err(Refusal::OutOfBounds);
    }
    if conflicting(recurrence) {
        return Err(Refusal::RuleConflict);
    }
    let choice = Choice {
        pattern: pattern_of(recurrence),
        start,
    };
    if !choice.starts(until_of(recurrence), count_of(recurrence)) {
        return Err(Refusal::StartNotPicked);
    }
    Ok(choice)
}

impl Rule {
    // The rule of a start and a recurrence that nothing speaks against.
    fn made(choice: Choice, recurrence: &Option<Recurrence>) -> Rule
        requires { (refusal choice.start recurrence.now ≡ None) × (choice.pattern ≡ pattern_of recurrence.now) }
        ensures { Made choice.start recurrence.now result }
    {
        let until = until_of(recurrence);
        let count = count_of(recurrence);
        Rule {
            choice,
            until,
            count,
            end: choice.end_of(until, count),
        }
    }

    // A rule, or a refusal: out of bounds, then parts that may not stand together, then a start that is not picked.
    pub fn new(start: u32, recurrence: Option<Recurrence>) -> Result<Rule, Refusal>
        ensures { MakesRule start recurrence result }
    {
        let choice = checked(start, &recurrence)?;
        Ok(Rule::made(choice, &recurrence))
    }
}
