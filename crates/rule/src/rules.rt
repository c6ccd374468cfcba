// A rule: a start, a pattern if it recurs, and where it ends.
ghost use Rattle.std.specs.Prelude.{◌≡◌, ◌≤◌, true};
ghost use Rattle.rule.specs.Spans.{span, stop};
ghost use Rattle.rule.specs.Lists.{chooses, days_of};
ghost use Rattle.rule.specs.Bounds.{count_fits, one_end};

use crate::choice::Choice;

// `until` is the day after the last day, and `end` the day by which the list is over: COUNT is settled in it,
// so that no question counts from the start again. A rule is made only by `Rule::new` and by cuts.
#[derive(Clone, Copy)]
pub struct Rule {
    pub(crate) choice: Choice,
    pub(crate) until: Option<u32>,
    pub(crate) count: Option<u32>,
    pub(crate) end: u32,
    ghost range: { (end ≤ stop until) × (stop until ≤ 109573) },
    // the list is empty, or the start is its first day
    ghost begins: { chooses choice.pattern choice.start choice.start ≡ true },
    ghost few: { count_fits count ≡ true },
    ghost ends: { one_end until count ≡ true },
    ghost settled: { days_of choice.pattern choice.start until count ≡ span (chooses choice.pattern choice.start) choice.start end },
}
