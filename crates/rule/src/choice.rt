// What chooses the days of a rule: a start, and a pattern if the rule recurs. And a listing of those days.
ghost use Rattle.std.specs.Prelude.{◌≡◌, ◌<◌, ◌≤◌, true};
ghost use Rattle.rule.specs.Bounds.{sound};

use recurrence::parts::Pattern;

// Of its own, beside `Started` of the pattern crate: a rule without a recurrence chooses its start.
#[derive(Clone, Copy)]
pub struct Choice {
    pub(crate) pattern: Option<Pattern>,
    pub(crate) start: u32,
    ghost begun: { start < 109573 },
    // the parts are in their bounds and may stand together
    ghost parts: { sound pattern ≡ true },
}

// Where a listing of the days stands: it asks for one day at a time, as a walk over a source does.
#[derive(Clone, Copy)]
pub(crate) struct Chosen<'a> {
    pub(crate) choice: &'a Choice,
    pub(crate) next: u32,
    pub(crate) end: u32,
    ghost ended: { end ≤ 109573 },
}
