// The job that the arguments ask for.
ghost use Rattle.std.specs.Prelude.{◌≤◌};
ghost use Rattle.calendar.specs.Years.{last_day};

use event::events::Event;
use rule::rules::Rule;
use source::intervals::Interval;

// The first and the last day of a window, both whole.
#[derive(Clone, Copy)]
pub struct Days {
    pub first: u32,
    pub last: u32,
    ghost ordered: { first ≤ last },
    ghost within: { last ≤ last_day },
}

// One event and the days of a window.
#[derive(Clone, Copy)]
pub struct Job<S> {
    pub event: Event<S>,
    pub days: Days,
}

// What a command line asks for. An enum and no `dyn`, so that a command is a plain value that is handed out.
#[derive(Clone, Copy)]
pub enum Command {
    ByInterval(Job<Interval>),
    ByRule(Job<Rule>),
}
