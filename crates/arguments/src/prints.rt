// Printing a job onto a page: the event's lines, and a last line that says what was done.
ghost use Rattle.std.specs.Prelude.{◌≡◌, true, MatchResult};
ghost use Rattle.calendar.specs.Starts.{is_window};
ghost use Rattle.page.specs.Pages.{Stays, Puts, Breaks, Lacks};
ghost use Rattle.arguments.specs.Jobs.{window_of, total_text, job_lines, job_text, command_lines, command_text};

use crate::job::{Command, Days, Job};
use calendar::days::date_of;
use calendar::starts::DAY_MINUTES;
use calendar::windows::Window;
use page::pages::Page;
use refusal::Refusal;
use source::sources::Source;

// The window in minutes: both days are whole.
impl From<Days> for Window {
    ghost from_gives = { λ days window. (window ≡ window_of days) × (is_window window.from window.end ≡ true) };

    fn from(days: Days) -> Window {
        Window {
            from: days.first * DAY_MINUTES,
            end: (days.last + 1) * DAY_MINUTES,
        }
    }
}

// Adds the line that says how many lines were printed, and of which days.
fn put_total(lines: usize, days: Days, page: &mut Page) -> Result<(), Refusal>
    ensures stays { Stays page.old page.new }
    ensures cases { MatchResult result (λ _. Puts (total_text lines days) page.old page.new) (λ e. Breaks (total_text lines days) page.old e) }
{
    let first = date_of(days.first).unwrap();
    let last = date_of(days.last).unwrap();
    page.put_summary(lines, first, last)
}

// Adds the event's lines and the summary; a refusal leaves what was added before it.
fn put_job<S: Source>(job: &Job<S>, page: &mut Page) -> Result<usize, Refusal>
    ensures stays { Stays page.old page.new }
    ensures cases { MatchResult result (λ n. (n ≡ job_lines S.Source.days job.now) × Puts (job_text S.Source.days job.now) page.old page.new) (λ e. Breaks (job_text S.Source.days job.now) page.old e) }
{
    let lines = job.event.agenda(Window::from(job.days), page)?;
    put_total(lines, job.days, page)?;
    Ok(lines)
}

fn put_command(command: &Command, page: &mut Page) -> Result<usize, Refusal>
    ensures stays { Stays page.old page.new }
    ensures cases { MatchResult result (λ n. (n ≡ command_lines command.now) × Puts (command_text command.now) page.old page.new) (λ e. Breaks (command_text command.now) page.old e) }
{
    match command {
        Command::ByInterval(job) => put_job(job, page),
        Command::ByRule(job) => put_job(job, page),
    }
}

// The event's lines and the summary: all of it, or nothing.
pub fn print(command: &Command, page: &mut Page) -> Result<usize, Refusal>
    ensures stays { Stays page.old page.new }
    ensures cases { MatchResult result (λ n. (n ≡ command_lines command.now) × Puts (command_text command.now) page.old page.new) (λ e. Lacks (command_text command.now) page.old page.new e) }
{
    page.whole(|page| put_command(command, page))
}
