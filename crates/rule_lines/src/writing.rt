// A recurrence on a page.
// The page is what is written on, the recurrence and the clock what is told: no one value of the three.
ghost use Rattle.std.specs.Prelude.{◌≡◌, MatchResult};
ghost use Rattle.page.specs.Pages.{Stays, Puts, Breaks, Lacks};
ghost use Rattle.rule_lines.specs.Writing.{frequency_text, interval_text, week_start_text, count_text, until_text, period_text, end_text, lists_text, recurrence_text, ReadsBack, SameDays};
ghost use Rattle.rule.specs.Remade.{recurrence_in};
ghost use Rattle.rule_lines.specs.DayLines.{rule_text, LinesMean};

use crate::entry_texts::{put_list, weekday_octets};
use calendar::days::date_of;
use calendar::weekdays::Weekday;
use page::pages::Page;
use recurrence::parts::{Frequency, Recurrence};
use refusal::Refusal;
use rule::rules::Rule;

// Octets for a page, which takes no Display.
fn frequency_octets(frequency: Frequency) -> &'static [u8]
    ensures { result.now ≡ frequency_text frequency }
{
    match frequency {
        Frequency::Daily => b"FREQ=DAILY",
        Frequency::Weekly => b"FREQ=WEEKLY",
        Frequency::Monthly => b"FREQ=MONTHLY",
        Frequency::Yearly => b"FREQ=YEARLY",
    }
}

// Adds the interval, unless it is 1.
fn put_interval(page: &mut Page, interval: u32) -> Result<(), Refusal>
    ensures stays { Stays page.old page.new }
    ensures cases { MatchResult result (λ _. Puts (interval_text interval) page.old page.new) (λ e. Breaks (interval_text interval) page.old e) }
{
    if interval == 1 {
        return page.put(b"");
    }
    page.put(b";INTERVAL=")?;
    page.put_decimal(interval as usize)
}

// Adds the first day of the week, unless it is Monday.
fn put_week_start(page: &mut Page, week_start: Weekday) -> Result<(), Refusal>
    ensures stays { Stays page.old page.new }
    ensures cases { MatchResult result (λ _. Puts (week_start_text week_start) page.old page.new) (λ e. Breaks (week_start_text week_start) page.old e) }
{
    if week_start == Weekday::Monday {
        return page.put(b"");
    }
    page.put(b";WKST=")?;
    page.put(weekday_octets(week_start))
}

// Adds FREQ, INTERVAL and WKST.
fn put_period(page: &mut Page, recurrence: &Recurrence) -> Result<(), Refusal>
    ensures stays { Stays page.old page.new }
    ensures cases { MatchResult result (λ _. Puts (period_text recurrence.now) page.old page.new) (λ e. Breaks (period_text recurrence.now) page.old e) }
{
    page.put(frequency_octets(recurrence.pattern.frequency))?;
    put_interval(page, recurrence.pattern.interval)?;
    put_week_start(page, recurrence.pattern.week_start)
}

fn put_count(page: &mut Page, count: Option<u32>) -> Result<(), Refusal>
    ensures stays { Stays page.old page.new }
    ensures cases { MatchResult result (λ _. Puts (count_text count) page.old page.new) (λ e. Breaks (count_text count) page.old e) }
{
    let Some(n) = count else {
        return page.put(b"");
    };
    page.put(b";COUNT=")?;
    page.put_decimal(n as usize)
}

// Adds UNTIL, by the date of the last day.
fn put_until(page: &mut Page, until: Option<u32>, clock: u16) -> Result<(), Refusal>
    ensures stays { Stays page.old page.new }
    ensures cases { MatchResult result (λ _. Puts (until_text clock until) page.old page.new) (λ e. Breaks (until_text clock until) page.old e) }
{
    let Some(date) = until.and_then(|end| date_of(end.saturating_sub(1))) else {
        return page.put(b"");
    };
    page.put(b";UNTIL=")?;
    page.put_date(date)?;
    page.put(b"T")?;
    page.put_clock(clock)?;
    page.put(b"00")
}

// Adds COUNT and UNTIL.
fn put_end(page: &mut Page, recurrence: &Recurrence, clock: u16) -> Result<(), Refusal>
    ensures stays { Stays page.old page.new }
    ensures cases { MatchResult result (λ _. Puts (end_text clock recurrence.now) page.old page.new) (λ e. Breaks (end_text clock recurrence.now) page.old e) }
{
    put_count(page, recurrence.count)?;
    put_until(page, recurrence.until, clock)
}

// Adds BYMONTH, BYMONTHDAY and BYDAY.
fn put_lists(page: &mut Page, recurrence: &Recurrence) -> Result<(), Refusal>
    ensures stays { Stays page.old page.new }
    ensures cases { MatchResult result (λ _. Puts (lists_text recurrence.now) page.old page.new) (λ e. Breaks (lists_text recurrence.now) page.old e) }
{
    put_list(page, b";BYMONTH=", recurrence.pattern.months.as_slice())?;
    put_list(
        page,
        b";BYMONTHDAY=",
        recurrence.pattern.month_days.as_slice(),
    )?;
    put_list(page, b";BYDAY=", recurrence.pattern.week_days.as_slice())
}

// Adds all parts; a refusal leaves those before it.
#[tactic(auto, unfolding(crate::specs::Writing::recurrence_text))]
fn put_parts(page: &mut Page, recurrence: &Recurrence, clock: u16) -> Result<(), Refusal>
    ensures stays { Stays page.old page.new }
    ensures cases { MatchResult result (λ _. Puts (recurrence_text clock recurrence.now) page.old page.new) (λ e. Breaks (recurrence_text clock recurrence.now) page.old e) }
{
    put_period(page, recurrence)?;
    put_end(page, recurrence, clock)?;
    put_lists(page, recurrence)
}

// Adds the text of a recurrence: all of it, or nothing.
pub fn put_recurrence(page: &mut Page, recurrence: &Recurrence, clock: u16) -> Result<(), Refusal>
    ensures stays { Stays page.old page.new }
    ensures cases { MatchResult result (λ _. Puts (recurrence_text clock recurrence.now) page.old page.new) (λ e. Lacks (recurrence_text clock recurrence.now) page.old page.new e) }
    ensures back { ReadsBack }
    ensures days { SameDays }
{
    page.whole(|page| put_parts(page, recurrence, clock))
}

// Adds the text of a rule's recurrence, of a rule without one nothing.
pub fn put_rule(page: &mut Page, rule: &Rule, clock: u16) -> Result<(), Refusal>
    ensures stays { Stays page.old page.new }
    ensures cases { MatchResult result (λ _. Puts (rule_text clock (recurrence_in rule.now)) page.old page.new) (λ e. Lacks (rule_text clock (recurrence_in rule.now)) page.old page.new e) }
    ensures lines { LinesMean }
{
    match rule.recurrence() {
        None => page.put(b""),
        Some(recurrence) => put_recurrence(page, &recurrence, clock),
    }
}
