// Runs the rules and cuts of tables of outside cases, prints a line for each that fails, and a count at the end.
#![tactic(auto)]

use calendar::days::date_of;
use calendar::starts::{DAY_MINUTES, Moment};
use notation::dates::read_day;
use notation::digits::numeral_of;
use page::pages::Page;
use refusal::Refusal;
use rule::rules::Rule;
use rule_lines::writing::put_rule;
use rule_text::reading::read_rule;
use source::asking::is_empty;
use source::sources::Source;
use source::walks::{Walk, days_from};
use std::fs;

// The field of a row at a place, or an empty one.
fn field(row: &[u8], place: usize) -> &[u8] {
    row.split(|octet| *octet == b'\t').nth(place).unwrap_or(b"")
}

// The start of a row: yyyymmdd in its first field, hhmm in its second.
fn start_of_row(row: &[u8]) -> Option<Moment> {
    let day = read_day(field(row, 0)).ok()?;
    let clock = numeral_of(field(row, 1), 4, 4)?;
    let minutes = clock / 100 * 60 + clock % 100;
    (minutes < DAY_MINUTES).then_some(Moment {
        day,
        clock: minutes as u16,
    })
}

// The most dates that a list may have.
const DATES: usize = 10_000;

// Whether the next days are the dates of a list parted by commas; one more comma may stand behind the last.
fn begin_with<S: Source>(days: &mut Walk<'_, S>, dates: &[u8]) -> bool {
    if dates.is_empty() {
        return true;
    }
    let dates = dates.strip_suffix(b",").unwrap_or(dates);
    for (before, date) in dates.split(|octet| *octet == b',').enumerate() {
        if before == DATES {
            return false;
        }
        let day = read_day(date).ok();
        if day.is_none() || days.next() != day {
            return false;
        }
    }
    true
}

// A row of start, clock, rule, whether the start is in the rule, whether the list is whole, the list, and its origin;
// none where the start has not its form.
fn rule_agrees(row: &[u8]) -> Option<bool> {
    let start = start_of_row(row)?;
    let picked = field(row, 3) == b"yes".as_slice();
    Some(match read_rule(field(row, 2), start) {
        Err(refusal) => !picked && refusal == Refusal::StartNotPicked,
        Ok(rule) => {
            let mut days = days_from(&rule, 0);
            picked
                && begin_with(&mut days, field(row, 5))
                && (field(row, 4) == b"no".as_slice() || days.next().is_none())
        }
    })
}

fn rule_holds(row: &[u8]) -> bool {
    rule_agrees(row).unwrap_or(false)
}

// The start and the recurrence of a rule as their lines, parted by a bar.
fn put_lines(page: &mut Page, rule: &Rule, clock: u16) -> Result<(), Refusal> {
    let date = date_of(rule.start()).ok_or(Refusal::OutOfBounds)?;
    page.put(b"DTSTART:")?;
    page.put_date(date)?;
    page.put(b"T")?;
    page.put_clock(clock)?;
    page.put(b"00|RRULE:")?;
    put_rule(page, rule, clock)
}

// Whether the lines of a rule are those; a rule without days has none.
fn writes(rule: &Rule, clock: u16, lines: &[u8]) -> bool {
    if is_empty(rule) {
        return lines.is_empty();
    }
    let mut octets = [0; 512];
    let mut page = Page::new(&mut octets);
    if put_lines(&mut page, rule, clock).is_err() {
        return false;
    }
    page.written() == lines
}

// A row of start, clock, rule, the day of the cut, head or tail, the number of days, the first of them, and the lines written;
// none where a field has not its form.
fn cut_agrees(row: &[u8]) -> Option<bool> {
    let start = start_of_row(row)?;
    let rule = read_rule(field(row, 2), start).ok()?;
    let day = numeral_of(field(row, 3), 1, 6)?;
    let count = numeral_of(field(row, 5), 1, 6)?;
    let part = if field(row, 4) == b"head".as_slice() {
        rule.head(day)
    } else {
        rule.tail(day)
    };
    Some(
        days_from(&part, 0).count() == count as usize
            && begin_with(&mut days_from(&part, 0), field(row, 6))
            && writes(&part, start.clock, field(row, 7)),
    )
}

fn cut_holds(row: &[u8]) -> bool {
    cut_agrees(row).unwrap_or(false)
}

// Runs a test of the rows of a table, less the empty ones and those that begin with #.
fn run<F: Fn(&[u8]) -> bool>(rt: &HostRuntime, name: &str, holds: F) -> anyhow::Result<()>
    requires { F.IsAlwaysCallable holds }
{
    let octets = fs::read(rt, name)?;
    let mut passed = 0u32;
    let mut failed = 0u32;
    // what stands behind the last line feed is no row
    let ended = octets
        .iter()
        .rposition(|octet| *octet == b'\n')
        .map_or(0, |last| last + 1);
    for (before, row) in octets[..ended].split(|octet| *octet == b'\n').enumerate() {
        if row.is_empty() || row[0] == b'#' {
            continue;
        }
        if holds(row) {
            passed = passed.saturating_add(1);
        } else {
            failed = failed.saturating_add(1);
            let number = before.saturating_add(1);
            println!(rt; "{name}: line {number} fails")?;
        }
    }
    println!(rt; "{name}: {passed} passed, {failed} failed")?;
    Ok(())
}

fn main(rt: HostRuntime) -> anyhow::Result<()> {
    run(&rt, "rules.tsv", rule_holds)?;
    run(&rt, "cuts.tsv", cut_holds)
}
