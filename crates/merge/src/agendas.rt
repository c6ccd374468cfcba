// The agenda of a store in a window.
ghost use Rattle.std.specs.Prelude.{◌≡◌, ◌*◌, ◌<◌, ◌≤◌, true, length, MatchResult};
ghost use Rattle.calendar.specs.Starts.{is_window};
ghost use Rattle.history.specs.States.{occurrences};
ghost use Rattle.page.specs.Pages.{Stays};
ghost use Rattle.refusal.specs.Numbers.{number};
ghost use Rattle.merge.specs.Printed.{plans_of, NoneFits, Printed, Refused, Crowded};

use crate::seats::{cursor, seat};
use crate::shown::put_node;
use calendar::windows::Window;
use page::pages::Page;
use refusal::Refusal;
use store::stores::Store;
use tournament::matches::Tournament;
use tournament::nodes::Node;
use upcoming::keys::Key;

// Adds the lines in order; a refusal leaves those before it.
fn put_lines<St: Store>(
    store: &St,
    tournament: &mut Tournament,
    window: Window,
    page: &mut Page,
) -> Result<usize, Refusal>
    requires window { is_window window.from window.end ≡ true }
    requires places { tournament.old.count ≡ length (St.Store.pairs store.now) }
    ensures stays { Stays page.old page.new }
    ensures cases { MatchResult result (λ n. Printed (occurrences (plans_of St.Source.Source.days (St.Store.pairs store.now))) window n page.old page.new) (λ e. (number e ≡ 23) × NoneFits (occurrences (plans_of St.Source.Source.days (St.Store.pairs store.now))) window page.old) }
{
    // not put(b""): the loop's facts would begin at the page that it leaves, and the promise at the call's
    if page.len > page.octets.len() {
        return Err(Refusal::PageFull);
    }
    if store.count() == 0 {
        return Ok(0);
    }
    seat(store, tournament, window);
    tournament.play();
    // it goes on by the best node: no index is counted
    let mut lines = 0;
    while tournament.best().start < window.end {
        let top = tournament.best();
        put_node(page, store, top)?;
        lines += 1;
        let next = Key {
            start: top.start,
            day: top.day + 1,
        };
        tournament.seat(top.place, cursor(store, top.place, next, window.end));
        tournament.replay(top.place);
    }
    Ok(lines)
}

// The lines of the live occurrences that start in a window, and their number.
// The nodes are scratch room, two for each series, lent for this agenda alone: no one value with the store.
pub fn agenda<St: Store>(
    store: &St,
    nodes: &mut [Node],
    window: Window,
    page: &mut Page,
) -> Result<usize, Refusal>
    ensures stays { Stays page.old page.new }
    ensures cases { 2 * length (St.Store.pairs store.now) ≤ length nodes.old → MatchResult result (λ n. Printed (occurrences (plans_of St.Source.Source.days (St.Store.pairs store.now))) window n page.old page.new) (λ e. Refused (occurrences (plans_of St.Source.Source.days (St.Store.pairs store.now))) window page.old page.new e) }
    ensures crowded { length nodes.old < 2 * length (St.Store.pairs store.now) → MatchResult result (λ _. ⊥) (λ e. Crowded window page.old page.new e) }
{
    if !window.is_sound() {
        return Err(Refusal::BadWindow);
    }
    let mut tournament = Tournament::new(nodes, store.count()).ok_or(Refusal::PageFull)?;
    page.whole(|page| put_lines(store, &mut tournament, window, page))
}
