// Where the series of a store stand, each at its leaf.
ghost use Rattle.std.specs.Prelude.{◌≡◌, length};
ghost use Rattle.merge.specs.Cursors.{Cursor, Stand};
ghost use Rattle.merge.specs.Places.{ShowsAt};
ghost use Rattle.upcoming.specs.Least.{Next};

use calendar::windows::Window;
use store::stores::Store;
use tournament::matches::Tournament;
use tournament::nodes::Node;
use upcoming::keys::Key;
use upcoming::next::next_in;

// The next occurrence that the series at a place shows, from a key on and before the end.
// Key and end are no one value: the end stays, and the key moves.
fn next_at<St: Store>(store: &St, place: usize, from: Key, end: u32) -> Option<Key>
    ensures { Next (ShowsAt St.Source.Source.days (St.Store.pairs store.now) place) from.start from.day end result }
{
    let pair = store.at(place)?;
    next_in(&pair.series, from, end)
}

// Where the series at a place stands, from a key on; past its last occurrence it stands at the end.
// The end serves for none: every node has a start and a day, and one order ranks them all.
pub(crate) fn cursor<St: Store>(store: &St, place: usize, from: Key, end: u32) -> Node
    ensures { Cursor (ShowsAt St.Source.Source.days (St.Store.pairs store.now) place) from.start from.day end place result }
{
    let past = Key { start: end, day: 0 };
    let Key { start, day } = next_at(store, place, from, end).unwrap_or(past);
    Node { start, place, day }
}

// Seats each series at its leaf.
pub(crate) fn seat<St: Store>(store: &St, tournament: &mut Tournament, window: Window)
    requires { tournament.old.count ≡ length (St.Store.pairs store.now) }
    ensures same { tournament.new.nodes.ghost_name ≡ tournament.old.nodes.ghost_name }
    ensures count { tournament.new.count ≡ tournament.old.count }
    ensures stand { Stand (ShowsAt St.Source.Source.days (St.Store.pairs store.now)) window.from window.end tournament.old.count tournament.old.count tournament.new.nodes.now }
{
    let first = Key {
        start: window.from,
        day: 0,
    };
    for place in 0..store.count() {
        tournament.seat(place, cursor(store, place, first, window.end));
    }
}
