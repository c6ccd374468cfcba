// Rows ascending by UID, with room for all of them from the start.
ghost use Rattle.std.specs.Prelude.{◌≡◌, ◌≤◌, true, vec_len, vec_capacity};
ghost use Rattle.table.specs.Rows.{climbs};

use store::pairs::Pair;

// The limit stands beside the rows, since a vector may have more room than it was asked for.
// Rows in order and no map: a store answers by place.
#[derive(Drop)]
pub struct Table<S> {
    pub(crate) rows: Vec<Pair<S>>,
    pub(crate) limit: usize,
    ghost few: { vec_len rows ≤ limit },
    ghost reserved: { limit ≤ vec_capacity rows },
    ghost rising: { climbs rows.items ≡ true },
}
