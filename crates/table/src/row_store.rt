// Making a table, and the table as a store.
ghost use Rattle.std.specs.Prelude.{◌≡◌, ℕ, ◌<◌, ◌≤◌, List, [], map, length, IfOk, vec_len, vec_capacity, MatchResult};
ghost use Rattle.refusal.specs.Numbers.{number};
ghost use Rattle.series.specs.Values.{uid_octets};
ghost use Rattle.store.specs.Pairs.{key, placed, Full};
ghost use Rattle.store.specs.Seats.{Seat, Gap};
ghost use Rattle.table.specs.Climbing.{ascends};
ghost use Rattle.std.proofs.Common.{rules, arith};

use crate::tables::Table;
use lookup::find;
use refusal::Refusal;
use series::uids::Uid;
use source::sources::Source;
use std::alloc::{AllocError, Global};
use store::pairs::Pair;
use store::stores::Store;

impl<S: Source> Table<S> {
    // A table with no pairs and room for so many rows.
    pub fn new(heap: Global, rows: usize) -> Result<Table<S>, AllocError>
        ensures { IfOk result (λ t. (t.rows.items ≡ []) × (t.limit ≡ rows)) }
    {
        let room = Vec::with_capacity(heap, rows)?;
        Ok(Table {
            rows: room,
            limit: rows,
        })
    }

    // The place of a UID, or the place where it would stand.
    fn seek(&self, uid: &Uid) -> Result<usize, usize>
        ensures { MatchResult result (λ i. (i < vec_len self.now.rows) × Seat (map key self.now.rows.items) (uid_octets uid.now) i) (λ i. (i ≤ vec_len self.now.rows) × Gap (map key self.now.rows.items) (uid_octets uid.now) i) }
    {
        find(&self.rows, uid)
    }
}

impl<S: Source> Store for Table<S> {
    type Source = S;

    ghost pairs = { λ t. t.rows.items };

    ghost limit = { λ t. t.limit };

    ghost ascending = { λ t. ascends t.rows.items t.rising };

    ghost bounded = { first_of (Prim.search rules, Prim.grind (arith, Self.row.coded.inj)) };

    fn capacity(&self) -> usize {
        self.limit
    }

    fn count(&self) -> usize {
        self.rows.len()
    }

    fn place(&self, uid: &Uid) -> Option<usize> {
        self.seek(uid).ok()
    }

    fn at(&self, place: usize) -> Option<&Pair<S>> {
        self.rows.get(place)
    }

    fn put(&mut self, pair: Pair<S>) -> Result<(), Refusal>
        ensures cases { MatchResult result (λ _. self.new.rows.items ≡ placed pair self.old.rows.items) (λ e. Full self.old.limit pair self.old.rows.items self.new.rows.items (number e)) }
        ensures capacity { self.new.limit ≡ self.old.limit }
    {
        match self.seek(&pair.uid) {
            Ok(place) => self.rows[place] = pair,
            Err(place) => {
                if self.rows.len() == self.limit {
                    return Err(Refusal::StoreFull);
                }
                self.rows.insert(place, pair).unwrap();
            }
        }
        Ok(())
    }

    fn remove(&mut self, uid: &Uid) {
        if let Ok(place) = self.seek(uid) {
            let _ = self.rows.remove(place);
        }
    }
}
