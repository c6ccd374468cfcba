// Making an undo log, and remembering a change.
ghost use Rattle.std.specs.Prelude.{◌≡◌, ◌≤◌, min, [], ◌∷◌, take, IfOk, if◌then◌else◌, vec_len, vec_capacity, nat_lt};
ghost use Rattle.undo.specs.Logs.{records_in};

use crate::logs::{REMEMBERED, UndoLog};
use crate::records::UndoRecord;
use std::alloc::{AllocError, Global};
use std::collections::VecDeque;

impl<S: Copy> UndoLog<S> {
    // An empty log of so many places.
    pub fn new(heap: Global, places: usize) -> Result<UndoLog<S>, AllocError>
        ensures { IfOk result (λ log. (records_in log ≡ []) × (log.places ≡ places)) }
    {
        let records = VecDeque::with_capacity(heap, places.min(REMEMBERED))?;
        Ok(UndoLog { records, places })
    }

    pub fn places(&self) -> usize
        ensures { result ≡ self.now.places }
    {
        self.places
    }

    // Remembers a change as the newest, and forgets the oldest past 16. A log of fewer places remembers nothing.
    pub fn remember(&mut self, change: UndoRecord<S>)
        ensures records { records_in self.new ≡ (if nat_lt self.old.places 16 then records_in self.old else take 16 (change ∷ records_in self.old)) }
        ensures places { self.new.places ≡ self.old.places }
    {
        if self.places < REMEMBERED {
            return;
        }
        self.records.truncate(REMEMBERED - 1);
        self.records.push_front_reserved(change);
    }
}
