// The undo log: the newest changes, at most 16, in room that was taken when it was made.
ghost use Rattle.std.specs.Prelude.{◌≤◌, min};
ghost use Rattle.std.specs.VecDeque.{deque_len, deque_capacity};

use crate::records::UndoRecord;
use std::collections::VecDeque;

// How many changes are remembered.
pub const REMEMBERED: usize = 16;

// The newest record stands first. The places stand beside them, since there may be more places than room.
// More than 16 places are no use, so no room is taken for them.
#[derive(Drop)]
pub struct UndoLog<S> {
    pub(crate) records: VecDeque<UndoRecord<S>>,
    pub(crate) places: usize,
    ghost few: { deque_len records ≤ min places 16 },
    ghost reserved: { min places 16 ≤ deque_capacity records },
}
