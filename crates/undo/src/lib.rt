// What the last changes of a diary replaced, so that they can be taken back.
#![tactic(auto)]

pub mod logs;
pub mod records;
pub mod undo_calls;
