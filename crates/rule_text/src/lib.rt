// The text of a recurrence rule, read.
#![tactic(auto)]

mod entries;
mod fields;
mod lists;
mod part_texts;
pub mod parts;
pub mod reading;
mod words;
