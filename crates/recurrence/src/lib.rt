// A recurrence as RFC 5545 has it: its parts, and their bounds.
#![tactic(auto)]

mod few;
mod fitting;
pub mod parts;
