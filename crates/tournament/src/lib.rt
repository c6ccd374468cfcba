// A tournament over cursors: leaves by place, each inner node the better of its two children.
#![tactic(auto)]

pub mod matches;
pub mod nodes;
