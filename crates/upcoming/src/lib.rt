// The next shown occurrence of a series.
#![tactic(auto)]

pub mod first_days;
pub mod keys;
pub mod moves;
pub mod next;
pub mod plains;
