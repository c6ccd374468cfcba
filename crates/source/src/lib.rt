// Sources: what gives a series its days.
#![tactic(auto)]

pub mod asking;
pub mod cuts;
pub mod interval_source;
pub mod intervals;
pub mod sources;
pub mod walks;
