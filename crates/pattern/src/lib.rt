// Which days a recurrence picks: its periods, and the days picked in them.
#![tactic(auto)]

mod dated;
mod day;
mod entry;
mod facts;
mod jumps;
mod period;
mod picking;
pub mod scan;
mod started;
