// The command line of the program `agenda`: its six or seven arguments, what is wrong with them, and the job they ask for.
#![tactic(auto)]

pub mod faults;
pub mod job;
pub mod jobs;
pub mod prints;
mod timed;
mod words;
