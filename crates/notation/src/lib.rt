// The texts of numbers, dates, starts and intervals, and what they mean.
#![tactic(auto)]

pub mod dates;
pub mod digits;
pub mod fields;
pub mod intervals;
