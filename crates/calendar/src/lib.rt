// The Gregorian calendar from 1 January 1900 to 31 December 2199, by day numbers.
#![tactic(auto)]

pub mod date;
pub mod days;
pub mod months;
pub mod starts;
pub mod weekdays;
pub mod windows;
pub mod years;
