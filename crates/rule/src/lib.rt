// Recurrence rules as RFC 5545 has them: a start, a pattern of days, and an end.
#![tactic(auto)]

mod again;
mod choice;
mod chosen;
pub mod known;
mod listing;
mod making;
pub mod rule_source;
pub mod rules;
