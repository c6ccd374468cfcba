// The text of a recurrence written, and what the lines of a rule mean.
#![tactic(auto)]

mod entry_texts;
pub mod writing;
