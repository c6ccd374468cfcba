// The values of a series, with their bounds in their types, and the record of a series.
#![tactic(auto)]

pub mod alphabets;
pub mod changes;
pub mod clocks;
pub mod durations;
pub mod label_octets;
pub mod label_orders;
pub mod labels;
pub mod minutes;
pub mod override_days;
pub mod override_items;
pub mod overrides;
pub mod records;
pub mod shown_texts;
pub mod stamp_octets;
pub mod stamps;
pub mod stored;
pub mod texts;
pub mod uids;
