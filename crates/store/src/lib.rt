// What a diary keeps its series in: pairs of UID and series, ascending by UID.
#![tactic(auto)]

pub mod pairs;
pub mod stores;
