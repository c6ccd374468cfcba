// The store that keeps its pairs in rows, ascending by UID.
#![tactic(auto)]

pub mod row_store;
pub mod tables;
