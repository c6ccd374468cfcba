// The page: lent octets and a length, and what is written behind that length.
#![tactic(auto)]

pub mod lines;
pub mod numbers;
pub mod pages;
pub mod summaries;
pub mod writers;
