// Date lists, and the union of any source with one.
#![tactic(auto)]

pub mod date_source;
pub mod dates;
pub mod union_source;
pub mod unions;
