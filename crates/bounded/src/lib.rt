// Lists of at most N values, kept in place, and those of records whose days climb.
#![tactic(auto)]

pub mod climbing;
pub mod cuts;
pub mod dated;
pub mod lists;
