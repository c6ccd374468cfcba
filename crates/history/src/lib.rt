// The model of a diary: what a sequence of calls means. It has no data of its own; its functions carry its theorems.
#![tactic(auto)]

pub mod agendas;
pub mod changes;
pub mod plan_lists;
