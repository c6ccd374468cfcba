// The diary: many series over any store, with drafts and an agenda.
#![tactic(auto)]

pub mod calls;
pub mod diaries;
pub mod drafts;
pub mod entering;
pub mod entries;
pub mod holds;
