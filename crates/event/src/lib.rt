// The agenda of one event, over any source of days.
#![tactic(auto)]

pub mod agendas;
pub mod events;
