// The agenda of any store, merged from its series in order and written straight onto a page.
#![tactic(auto)]

pub mod agendas;
pub mod seats;
pub mod shown;
