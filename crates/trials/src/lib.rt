// Tests of the libraries on examples, in a crate of their own so that the libraries stay quick to prove.
#![tactic(auto)]

#[cfg(test)]
mod arguments_words;
#[cfg(test)]
mod calendar_days;
#[cfg(test)]
mod event_agendas;
#[cfg(test)]
mod page_writers;
#[cfg(test)]
mod source_intervals;
#[cfg(test)]
mod source_unions;
