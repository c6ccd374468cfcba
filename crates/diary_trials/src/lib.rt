// Tests of the stores and of the diary on examples.
#![tactic(auto)]

#[cfg(test)]
mod agendas;
#[cfg(test)]
mod entering;
#[cfg(test)]
mod samples;
#[cfg(test)]
mod stores;
