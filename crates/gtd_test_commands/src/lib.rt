//! Tests of the commands and runs of both programs: what no printed text shows.
#![tactic(auto)]

#[cfg(test)]
mod devices;
#[cfg(test)]
mod growth;
#[cfg(test)]
mod gtd;
#[cfg(test)]
mod gtdesk;
#[cfg(test)]
mod words;
