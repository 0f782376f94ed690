//! Tests of the layers: each call that takes memory, when memory is refused; each call that takes none, when every growth is
//! refused; devices that fail; counts; and the largest domains.
#![tactic(auto)]

#[cfg(test)]
mod counts;
#[cfg(test)]
mod devices;
#[cfg(test)]
mod largest;
#[cfg(test)]
mod lists;
#[cfg(test)]
mod refusals;
#[cfg(test)]
mod texts;
#[cfg(test)]
mod without_memory;
