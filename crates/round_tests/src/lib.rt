//! Tests of chains of keys and texts, of rounds over them, and of rings, from outside the crates that have them.
#![tactic(auto)]

#[cfg(test)]
mod chains;
#[cfg(test)]
mod claims;
#[cfg(test)]
mod compared;
#[cfg(test)]
mod rings;
#[cfg(test)]
mod rounds;
#[cfg(test)]
mod rounds_gates;
#[cfg(test)]
mod rounds_graphs;
#[cfg(test)]
mod workers;
