//! Tests of whole plans, and of the shortest files and tables, from outside the crates that make and read them.
#![tactic(auto)]

#[cfg(test)]
mod devices;
#[cfg(test)]
mod domains;
#[cfg(test)]
mod envelopes;
#[cfg(test)]
mod files;
#[cfg(test)]
mod gates;
#[cfg(test)]
mod gathering;
#[cfg(test)]
mod keys;
#[cfg(test)]
mod limits;
#[cfg(test)]
mod plans;
#[cfg(test)]
mod proved;
#[cfg(test)]
mod refusals;
#[cfg(test)]
mod short_texts;
#[cfg(test)]
mod signals;
