//! Tests of the crates that read a stream, from packets to lines. They stand apart from these crates, since a crate that has tests is
//! proved once more with them.
#![tactic(auto)]

#[cfg(test)]
mod elements;
#[cfg(test)]
mod held;
#[cfg(test)]
mod lines;
#[cfg(test)]
mod packets;
#[cfg(test)]
mod streams;
#[cfg(test)]
mod walks;
