//! Tests of the crates of run files and runs. They stand apart from these crates, since a crate that has tests is proved once more
//! with them.
#![tactic(auto)]

#[cfg(test)]
mod retired;
#[cfg(test)]
mod runs;
#[cfg(test)]
mod texts;
