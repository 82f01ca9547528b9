//! Tests that cross crates: `run` over sources and sinks in memory, on worked examples.
#![tactic(auto)]

#[cfg(test)]
mod buffers;
#[cfg(test)]
mod numbers;
#[cfg(test)]
mod packets;
#[cfg(test)]
mod pieces;
#[cfg(test)]
mod refusals;
#[cfg(test)]
mod run_files;
#[cfg(test)]
mod tests;
