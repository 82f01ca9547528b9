//! Tests of the crates above the decoder of a stream: synchronized frames, wrapped buffers, times, counts. They stand apart from these
//! crates, since a crate that has tests is proved once more with them.
#![tactic(auto)]

#[cfg(test)]
mod counts;
#[cfg(test)]
mod synced_frames;
#[cfg(test)]
mod times;
#[cfg(test)]
mod wrapped_buffers;
