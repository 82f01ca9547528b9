//! Tests of the crates below the decoder of a stream: texts, settings, branches, rings, images, frames, packets that are written, counters.
//! They stand apart from these crates, since a crate that has tests is proved once more with them.
#![tactic(auto)]

#[cfg(test)]
mod atoms;
#[cfg(test)]
mod branches;
#[cfg(test)]
mod counters;
#[cfg(test)]
mod elf_files;
#[cfg(test)]
mod frames;
#[cfg(test)]
mod generated_texts;
#[cfg(test)]
mod histories;
#[cfg(test)]
mod images;
#[cfg(test)]
mod lines_and_words;
#[cfg(test)]
mod return_stacks;
#[cfg(test)]
mod rings;
#[cfg(test)]
mod settings;
#[cfg(test)]
mod sources_and_sinks;
#[cfg(test)]
mod written_packets;
