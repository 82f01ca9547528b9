//! The atom packets of a trace: runs of atoms in one byte (Arm IHI 0064, atom packets, formats 1 to 6).
//!
//! A reader has the run of a byte by [`atoms_of`]. The table is that of `specs/Formats.antt`, by which `packet_writer` has the byte of
//! a run, too. What holds of the table as a whole is the contract of [`each_byte_has_its_run`] and
//! [`runs_differ_in_their_atoms`].
#![tactic(auto)]

mod formats;
mod laws;

pub use formats::atoms_of;
pub use laws::{each_byte_has_its_run, runs_differ_in_their_atoms};
