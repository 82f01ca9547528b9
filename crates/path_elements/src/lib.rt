//! From the packets of a trace to its elements (Arm IHI 0064, "Descriptions of Trace Elements").
//!
//! [`ElemMaker`] takes packets one by one and keeps what later ones build on: the address history, the
//! context, and an exception whose address is still to come. The layer above uses the contract of
//! [`ElemMaker::take`]: the [`Elems`] of a packet are those that the definition in `specs/` gives for it.
//! The contract of [`elements_come_one_by_one`] says how the elements of a list of packets are put
//! together, and that of [`spelled_packets_can_be_taken`] that every packet of a stream can be taken.
//!
//! The definition of a stream's path stands here too, in `specs/Path.antt`: the items that committed elements
//! lead through over an image, and how the stream ends. [`bytes_have_one_path`], [`a_path_grows`] and
//! [`joined_packets_have_joined_elements`] are its laws.
#![tactic(auto)]

mod elems;
mod laws;
mod maker;
mod path_laws;

pub use elems::Elems;
pub use laws::{elements_come_one_by_one, spelled_packets_can_be_taken};
pub use maker::{Awaited, ElemMaker};
pub use path_laws::{a_path_grows, bytes_have_one_path, joined_packets_have_joined_elements};
