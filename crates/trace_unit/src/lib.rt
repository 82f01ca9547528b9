//! A trace unit of ETMv4 (Arm IHI 0064, "Speculation", "Return stack", "Descriptions of Trace Packets"): it follows a run event by
//! event, and writes a trace from which a reader comes to the run's retired path.
//!
//! What a unit has to tell is a list of *orders*; each of them tells a reader some elements. They are told at once, one order
//! after the other, or in the whole form, where atoms are held, and cancels and commits are put off. The packets of
//! `specs/Packets.antt` carry the elements of the whole form, and `specs/Written.antt` says which bytes [`Unit`] writes for a
//! run. [`a_trace_shows_the_retired_path`] is what all of this is for.
#![tactic(auto)]

mod atoms;
mod follower;
mod laws;
mod packets;
mod places;
mod put_off;
mod shared;
mod teller;
mod unit;
mod window;

pub use laws::{
    a_trace_grows_event_by_event, a_trace_shows_the_retired_path, a_unit_keeps_little,
    both_forms_are_resolved_alike, each_packet_is_spelled, packets_tell_the_whole_form,
    told_elements_show_the_retired_path, trace_info_announces_what_is_held,
    whole_elements_show_the_retired_path,
};
pub use unit::{Unit, UnitFault};
