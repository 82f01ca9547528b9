//! Packets, as they are written behind others (Arm IHI 0064, "Descriptions of Trace Packets").
ghost use Rattle.std.specs.Prelude.{◌≡◌, ◌++◌, vec_capacity};
ghost use Rattle.packet_writer.specs.Fitting.{HasSpelling};
ghost use Rattle.packet_writer.specs.Spelling.{spelling};
ghost use Rattle.trace_unit.specs.Room.{RoomForBytes};

use etm_types::Settings;
use packet_grammar::Packet;
use packet_writer::{PACKET_ROOM, write_packet};

/// Appends the bytes of a packet, for which there is room.
pub fn put(bytes: &mut Vec<u8>, settings: &Settings, packet: &Packet)
    requires spelled { HasSpelling settings.now packet.now }
    requires room { RoomForBytes bytes.old (spelling settings.now packet.now) }
    ensures bytes { bytes.new.items ≡ bytes.old.items ++ spelling settings.now packet.now }
    ensures capacity { vec_capacity bytes.new ≡ vec_capacity bytes.old }
{
    let mut spelling = [0; PACKET_ROOM];
    let count = write_packet(packet, settings, &mut spelling);
    for byte in &spelling[..count] {
        bytes.push_reserved(*byte);
    }
}
