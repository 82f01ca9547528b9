//! The timestamp behind a packet.
ghost use Rattle.std.specs.Prelude.{◌≡◌, ◌<◌, ◌^◌};
ghost use Rattle.packet_grammar.specs.Ranges.{IsStampSize};
ghost use Rattle.time_marks.specs.Stamps.{HasStamp, stamp_after, with_low};

use crate::time_line::Stamp;
use packet_grammar::Packet;

/// All bits of a timestamp.
const STAMP_BITS: u8 = 64;

/// The timestamp behind a packet, by whether a trace info packet came before it.
pub fn stamp_after(informed: bool, stamp: Stamp, packet: &Packet) -> Stamp
    requires { HasStamp packet.now }
    ensures { result ≡ stamp_after informed stamp packet.now }
{
    match *packet {
        Packet::Info { .. } => None,
        Packet::Time { bits, low } if informed => Some(with_low(stamp.unwrap_or(0), bits, low)),
        _ => stamp,
    }
}

/// A timestamp with so many of its lowest bits replaced.
fn with_low(known: u64, bits: u8, low: u64) -> u64
    requires size { IsStampSize bits }
    requires low { low < 2 ^ bits }
    ensures { result ≡ with_low known bits low }
{
    if bits == STAMP_BITS {
        return low;
    }
    let replaced = 1 << bits;
    known / replaced * replaced + low
}
