//! The packets that most traces are made of, which go a short way.
ghost use Rattle.std.specs.Prelude.{◌≡◌, ◌<◌, ◌^◌, ◌∷◌, [], IfSome, None};
ghost use Rattle.packet_reader.specs.Stands.{TakesPacket};
ghost use Rattle.time_marks.specs.Frequent.{packet_of};

use etm_types::AtomRun;
use packet_reader::PacketReader;

/// A packet of atoms, or a short commit. It is small: to fill and move what has room for every packet costs more than all else that
/// such a packet asks for.
#[derive(Clone, Copy, Debug, PartialEq, Eq)]
pub enum Frequent {
    Atoms(AtomRun),
    /// A commit of so many P0 elements.
    Commit(u32),
}

/// Takes the next byte where it ends such a packet, and gives the packet with its offset. Else nothing changes.
#[inline(always)]
pub fn take_frequent(reader: &mut PacketReader, byte: u8) -> Option<(u64, Frequent)>
    requires { reader.old.offset < 2 ^ 62 }
    ensures none { result ≡ None → reader.new ≡ reader.old }
    ensures takes { IfSome result (λ found. TakesPacket reader.old reader.new (byte ∷ []) found.0 (packet_of found.1)) }
{
    if let Some((at, run)) = reader.take_atoms(byte) {
        return Some((at, Frequent::Atoms(run)));
    }
    match reader.take_commit_end(byte) {
        Some((at, n)) => Some((at, Frequent::Commit(n))),
        None => None,
    }
}
