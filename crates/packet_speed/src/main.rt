//! Counts the packets of the stream on standard input, to be timed by `bench/packets`.
//!
//! Each byte is given to the packet reader, and nothing else is made of it. At most 2^40 bytes are read.
#![tactic(auto)]

ghost use Rattle.std.specs.Prelude.{◌≡◌, ◌+◌, ◌≤◌, ◌^◌, length};

use etm_types::Settings;
use packet_reader::{PacketReader, Step};
use trace_io::{Source, StdSource};

/// The most bytes of one read.
const PIECE: usize = 4096;

/// So many bytes are enough.
const LIMIT: u64 = 1 << 40;

fn main(rt: HostRuntime) -> Result<(), anyhow::Error> {
    let mut reader = PacketReader::new(&Settings::new(0, 1, 4)?);
    let mut source = StdSource::new(rt.stdin());
    let mut piece = [0; PIECE];
    let mut packets = 0;
    while reader.offset() < LIMIT {
        let count = source.read(&mut piece)?;
        if count == 0 {
            break;
        }
        packets += packets_in(&piece[..count], &mut reader);
    }
    println!(rt; "{packets}")?;
    Ok(())
}

/// How many packets end in the bytes, which come next.
fn packets_in(bytes: &[u8], reader: &mut PacketReader) -> u64
    requires { reader.old.offset + length bytes.now ≤ 2 ^ 62 }
    ensures offset { reader.new.offset ≡ reader.old.offset + length bytes.now }
    ensures most { result ≤ length bytes.now }
{
    let mut packets = 0;
    for byte in bytes {
        if let Step::Whole { .. } = reader.take(*byte) {
            packets += 1;
        }
    }
    packets
}
