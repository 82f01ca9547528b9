//! The search for the first A-sync (Arm IHI 0064, "Alignment Synchronization packet").
ghost use Rattle.std.specs.Prelude.{◌≡◌, ◌≤◌, ◌+◌, ◌==◌, ◌&&◌, false, nat_lt, if◌then◌else◌};
ghost use Rattle.packet_reader.specs.Stands.{zeros_after, zeros_of_sync};

use packet_grammar::headers::END_OF_SYNC;

/// How many 00 an A-sync has.
pub const ZEROS_OF_SYNC: u8 = 11;

/// How many bytes an A-sync has.
pub const LENGTH_OF_SYNC: u64 = ZEROS_OF_SYNC as u64 + 1;

/// Whether a byte ends an A-sync, after so many 00. Where it does not, the 00 are counted further.
pub fn ends_sync(zeros: &mut u8, byte: u8) -> bool
    requires { zeros.old ≤ zeros_of_sync }
    ensures ends { result ≡ ((zeros.old == zeros_of_sync) && (byte == 0x80)) }
    ensures counted { result ≡ false → zeros.new ≡ zeros_after zeros.old byte }
    ensures fits { (zeros.new ≤ zeros_of_sync) × (zeros.new ≤ zeros.old + 1) }
{
    if *zeros == ZEROS_OF_SYNC && byte == END_OF_SYNC {
        return true;
    }
    *zeros = zeros_after(*zeros, byte);
    false
}

/// In how many 00 bytes end, with one more.
fn zeros_after(zeros: u8, byte: u8) -> u8
    requires { zeros ≤ zeros_of_sync }
    ensures value { result ≡ zeros_after zeros byte }
    ensures most { (result ≤ zeros_of_sync) × (result ≤ zeros + 1) }
{
    if byte != 0x00 {
        return 0;
    }
    if zeros < ZEROS_OF_SYNC {
        return zeros + 1;
    }
    ZEROS_OF_SYNC
}
