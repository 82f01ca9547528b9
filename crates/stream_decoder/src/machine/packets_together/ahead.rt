//! What packets of atoms, commits, cancels and mispredicts commit, told from the bytes alone before any is taken. Where each packet commits a few
//! atoms, as in a loop whose branches give no address, what is done packet by packet is most of what they cost.
//!
//! *Together* are foretold: such packets that stand side by side, up to the one with which as many atoms are committed as the taker has room for.
//!
//! *Condition:* all that is held is atoms before which nothing was given, and nothing was given since; the numbers of commits and cancels have one
//! byte; and each packet may come: what it commits or takes back is held, and no more than 64 atoms wait to be walked or are held.
//!
//! *Left to the long way:* the packets from the first on that is not so.
//!
//! *Cost:* some shifts of a word of 64 bits a packet. Where fewer are walked than were foretold, the packets are foretold once more, up to there.
ghost use Rattle.std.specs.Prelude.{◌≡◌, ◌≤◌, ◌<◌, ◌++◌, ◌∷◌, [], Bool, List, ℕ, length, IfSome, IsSome, None};
ghost use Rattle.element_queue.specs.Outlooks.{Outlook as Tried};
ghost use Rattle.packet_grammar.specs.declared.packet.Packet.{Packet};
ghost use Rattle.packet_reader.specs.Packets.{bytes_of};
ghost use Rattle.stream_decoder.specs.Ahead.{Foretold, Moves, MovesAll};

use atom_formats::atoms_of;
use element_queue::Outlook;
use packet_grammar::headers::{CANCEL_FORMAT_1, COMMIT, MISPREDICT};

/// From here on a byte of a number has another one behind it.
const CONTINUES: u8 = 0x80;

/// What packets at the front of some bytes commit.
#[derive(Drop)]
pub struct Foretelling<'a> {
    /// What they make of the outlook.
    pub outlook: Outlook,
    /// How many bytes the last of them has: 0 where there is none.
    pub last: usize,
    /// The bytes behind it.
    pub behind: &'a [u8],
}

/// What the packets of atoms, commits, cancels and mispredicts at the front of some bytes commit, up to the packet with which at least so many are
/// committed.
#[inline(always)]
pub fn foretell<'a>(outlook: Outlook, bytes: &'a [u8], most: u32) -> Foretelling<'a>
    ensures none { result.last ≡ 0 → result.outlook ≡ outlook }
    ensures foretold { 0 < result.last → Foretold outlook bytes.now most result.outlook result.last result.behind.now }
    ensures reaches { (ps : List (List ℕ × Packet)) (behind : List ℕ) (o : Tried) → bytes.now ≡ bytes_of ps ++ behind → MovesAll outlook ps o
        → most ≤ length o.gone → most ≤ length result.outlook.gone }
    ensures front { (ps : List (List ℕ × Packet)) (behind : List ℕ) (o : Tried) → bytes.now ≡ bytes_of ps ++ behind → MovesAll outlook ps o
        → most ≤ length o.gone → (more : List Bool) × (o.gone ≡ result.outlook.gone ++ more) }
{
    let mut outlook = outlook;
    let mut last = 0;
    let mut rest = bytes;
    while outlook.committed() < most {
        let Some((length, behind)) = try_packet(&mut outlook, rest) else {
            break;
        };
        (last, rest) = (length, behind);
    }
    Foretelling {
        outlook,
        last,
        behind: rest,
    }
}

/// The same no further than it was walked: up to the packet with which n atoms are committed.
#[inline(always)]
pub fn no_further<'a>(
    ahead: Foretelling<'a>,
    outlook: Outlook,
    bytes: &'a [u8],
    n: u32,
) -> Foretelling<'a>
    requires foretold { (most : ℕ) × Foretold outlook bytes.now most ahead.outlook ahead.last ahead.behind.now }
    requires few { n ≤ length ahead.outlook.gone }
    requires some { n < length ahead.outlook.gone → length outlook.gone < n }
    ensures foretold { Foretold outlook bytes.now n result.outlook result.last result.behind.now }
    ensures reaches { n ≤ length result.outlook.gone }
    ensures front { (more : List Bool) × (ahead.entry.outlook.gone ≡ result.outlook.gone ++ more) }
{
    if ahead.outlook.committed() == n {
        return ahead;
    }
    foretell_again(outlook, bytes, n)
}

/// The same where it was foretold further. It is rare.
#[inline(never)]
fn foretell_again<'a>(outlook: Outlook, bytes: &'a [u8], n: u32) -> Foretelling<'a>
    requires reaches { (ps : List (List ℕ × Packet)) × (behind : List ℕ) × (o : Tried) × (bytes.now ≡ bytes_of ps ++ behind) × MovesAll outlook ps o
        × (n ≤ length o.gone) }
    requires some { length outlook.gone < n }
    ensures foretold { Foretold outlook bytes.now n result.outlook result.last result.behind.now }
    ensures reaches { n ≤ length result.outlook.gone }
    ensures front { (ps : List (List ℕ × Packet)) (behind : List ℕ) (o : Tried) → bytes.now ≡ bytes_of ps ++ behind → MovesAll outlook ps o
        → n ≤ length o.gone → (more : List Bool) × (o.gone ≡ result.outlook.gone ++ more) }
{
    foretell(outlook, bytes, n)
}

/// What the packet at the front of some bytes makes of an outlook: how many bytes it has, and the bytes behind it. Nothing changes where it is of
/// another kind, or can't be taken.
#[inline(always)]
fn try_packet<'a>(outlook: &mut Outlook, bytes: &'a [u8]) -> Option<(usize, &'a [u8])>
    ensures moves { IfSome result (λ t. (p : List ℕ × Packet) × (bytes.now ≡ p.0 ++ t.1.now) × (length p.0 ≡ t.0) × (0 < t.0) × Moves outlook.old p outlook.new) }
    ensures some { (p : List ℕ × Packet) (behind : List ℕ) (o : Tried) → bytes.now ≡ p.0 ++ behind → Moves outlook.old p o → IsSome result }
    ensures unchanged { result ≡ None → outlook.new ≡ outlook.old }
{
    let (header, rest) = bytes.split_first()?;
    if let Some(run) = atoms_of(*header) {
        return if outlook.hold(&run) {
            Some((1, rest))
        } else {
            None
        };
    }
    if *header == MISPREDICT {
        return if outlook.flip() {
            Some((1, rest))
        } else {
            None
        };
    }
    let (n, behind) = rest.split_first()?;
    if *n >= CONTINUES {
        return None;
    }
    let taken = if *header == COMMIT {
        outlook.commit(u32::from(*n))
    } else if *header == CANCEL_FORMAT_1 {
        outlook.cancel(u32::from(*n))
    } else {
        false
    };
    if taken { Some((2, behind)) } else { None }
}
