//! The reader: the search for the first A-sync, and the packets from there on (Arm IHI 0064, "Alignment
//! Synchronization packet", "Descriptions of Trace Packets").
ghost use Rattle.std.specs.Prelude.{◌≡◌, ◌≤◌, ◌<◌, ◌+◌, ◌-◌, ◌^◌, ◌++◌, ◌∷◌, [], ◌↔◌, length, drop, List, ℕ, IsTrue, IsSome, IfSome, None, All};
ghost use Rattle.atom_formats.specs.Formats.{Spells as TellsAtoms};
ghost use Rattle.etm_types.specs.Atoms.{atoms_in};
ghost use Rattle.etm_types.specs.Settings.{AreSettings};
ghost use Rattle.packet_grammar.specs.Ranges.{IsPacket};
ghost use Rattle.packet_reader.specs.States.{FitsAfter, HeadsBy, behind_commit};
ghost use Rattle.packet_reader.specs.Stands.{FitsPhase, Moved, Moves, settled, zeros_in, zeros_of_sync};

use crate::advance::advance;
use crate::fields::CONTINUES;
use crate::front::{Address, address_at, commit_at};
use crate::headers::{header, run_of};
use crate::phase::Phase;
use crate::state::{Progress, Purpose, State};
use crate::step::Step;
use crate::sync::{LENGTH_OF_SYNC, ends_sync};
use etm_types::{AtomRun, Settings};
use packet_grammar::headers::ATOMS;
use packet_grammar::{End, Packet, PacketFault};
use std::marker::Model;

/// How many bytes a commit packet has whose number has one byte.
const LENGTH_OF_COMMIT: u64 = 2;

/// Reads the packets of a stream, from its first A-sync on.
#[derive(Drop)]
pub struct PacketReader {
    settings: Settings,
    phase: Phase,
    start: u64,
    offset: u64,
}

impl Model for PacketReader {
    ghost use Rattle.std.specs.Prelude.{◌≤◌};
    ghost use Rattle.etm_types.specs.Settings.{AreSettings};
    ghost use Rattle.packet_reader.specs.Stands.{PacketReading, FitsPhase, zeros_in};

    ghost Value = { PacketReading };

    ghost view = { λ r. record { settings = r.settings; phase = r.phase; start = r.start; offset = r.offset } };

    ghost invariant = { λ r. FitsPhase r.phase × (r.start ≤ r.offset) × (zeros_in r.phase ≤ r.offset) × AreSettings r.settings };
}

impl PacketReader {
    ghost use Rattle.packet_grammar.specs.Fields.{bit};
    ghost use Rattle.packet_grammar.specs.Ends.{end_of};
    ghost use Rattle.packet_grammar.specs.Parsed.{Ending, FirstSync, IsStream};
    ghost use Rattle.packet_reader.specs.Answered.{fault_of};
    ghost use Rattle.packet_reader.specs.Packets.{ArePackets, TakesPackets, length_of};
    ghost use Rattle.packet_reader.specs.Stands.{StandsAt, Gains, TakesPacket, is_synced, rest_in, rest_of};

    /// A reader that has taken nothing.
    pub fn new(settings: &Settings) -> PacketReader
        ensures settings { result.settings ≡ settings.now }
        ensures within { AreSettings result.settings }
        ensures stands { StandsAt result [] }
    {
        let _ = settings.depth();
        PacketReader {
            settings: *settings,
            phase: Phase::Hunting { zeros: 0 },
            start: 0,
            offset: 0,
        }
    }

    /// Takes the next byte.
    #[inline(always)]
    pub fn take(&mut self, byte: u8) -> Step
        requires { self.old.offset < 2 ^ 62 }
        ensures settings { self.new.settings ≡ self.old.settings }
        ensures offset { self.new.offset ≡ self.old.offset + 1 }
        ensures stands { (bytes : List ℕ) → StandsAt self.old bytes → StandsAt self.new (bytes ++ byte ∷ []) }
        ensures gains { (bytes : List ℕ) → StandsAt self.old bytes → Gains self.old.settings bytes byte result }
        ensures values { (bytes : List ℕ) → StandsAt self.old bytes → All (λ b. b < 256) bytes
            → (at : ℕ) (packet : Packet) → result ≡ Step.Whole at packet → IsPacket self.old.settings packet }
    {
        self.offset += 1;
        step(
            &self.settings,
            &mut self.phase,
            &mut self.start,
            self.offset,
            byte,
        )
    }

    /// Takes the next byte where the reader stands between two packets and the byte is an atom packet, and answers the
    /// packet's offset and its atoms. Every other byte is left to [`take`](PacketReader::take), and nothing changes.
    ///
    /// Most packets are such. A [`Step`] has room for every packet, and to fill and move it costs more than all else.
    #[inline(always)]
    pub fn take_atoms(&mut self, byte: u8) -> Option<(u64, AtomRun)>
        requires { self.old.offset < 2 ^ 62 }
        ensures some { IsSome result ↔ ((self.old.phase ≡ Phase.Between) × (0xc0 ≤ byte)) }
        ensures none { result ≡ None → self.new ≡ self.old }
        ensures takes { IfSome result (λ atoms. TakesPacket self.old self.new (byte ∷ []) atoms.0 (Packet.Atoms atoms.1)) }
        ensures tells { IfSome result (λ atoms. TellsAtoms byte (atoms_in atoms.1)) }
        ensures between { IfSome result (λ atoms. self.new.phase ≡ Phase.Between) }
    {
        match &self.phase {
            Phase::Between if byte >= ATOMS => {
                let (at, after) = (self.start, self.offset + 1);
                (self.start, self.offset) = (after, after);
                Some((at, run_of(byte)))
            }
            _ => None,
        }
    }

    /// Takes the address packet at the front of `bytes`, the bytes that come next, where the reader stands between two
    /// packets and the packet is all there. It answers the packet's offset, the address and the bytes behind it.
    ///
    /// It is for speed, as [`take_atoms`](PacketReader::take_atoms) is: where it answers `None`, nothing changes, and
    /// [`take`](PacketReader::take) takes the same bytes one by one. Where as many bytes are there as a packet of the
    /// kind may have, it is taken.
    #[inline(always)]
    pub fn take_address<'a>(&mut self, bytes: &'a [u8]) -> Option<(u64, Address, &'a [u8])>
        requires { self.old.offset + length bytes.now ≤ 2 ^ 62 }
        ensures none { result ≡ None → self.new ≡ self.old }
        ensures matched { (h : ℕ) (rest : List ℕ) → self.old.phase ≡ Phase.Between → bytes.now ≡ h ∷ rest → 0x90 ≤ h → h ≤ 0x92 → IsSome result }
        ensures short { (rest : List ℕ) → self.old.phase ≡ Phase.Between → bytes.now ≡ 0x95 ∷ rest → 2 ≤ length rest → IsSome result }
        ensures long_32 { (rest : List ℕ) → self.old.phase ≡ Phase.Between → bytes.now ≡ 0x9a ∷ rest → 4 ≤ length rest → IsSome result }
        ensures long_64 { (rest : List ℕ) → self.old.phase ≡ Phase.Between → bytes.now ≡ 0x9d ∷ rest → 8 ≤ length rest → IsSome result }
        ensures context_32 { (address rest : List ℕ) (info : ℕ) → self.old.phase ≡ Phase.Between → bytes.now ≡ 0x82 ∷ address
            → drop 4 address ≡ info ∷ rest → IsTrue (bit 4 info) → 8 ≤ length rest → IsSome result }
        ensures context_64 { (address rest : List ℕ) (info : ℕ) → self.old.phase ≡ Phase.Between → bytes.now ≡ 0x85 ∷ address
            → drop 8 address ≡ info ∷ rest → IsTrue (bit 4 info) → 8 ≤ length rest → IsSome result }
        ensures takes { IfSome result (λ a. (text : List ℕ) × (bytes.now ≡ text ++ a.2.now) × (0 < length text)
            × TakesPacket self.old self.new text a.0 (Packet.Addr a.1.form a.1.ctx)) }
    {
        match &self.phase {
            Phase::Between => {
                let (address, behind) = address_at(&self.settings, bytes)?;
                let (at, after) = (
                    self.start,
                    self.offset + (bytes.len() - behind.len()) as u64,
                );
                (self.start, self.offset) = (after, after);
                Some((at, address, behind))
            }
            _ => None,
        }
    }

    /// Takes the commit packet at the front of `bytes`, the bytes that come next, where the reader stands between two packets
    /// and the number has one byte. It answers the packet's offset, the number and the bytes behind it.
    ///
    /// It is for speed, as [`take_address`](PacketReader::take_address) is.
    #[inline(always)]
    pub fn take_commit<'a>(&mut self, bytes: &'a [u8]) -> Option<(u64, u32, &'a [u8])>
        requires { self.old.offset + length bytes.now ≤ 2 ^ 62 }
        ensures none { result ≡ None → self.new ≡ self.old }
        ensures some { (n : ℕ) (rest : List ℕ) → self.old.phase ≡ Phase.Between → bytes.now ≡ 0x2d ∷ n ∷ rest → n < 0x80 → IsSome result }
        ensures only { IfSome result (λ c. (self.old.phase ≡ Phase.Between) × (bytes.now ≡ 0x2d ∷ c.1 ∷ c.2.now) × (c.1 < 0x80)) }
        ensures takes { IfSome result (λ c. TakesPacket self.old self.new (0x2d ∷ c.1 ∷ []) c.0 (Packet.Commit c.1)) }
    {
        match &self.phase {
            Phase::Between => {
                let (n, behind) = commit_at(bytes)?;
                let (at, after) = (self.start, self.offset + LENGTH_OF_COMMIT);
                (self.start, self.offset) = (after, after);
                Some((at, n, behind))
            }
            _ => None,
        }
    }

    /// Takes the next byte where the reader stands behind the header of a commit packet and the byte is the number's only
    /// one, and answers the packet's offset and the number. Every other byte is left to [`take`](PacketReader::take), and
    /// nothing changes.
    #[inline(always)]
    pub fn take_commit_end(&mut self, byte: u8) -> Option<(u64, u32)>
        requires { self.old.offset < 2 ^ 62 }
        ensures some { IsSome result ↔ ((self.old.phase ≡ Phase.Within behind_commit) × (byte < 0x80)) }
        ensures none { result ≡ None → self.new ≡ self.old }
        ensures takes { IfSome result (λ c. TakesPacket self.old self.new (byte ∷ []) c.0 (Packet.Commit c.1)) }
    {
        if byte >= CONTINUES || !is_behind_commit(&self.phase) {
            return None;
        }
        let (at, after) = (self.start, self.offset + 1);
        (self.phase, self.start, self.offset) = (Phase::Between, after, after);
        Some((at, u32::from(byte)))
    }

    /// Takes packets that stand whole at the front of the bytes that come next, where the reader stands between two packets: so many bytes in
    /// all, of which the last packet has so many. It answers the offset of the last packet.
    ///
    /// It is for who has read these packets by itself.
    #[inline(always)]
    pub fn skip(&mut self, count: u64, last: u64) -> u64
        requires between { self.old.phase ≡ Phase.Between }
        requires small { self.old.offset + count ≤ 2 ^ 62 }
        requires packets { (first : List (List ℕ × Packet)) × (end : List ℕ × Packet) × ArePackets self.old.settings (first ++ end ∷ [])
            × (length_of (first ++ end ∷ []) ≡ count) × (length end.0 ≡ last) }
        ensures takes { (first : List (List ℕ × Packet)) (end : List ℕ × Packet) → ArePackets self.old.settings (first ++ end ∷ [])
            → length_of (first ++ end ∷ []) ≡ count → length end.0 ≡ last → TakesPackets self.old first end result self.new }
        ensures between { self.new.phase ≡ Phase.Between }
    {
        let after = self.offset + count;
        let at = if count == last {
            self.start
        } else {
            after - last
        };
        (self.start, self.offset) = (after, after);
        at
    }

    /// Whether it stands between two packets.
    #[inline(always)]
    pub fn is_between(&self) -> bool
        ensures { IsTrue result ↔ (self.now.phase ≡ Phase.Between) }
    {
        matches!(self.phase, Phase::Between)
    }

    /// How many bytes were taken.
    pub fn offset(&self) -> u64
        ensures value { result ≡ self.now.offset }
        ensures all { (bytes : List ℕ) → StandsAt self.now bytes → result ≡ length bytes }
    {
        self.offset
    }

    /// Whether an A-sync was found.
    pub fn synced(&self) -> bool
        ensures value { result ≡ is_synced self.now.phase }
        ensures found { (bytes : List ℕ) → StandsAt self.now bytes → IsTrue result ↔ ((at : ℕ) × FirstSync at bytes) }
    {
        is_synced(self.phase)
    }

    /// How many bytes of a begun packet were taken: 0 before an A-sync, and after a fault.
    pub fn rest(&self) -> u64
        ensures value { result ≡ rest_in self.now.phase self.now.start self.now.offset }
        ensures stream { (bytes : List ℕ) → StandsAt self.now bytes
            → (packets : List (ℕ × Packet)) × (ending : Ending) × IsStream self.now.settings bytes packets ending × (result ≡ rest_of ending) }
    {
        rest_in(self.phase, self.start, self.offset)
    }

    /// How the stream ends if no byte more comes, where its bytes showed no fault.
    pub fn end_without_fault(&self) -> End
        ensures { (bytes : List ℕ) (packets : List (ℕ × Packet)) (ending : Ending) → StandsAt self.now bytes
            → IsStream self.now.settings bytes packets ending → fault_of ending ≡ None → result ≡ end_of ending }
    {
        // For the proof: what holds of settings is known where they are looked at.
        let _ = &self.settings;
        let count = self.rest();
        if !self.synced() {
            End::NoSync
        } else if count == 0 {
            End::Clean
        } else {
            End::Cut(count)
        }
    }
}

/// Whether a reader stands behind the header of a commit packet.
#[inline(always)]
fn is_behind_commit(phase: &Phase) -> bool
    ensures { IsTrue result ↔ (phase.now ≡ Phase.Within behind_commit) }
{
    matches!(
        phase,
        Phase::Within {
            state: State::Number {
                purpose: Purpose::Commit,
                left: 4,
                groups: 0,
                value: 0,
            },
        }
    )
}

/// What a byte makes of a reader, which with it has taken so many. Most bytes are atom packets, which leave
/// the phase as it is: these go the short way, and the answer stays where it is used.
#[inline(always)]
fn step(settings: &Settings, phase: &mut Phase, start: &mut u64, offset: u64, byte: u8) -> Step
    requires { FitsPhase phase.old × (start.old ≤ offset) × (zeros_in phase.old < offset) }
    ensures moves { Moves settings.now phase.old start.old offset byte (record { phase = phase.new; start = start.new; step = result }) }
    ensures fits { FitsPhase phase.new × (start.new ≤ offset) × (zeros_in phase.new ≤ offset) }
{
    match phase {
        Phase::Between if byte >= ATOMS => {
            let at = *start;
            *start = offset;
            Step::Whole {
                at,
                packet: Packet::Atoms(run_of(byte)),
            }
        }
        _ => any_step(settings, phase, start, offset, byte),
    }
}

/// The same, of any byte.
#[inline(never)]
fn any_step(settings: &Settings, phase: &mut Phase, start: &mut u64, offset: u64, byte: u8) -> Step
    requires { FitsPhase phase.old × (start.old ≤ offset) × (zeros_in phase.old < offset) }
    ensures moves { Moves settings.now phase.old start.old offset byte (record { phase = phase.new; start = start.new; step = result }) }
    ensures fits { FitsPhase phase.new × (start.new ≤ offset) × (zeros_in phase.new ≤ offset) }
{
    match phase {
        Phase::Hunting { zeros } => {
            if !ends_sync(zeros, byte) {
                *start = 0;
                return Step::Skipped;
            }
            *phase = Phase::Between;
            *start = offset;
            Step::Whole {
                at: offset - LENGTH_OF_SYNC,
                packet: Packet::Async,
            }
        }
        Phase::Between => begin(phase, start, offset, byte),
        Phase::Within { state } => match advance(settings, state, byte) {
            None => Step::More,
            Some(outcome) => end(phase, start, offset, outcome),
        },
        Phase::Failed => Step::Stopped,
    }
}

/// What a header makes of a reader that stands between two packets. After a packet of one byte it stands
/// there again, so its phase is left as it is.
fn begin(phase: &mut Phase, start: &mut u64, offset: u64, h: u8) -> Step
    requires between { phase.old ≡ Phase.Between }
    requires start { start.old ≤ offset }
    ensures value { (progress : Progress) × HeadsBy h progress × FitsAfter progress
        × (record { phase = phase.new; start = start.new; step = result } ≡ settled progress start.old offset) }
    ensures fits { FitsPhase phase.new × (start.new ≤ offset) × (zeros_in phase.new ≡ 0) }
{
    match header(h) {
        Progress::Next(state) => {
            *phase = Phase::Within { state };
            Step::More
        }
        Progress::Done(Ok(packet)) => {
            let at = *start;
            *start = offset;
            Step::Whole { at, packet }
        }
        Progress::Done(Err(fault)) => end(phase, start, offset, Err(fault)),
    }
}

/// What the end of a packet, or a fault, makes of a reader.
fn end(
    phase: &mut Phase,
    start: &mut u64,
    offset: u64,
    outcome: Result<Packet, PacketFault>,
) -> Step
    requires { start.old ≤ offset }
    ensures value { record { phase = phase.new; start = start.new; step = result } ≡ settled (Progress.Done outcome) start.old offset }
    ensures fits { FitsPhase phase.new × (start.new ≤ offset) × (zeros_in phase.new ≡ 0) }
{
    let at = *start;
    *start = offset;
    match outcome {
        Ok(packet) => {
            *phase = Phase::Between;
            Step::Whole { at, packet }
        }
        Err(fault) => {
            *phase = Phase::Failed;
            Step::Bad { at, fault }
        }
    }
}

ghost use Rattle.packet_reader.specs.Stands.{is_synced, rest_in};

/// Whether an A-sync was found.
fn is_synced(phase: Phase) -> bool
    ensures { result ≡ is_synced phase }
{
    match phase {
        Phase::Hunting { .. } => false,
        Phase::Between => true,
        Phase::Within { .. } => true,
        Phase::Failed => true,
    }
}

/// How many bytes of a begun packet were taken.
fn rest_in(phase: Phase, start: u64, offset: u64) -> u64
    requires { start ≤ offset }
    ensures { result ≡ rest_in phase start offset }
{
    match phase {
        Phase::Within { .. } => offset - start,
        Phase::Hunting { .. } => 0,
        Phase::Between => 0,
        Phase::Failed => 0,
    }
}
