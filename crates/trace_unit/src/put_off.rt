//! What a unit puts off: atoms (Arm IHI 0064, "Atom Format 1 packet" to "Atom Format 6 packet"), and cancels and commits
//! ("Speculation").
ghost use Rattle.std.specs.Prelude.{◌≡◌, ◌+◌, ◌<◌, ◌≤◌, ◌^◌, ◌∷◌, ◌++◌, [], ℕ, length, take, true, vec_capacity, vec_len};
ghost use Rattle.trace_unit.specs.Orders.{Branch, Cancel, Retire};
ghost use Rattle.trace_unit.specs.Packets.{cancel_packets, commit_packets, flip_packet, flip_packets};
ghost use Rattle.trace_unit.specs.Packets.{front_packet, out_packets, settle_packets, spilled_packets};
ghost use Rattle.trace_unit.specs.Packing.{longest};
ghost use Rattle.trace_unit.specs.Room.{Affords, RoomForBytes};
ghost use Rattle.trace_unit.specs.Whole.{at_once, cancelled_out, flipped, is_full, nothing_waits, out, settled};
ghost use Rattle.trace_unit.specs.Whole.{some_out, spilled, waits, with_atom, wrote, wrote_all};
ghost use Rattle.trace_unit.specs.Written.{spelled};

use crate::atoms::{HeldAtoms, MOST_HELD};
use crate::packets::put;
use etm_types::{FewAtoms, Settings};
use packet_grammar::Packet;
use packet_writer::longest_front;
use std::marker::Model;

/// The atoms that are held; how many elements that were written are still to be cancelled; how many P0 steps that are retired
/// are still to be committed; and how many P0 elements the reader's queue holds.
#[derive(Debug, Drop)]
pub struct PutOff {
    atoms: HeldAtoms,
    cancels: u32,
    commits: u32,
    held: u32,
}

impl Model for PutOff {
    ghost use Rattle.trace_unit.specs.Whole.{PutOff as Waits};

    ghost Value = { Waits };

    ghost view = { λ w. record { atoms = w.atoms; cancels = w.cancels; commits = w.commits; held = w.held } };
}

impl PutOff {
    /// Nothing waits.
    pub fn new() -> PutOff
        ensures { result ≡ nothing_waits }
    {
        PutOff {
            atoms: HeldAtoms::new(),
            cancels: 0,
            commits: 0,
            held: 0,
        }
    }

    /// Writes all but what is to be committed: at most a cancel and eight packets of atoms, since any three atoms have one.
    pub fn write_out(&mut self, settings: &Settings, bytes: &mut Vec<u8>)
        requires affords { Affords settings.now.depth self.old }
        requires room { RoomForBytes bytes.old (spelled settings.now (out_packets self.old)) }
        ensures waiting { self.new ≡ out settings.now.depth self.old }
        ensures bytes { bytes.new.items ≡ bytes.old.items ++ spelled settings.now (out_packets self.old) }
        ensures capacity { vec_capacity bytes.new ≡ vec_capacity bytes.old }
    {
        self.cancel_out(settings, bytes);
        while self.atoms.len() > 0 {
            self.front_out(settings, bytes);
        }
    }

    /// Writes all.
    pub fn settle(&mut self, settings: &Settings, bytes: &mut Vec<u8>)
        requires affords { Affords settings.now.depth self.old }
        requires commits { self.old.commits + self.old.cancels ≤ self.old.held + length self.old.atoms }
        requires room { RoomForBytes bytes.old (spelled settings.now (settle_packets settings.now.depth self.old)) }
        ensures waiting { self.new ≡ settled (out settings.now.depth self.old) }
        ensures bytes { bytes.new.items ≡ bytes.old.items ++ spelled settings.now (settle_packets settings.now.depth self.old) }
        ensures capacity { vec_capacity bytes.new ≡ vec_capacity bytes.old }
    {
        self.write_out(settings, bytes);
        self.commit_out(settings, bytes);
    }

    /// One atom more. Where 24 are held, what is to be cancelled and one packet are written.
    pub fn branch(&mut self, taken: bool, settings: &Settings, bytes: &mut Vec<u8>)
        requires atoms { length self.old.atoms < 24 }
        requires commits { self.old.commits + 1 < 2 ^ 32 }
        requires affords { Affords settings.now.depth (with_atom settings.now.depth self.old taken) }
        requires room { let next = with_atom settings.now.depth self.old taken in
            RoomForBytes bytes.old (spelled settings.now (spilled_packets (is_full next) next)) }
        ensures waiting { self.new ≡ waits settings.now.depth self.old (Branch taken) }
        ensures bytes { let next = with_atom settings.now.depth self.old taken in
            bytes.new.items ≡ bytes.old.items ++ spelled settings.now (spilled_packets (is_full next) next) }
        ensures capacity { vec_capacity bytes.new ≡ vec_capacity bytes.old }
    {
        self.atoms.push(taken);
        self.retire_at_once(settings);
        if self.atoms.len() == MOST_HELD {
            self.spill(settings, bytes);
        }
    }

    /// An exception is written, behind all that is to be cancelled and all atoms.
    pub fn except(&mut self, settings: &Settings)
        requires commits { self.old.commits + 1 < 2 ^ 32 }
        requires affords { self.old.held + 1 ≤ settings.now.depth + self.old.commits + at_once settings.now.depth }
        ensures { self.new
            ≡ wrote settings.now.depth (record (self.old) { commits = self.old.commits + at_once settings.now.depth }) }
    {
        self.retire_at_once(settings);
        self.count_written(settings);
    }

    /// So many P0 steps are retired.
    pub fn retire(&mut self, n: u32)
        requires { self.old.commits + n < 2 ^ 32 }
        ensures { (depth : ℕ) → self.new ≡ waits depth self.old (Retire n) }
    {
        self.commits += n;
    }

    /// So many of the newest P0 steps are taken back: atoms that are held, and elements that were written.
    pub fn cancel(&mut self, n: u32)
        requires { self.old.cancels + n < 2 ^ 32 }
        ensures { (depth : ℕ) → self.new ≡ waits depth self.old (Cancel n) }
    {
        let atoms = self.atoms.len();
        self.atoms.truncate(atoms.saturating_sub(n as usize));
        self.cancels += n.saturating_sub(atoms as u32);
    }

    /// The newest atom is the other one. One that was written is told so, behind all that is to be cancelled.
    pub fn flip(&mut self, settings: &Settings, bytes: &mut Vec<u8>)
        requires cancels { self.old.cancels ≤ self.old.held }
        requires room { RoomForBytes bytes.old (spelled settings.now (flip_packets self.old self.old.atoms)) }
        ensures waiting { self.new ≡ flipped self.old self.old.atoms }
        ensures bytes { bytes.new.items ≡ bytes.old.items ++ spelled settings.now (flip_packets self.old self.old.atoms) }
        ensures capacity { vec_capacity bytes.new ≡ vec_capacity bytes.old }
    {
        if self.atoms.len() > 0 {
            self.atoms.turn_newest();
            return;
        }
        put(bytes, settings, &mispredict_behind(self.cancels));
        self.held -= self.cancels;
        self.cancels = 0;
    }

    /// The reader's queue is empty, since tracing ended.
    pub fn close(&mut self)
        ensures { self.new ≡ record (self.old) { held = 0 } }
    {
        self.held = 0;
    }

    /// Writes what is to be cancelled.
    fn cancel_out(&mut self, settings: &Settings, bytes: &mut Vec<u8>)
        requires cancels { self.old.cancels ≤ self.old.held }
        requires room { RoomForBytes bytes.old (spelled settings.now (cancel_packets self.old.cancels)) }
        ensures waiting { self.new ≡ cancelled_out self.old }
        ensures bytes { bytes.new.items ≡ bytes.old.items ++ spelled settings.now (cancel_packets self.old.cancels) }
        ensures capacity { vec_capacity bytes.new ≡ vec_capacity bytes.old }
    {
        if self.cancels > 0 {
            put(
                bytes,
                settings,
                &Packet::Cancel {
                    n: self.cancels,
                    flip: false,
                },
            );
            self.held -= self.cancels;
            self.cancels = 0;
        }
    }

    /// Writes what is to be committed.
    fn commit_out(&mut self, settings: &Settings, bytes: &mut Vec<u8>)
        requires commits { self.old.commits ≤ self.old.held }
        requires room { RoomForBytes bytes.old (spelled settings.now (commit_packets self.old.commits)) }
        ensures waiting { self.new ≡ settled self.old }
        ensures bytes { bytes.new.items ≡ bytes.old.items ++ spelled settings.now (commit_packets self.old.commits) }
        ensures capacity { vec_capacity bytes.new ≡ vec_capacity bytes.old }
    {
        if self.commits > 0 {
            put(bytes, settings, &Packet::Commit(self.commits));
            self.held -= self.commits;
            self.commits = 0;
        }
    }

    /// Writes what is to be cancelled, and the packet of the longest front of the atoms.
    fn spill(&mut self, settings: &Settings, bytes: &mut Vec<u8>)
        requires some { 0 < length self.old.atoms }
        requires affords { Affords settings.now.depth self.old }
        requires room { RoomForBytes bytes.old (spelled settings.now (spilled_packets true self.old)) }
        ensures waiting { self.new ≡ spilled true settings.now.depth self.old }
        ensures bytes { bytes.new.items ≡ bytes.old.items ++ spelled settings.now (spilled_packets true self.old) }
        ensures capacity { vec_capacity bytes.new ≡ vec_capacity bytes.old }
    {
        self.cancel_out(settings, bytes);
        self.front_out(settings, bytes);
    }

    /// Writes the packet of the longest front of the atoms.
    fn front_out(&mut self, settings: &Settings, bytes: &mut Vec<u8>)
        requires some { 0 < length self.old.atoms }
        requires none { self.old.cancels ≡ 0 }
        requires affords { Affords settings.now.depth self.old }
        requires room { vec_len bytes.old < vec_capacity bytes.old }
        ensures waiting { self.new ≡ some_out settings.now.depth (longest self.old.atoms) self.old }
        ensures bytes { bytes.new.items ≡ bytes.old.items ++ spelled settings.now (front_packet self.old.atoms ∷ []) }
        ensures capacity { vec_capacity bytes.new ≡ vec_capacity bytes.old }
    {
        let (byte, count) = longest_front(self.atoms.as_slice());
        bytes.push_reserved(byte);
        self.count_atoms(count, settings);
        self.atoms.drop_front(count);
    }

    /// So many of the oldest atoms are written.
    fn count_atoms(&mut self, count: usize, settings: &Settings)
        requires within { count ≤ length self.old.atoms }
        requires held { self.old.held ≤ settings.now.depth }
        requires place { self.old.held + count ≤ settings.now.depth + self.old.commits }
        ensures { self.new ≡ wrote_all settings.now.depth (take count self.old.atoms) self.old }
    {
        for _ in 0..count {
            self.count_written(settings);
        }
    }

    /// One P0 element is written: of a full queue the oldest is committed.
    fn count_written(&mut self, settings: &Settings)
        requires { self.old.held + 1 ≤ settings.now.depth + self.old.commits }
        ensures { self.new ≡ wrote settings.now.depth self.old }
    {
        if self.held < settings.depth() {
            self.held += 1;
        } else {
            self.commits -= 1;
        }
    }

    /// At depth 0 a P0 step is retired as it is executed.
    fn retire_at_once(&mut self, settings: &Settings)
        requires { self.old.commits + 1 < 2 ^ 32 }
        ensures { self.new ≡ record (self.old) { commits = self.old.commits + at_once settings.now.depth } }
    {
        if settings.depth() == 0 {
            self.commits += 1;
        }
    }
}

/// The packet of a mispredict behind the cancel of so many elements.
fn mispredict_behind(cancels: u32) -> Packet
    ensures { result ≡ flip_packet cancels }
{
    let none = FewAtoms {
        count: 0,
        first: false,
    };
    match cancels {
        0 => Packet::Mispredict(none),
        1 => Packet::Cancel2(none),
        2..=5 => Packet::Cancel3 {
            e: false,
            n: cancels as u8,
        },
        _ => Packet::Cancel {
            n: cancels,
            flip: true,
        },
    }
}
