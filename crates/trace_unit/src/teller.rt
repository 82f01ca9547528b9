//! Orders, told one after the other: the packets of each (Arm IHI 0064, "Descriptions of Trace Packets") are written behind what
//! was put off and goes out before them.
ghost use Rattle.std.specs.Prelude.{◌≡◌, ◌++◌, vec_capacity};
ghost use Rattle.trace_unit.specs.Ordered.{CanTell, bytes_of, told_by};
ghost use Rattle.trace_unit.specs.Orders.{Address, Branch, Cancel, Close, Context, Exception, ExceptionAtTarget, Flip, On};
ghost use Rattle.trace_unit.specs.Orders.{Place, Retire, Settle, Start, Sync, Tell};
ghost use Rattle.trace_unit.specs.Packets.{nothing_shared};
ghost use Rattle.trace_unit.specs.Room.{RoomForBytes};
ghost use Rattle.trace_unit.specs.Whole.{nothing_waits};
ghost use Rattle.spec_run.specs.Runs.{ByOff, ByOverflow};

use crate::packets::put;
use crate::put_off::PutOff;
use crate::shared::Shared;
use etm_types::{Ctx, Settings};
use packet_grammar::Packet;

/// What waits to be written, and what both ends have of the packets so far.
#[derive(Drop)]
pub struct Teller {
    pub settings: Settings,
    pub waiting: PutOff,
    pub shared: Shared,
}

impl Teller {
    /// Nothing was told.
    pub fn new(settings: &Settings) -> Teller
        ensures { result ≡ record { settings = settings.now; waiting = nothing_waits; shared = nothing_shared } }
    {
        Teller {
            settings: *settings,
            waiting: PutOff::new(),
            shared: Shared::new(),
        }
    }

    /// Synchronisation, with a trace info that announces so many P0 elements.
    pub fn sync(&mut self, announced: u32, bytes: &mut Vec<u8>)
        requires can { CanTell self.old (Tell (Sync announced)) }
        requires room { RoomForBytes bytes.old (bytes_of self.old (Tell (Sync announced))) }
        ensures teller { self.new ≡ told_by self.old (Tell (Sync announced)) }
        ensures bytes { bytes.new.items ≡ bytes.old.items ++ bytes_of self.old (Tell (Sync announced)) }
        ensures capacity { vec_capacity bytes.new ≡ vec_capacity bytes.old }
    {
        self.waiting.write_out(&self.settings, bytes);
        self.shared.sync(announced, &self.settings, bytes);
    }

    /// Tracing begins.
    pub fn on(&mut self, bytes: &mut Vec<u8>)
        requires can { CanTell self.old (Tell On) }
        requires room { RoomForBytes bytes.old (bytes_of self.old (Tell On)) }
        ensures teller { self.new ≡ told_by self.old (Tell On) }
        ensures bytes { bytes.new.items ≡ bytes.old.items ++ bytes_of self.old (Tell On) }
        ensures capacity { vec_capacity bytes.new ≡ vec_capacity bytes.old }
    {
        self.waiting.write_out(&self.settings, bytes);
        put(bytes, &self.settings, &Packet::On);
    }

    /// The address and the context of the begun block, in full.
    pub fn start(&mut self, addr: u64, ctx: Ctx, bytes: &mut Vec<u8>)
        requires can { CanTell self.old (Tell (Start addr ctx)) }
        requires room { RoomForBytes bytes.old (bytes_of self.old (Tell (Start addr ctx))) }
        ensures teller { self.new ≡ told_by self.old (Tell (Start addr ctx)) }
        ensures bytes { bytes.new.items ≡ bytes.old.items ++ bytes_of self.old (Tell (Start addr ctx)) }
        ensures capacity { vec_capacity bytes.new ≡ vec_capacity bytes.old }
    {
        self.waiting.write_out(&self.settings, bytes);
        self.shared.start(addr, ctx, &self.settings, bytes);
    }

    /// The address and the context of a block before its P0 step.
    pub fn place(&mut self, addr: u64, ctx: Ctx, bytes: &mut Vec<u8>)
        requires can { CanTell self.old (Tell (Place addr ctx)) }
        requires room { RoomForBytes bytes.old (bytes_of self.old (Tell (Place addr ctx))) }
        ensures teller { self.new ≡ told_by self.old (Tell (Place addr ctx)) }
        ensures bytes { bytes.new.items ≡ bytes.old.items ++ bytes_of self.old (Tell (Place addr ctx)) }
        ensures capacity { vec_capacity bytes.new ≡ vec_capacity bytes.old }
    {
        self.waiting.write_out(&self.settings, bytes);
        self.shared.place(addr, ctx, &self.settings, bytes);
    }

    /// An address alone.
    pub fn address(&mut self, addr: u64, bytes: &mut Vec<u8>)
        requires can { CanTell self.old (Tell (Address addr)) }
        requires room { RoomForBytes bytes.old (bytes_of self.old (Tell (Address addr))) }
        ensures teller { self.new ≡ told_by self.old (Tell (Address addr)) }
        ensures bytes { bytes.new.items ≡ bytes.old.items ++ bytes_of self.old (Tell (Address addr)) }
        ensures capacity { vec_capacity bytes.new ≡ vec_capacity bytes.old }
    {
        self.waiting.write_out(&self.settings, bytes);
        self.shared.address(addr, &self.settings, bytes);
    }

    /// A context alone.
    pub fn context(&mut self, ctx: Ctx, bytes: &mut Vec<u8>)
        requires can { CanTell self.old (Tell (Context ctx)) }
        requires room { RoomForBytes bytes.old (bytes_of self.old (Tell (Context ctx))) }
        ensures teller { self.new ≡ told_by self.old (Tell (Context ctx)) }
        ensures bytes { bytes.new.items ≡ bytes.old.items ++ bytes_of self.old (Tell (Context ctx)) }
        ensures capacity { vec_capacity bytes.new ≡ vec_capacity bytes.old }
    {
        self.waiting.write_out(&self.settings, bytes);
        self.shared.context(ctx, &self.settings, bytes);
    }

    /// An atom.
    pub fn branch(&mut self, taken: bool, bytes: &mut Vec<u8>)
        requires can { CanTell self.old (Branch taken) }
        requires room { RoomForBytes bytes.old (bytes_of self.old (Branch taken)) }
        ensures teller { self.new ≡ told_by self.old (Branch taken) }
        ensures bytes { bytes.new.items ≡ bytes.old.items ++ bytes_of self.old (Branch taken) }
        ensures capacity { vec_capacity bytes.new ≡ vec_capacity bytes.old }
    {
        self.waiting.branch(taken, &self.settings, bytes);
    }

    /// An exception with its return address.
    pub fn exception(&mut self, kind: u8, ret: u64, bytes: &mut Vec<u8>)
        requires can { CanTell self.old (Exception kind ret) }
        requires room { RoomForBytes bytes.old (bytes_of self.old (Exception kind ret)) }
        ensures teller { self.new ≡ told_by self.old (Exception kind ret) }
        ensures bytes { bytes.new.items ≡ bytes.old.items ++ bytes_of self.old (Exception kind ret) }
        ensures capacity { vec_capacity bytes.new ≡ vec_capacity bytes.old }
    {
        self.waiting.write_out(&self.settings, bytes);
        self.waiting.except(&self.settings);
        self.shared.exception(kind, ret, &self.settings, bytes);
    }

    /// An exception at its target, with the context of the block where the reader lacks it.
    pub fn exception_at_target(
        &mut self,
        ctx: Option<Ctx>,
        kind: u8,
        addr: u64,
        bytes: &mut Vec<u8>,
    )
        requires can { CanTell self.old (ExceptionAtTarget ctx kind addr) }
        requires room { RoomForBytes bytes.old (bytes_of self.old (ExceptionAtTarget ctx kind addr)) }
        ensures teller { self.new ≡ told_by self.old (ExceptionAtTarget ctx kind addr) }
        ensures bytes { bytes.new.items ≡ bytes.old.items ++ bytes_of self.old (ExceptionAtTarget ctx kind addr) }
        ensures capacity { vec_capacity bytes.new ≡ vec_capacity bytes.old }
    {
        self.waiting.write_out(&self.settings, bytes);
        self.waiting.except(&self.settings);
        self.shared
            .exception_at_target(ctx, kind, addr, &self.settings, bytes);
    }

    /// So many P0 steps are retired.
    pub fn retire(&mut self, n: u32)
        requires { CanTell self.old (Retire n) }
        ensures { self.new ≡ told_by self.old (Retire n) }
    {
        self.waiting.retire(n);
    }

    /// So many of the newest P0 steps are taken back.
    pub fn cancel(&mut self, n: u32)
        requires { CanTell self.old (Cancel n) }
        ensures { self.new ≡ told_by self.old (Cancel n) }
    {
        self.waiting.cancel(n);
    }

    /// The newest atom is the other one.
    pub fn flip(&mut self, bytes: &mut Vec<u8>)
        requires can { CanTell self.old Flip }
        requires room { RoomForBytes bytes.old (bytes_of self.old Flip) }
        ensures teller { self.new ≡ told_by self.old Flip }
        ensures bytes { bytes.new.items ≡ bytes.old.items ++ bytes_of self.old Flip }
        ensures capacity { vec_capacity bytes.new ≡ vec_capacity bytes.old }
    {
        self.waiting.flip(&self.settings, bytes);
    }

    /// All that was put off is written.
    pub fn settle(&mut self, bytes: &mut Vec<u8>)
        requires can { CanTell self.old Settle }
        requires room { RoomForBytes bytes.old (bytes_of self.old Settle) }
        ensures teller { self.new ≡ told_by self.old Settle }
        ensures bytes { bytes.new.items ≡ bytes.old.items ++ bytes_of self.old Settle }
        ensures capacity { vec_capacity bytes.new ≡ vec_capacity bytes.old }
    {
        self.waiting.settle(&self.settings, bytes);
    }

    /// Tracing ends, by an overflow.
    pub fn overflow(&mut self, bytes: &mut Vec<u8>)
        requires can { CanTell self.old (Close ByOverflow) }
        requires room { RoomForBytes bytes.old (bytes_of self.old (Close ByOverflow)) }
        ensures teller { self.new ≡ told_by self.old (Close ByOverflow) }
        ensures bytes { bytes.new.items ≡ bytes.old.items ++ bytes_of self.old (Close ByOverflow) }
    {
        self.waiting.settle(&self.settings, bytes);
        put(bytes, &self.settings, &Packet::Overflow);
        self.waiting.close();
    }

    /// Tracing ends.
    pub fn stop(&mut self, bytes: &mut Vec<u8>)
        requires can { CanTell self.old (Close ByOff) }
        requires room { RoomForBytes bytes.old (bytes_of self.old (Close ByOff)) }
        ensures teller { self.new ≡ told_by self.old (Close ByOff) }
        ensures bytes { bytes.new.items ≡ bytes.old.items ++ bytes_of self.old (Close ByOff) }
    {
        self.waiting.settle(&self.settings, bytes);
        put(bytes, &self.settings, &Packet::Discard);
        self.waiting.close();
    }
}
