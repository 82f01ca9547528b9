//! What both ends have of earlier packets, and the packets that are told against it (Arm IHI 0064, "Address and Context
//! packets").
ghost use Rattle.std.specs.Prelude.{◌≡◌, ◌<◌, ◌%◌, ◌++◌, All, vec_capacity};
ghost use Rattle.packet_writer.specs.Fitting.{HasSpelling};
ghost use Rattle.packet_writer.specs.Spelling.{spelling};
ghost use Rattle.trace_unit.specs.Orders.{Address, Context, Place, Start, Sync, target_notice};
ghost use Rattle.trace_unit.specs.Packets.{context_packet, exception_packets, long_form, notice_packets};
ghost use Rattle.trace_unit.specs.Packets.{nothing_shared, shared_by, target_packets, with_address, with_context};
ghost use Rattle.trace_unit.specs.Room.{RoomForBytes};
ghost use Rattle.trace_unit.specs.Written.{spelled};

use crate::packets::put;
use address_history::History;
use etm_types::{AddrForm, Ctx, CtxBits, Settings};
use packet_grammar::Packet;
use std::marker::Model;

/// The address history and the last context. What is taken back leaves them as they are.
#[derive(Clone, Copy, Debug)]
pub struct Shared {
    history: History,
    context: Ctx,
}

impl Model for Shared {
    ghost use Rattle.trace_unit.specs.Packets.{Shared as Has};

    ghost Value = { Has };

    ghost view = { λ s. record { history = s.history; context = s.context } };

    ghost inverse = { λ s. record { history = s.history; context = s.context } };
}

impl Shared {
    /// Before the first packet, and behind a trace info.
    pub fn new() -> Shared
        ensures { result ≡ nothing_shared }
    {
        Shared {
            history: History::reset(),
            context: Ctx::initial(),
        }
    }

    /// Synchronisation, with a trace info that announces so many P0 elements.
    pub fn sync(&mut self, announced: u32, settings: &Settings, bytes: &mut Vec<u8>)
        requires room { RoomForBytes bytes.old (spelled settings.now (notice_packets self.old (Sync announced))) }
        ensures shared { self.new ≡ shared_by self.old (Sync announced) }
        ensures bytes { bytes.new.items ≡ bytes.old.items ++ spelled settings.now (notice_packets self.old (Sync announced)) }
        ensures capacity { vec_capacity bytes.new ≡ vec_capacity bytes.old }
    {
        put(bytes, settings, &Packet::Async);
        put(
            bytes,
            settings,
            &Packet::Info {
                info: Some(0),
                key: None,
                spec: (announced > 0).then_some(announced),
                cyct: None,
            },
        );
        *self = Shared::new();
    }

    /// The address and the context of the begun block, in full.
    pub fn start(&mut self, addr: u64, ctx: Ctx, settings: &Settings, bytes: &mut Vec<u8>)
        requires spelled { All (HasSpelling settings.now) (notice_packets self.old (Start addr ctx)) }
        requires room { RoomForBytes bytes.old (spelled settings.now (notice_packets self.old (Start addr ctx))) }
        ensures shared { self.new ≡ shared_by self.old (Start addr ctx) }
        ensures bytes { bytes.new.items ≡ bytes.old.items ++ spelled settings.now (notice_packets self.old (Start addr ctx)) }
        ensures capacity { vec_capacity bytes.new ≡ vec_capacity bytes.old }
    {
        self.with_context(AddrForm::Long64(addr), addr, ctx, settings, bytes);
    }

    /// The address and the context of a block before its P0 step.
    pub fn place(&mut self, addr: u64, ctx: Ctx, settings: &Settings, bytes: &mut Vec<u8>)
        requires spelled { All (HasSpelling settings.now) (notice_packets self.old (Place addr ctx)) }
        requires room { RoomForBytes bytes.old (spelled settings.now (notice_packets self.old (Place addr ctx))) }
        ensures shared { self.new ≡ shared_by self.old (Place addr ctx) }
        ensures bytes { bytes.new.items ≡ bytes.old.items ++ spelled settings.now (notice_packets self.old (Place addr ctx)) }
        ensures capacity { vec_capacity bytes.new ≡ vec_capacity bytes.old }
    {
        let form = self.long_form(addr);
        self.with_context(form, addr, ctx, settings, bytes);
    }

    /// The shorter of the two long forms that gives an address.
    fn long_form(&self, addr: u64) -> AddrForm
        ensures { result ≡ long_form self.now.history addr }
    {
        if addr >> 32 == self.history.entry(0) >> 32 {
            AddrForm::Long32(addr % (1 << 32))
        } else {
            AddrForm::Long64(addr)
        }
    }

    /// An address alone, in the form that is chosen for it.
    pub fn address(&mut self, addr: u64, settings: &Settings, bytes: &mut Vec<u8>)
        requires whole { addr % 4 ≡ 0 }
        requires room { RoomForBytes bytes.old (spelled settings.now (notice_packets self.old (Address addr))) }
        ensures shared { self.new ≡ shared_by self.old (Address addr) }
        ensures bytes { bytes.new.items ≡ bytes.old.items ++ spelled settings.now (notice_packets self.old (Address addr)) }
        ensures capacity { vec_capacity bytes.new ≡ vec_capacity bytes.old }
    {
        let form = self.history.choose(addr);
        put(bytes, settings, &Packet::Addr { form, ctx: None });
        self.history.push(addr);
    }

    /// A context alone.
    pub fn context(&mut self, ctx: Ctx, settings: &Settings, bytes: &mut Vec<u8>)
        requires spelled { All (HasSpelling settings.now) (notice_packets self.old (Context ctx)) }
        requires room { RoomForBytes bytes.old (spelled settings.now (notice_packets self.old (Context ctx))) }
        ensures shared { self.new ≡ shared_by self.old (Context ctx) }
        ensures bytes { bytes.new.items ≡ bytes.old.items ++ spelled settings.now (notice_packets self.old (Context ctx)) }
        ensures capacity { vec_capacity bytes.new ≡ vec_capacity bytes.old }
    {
        put(bytes, settings, &self.context_packet(&ctx));
        self.context = ctx;
    }

    /// The packet that gives a context.
    fn context_packet(&self, ctx: &Ctx) -> Packet
        ensures { result ≡ context_packet self.now ctx.now }
    {
        if *ctx == self.context {
            Packet::CtxSame
        } else {
            Packet::CtxInfo(CtxBits::against(&self.context, ctx))
        }
    }

    /// An exception with its return address.
    pub fn exception(&mut self, kind: u8, ret: u64, settings: &Settings, bytes: &mut Vec<u8>)
        requires kind { kind < 32 }
        requires whole { ret % 4 ≡ 0 }
        requires room { RoomForBytes bytes.old (spelled settings.now (exception_packets self.old kind ret)) }
        ensures shared { self.new ≡ with_address self.old ret }
        ensures bytes { bytes.new.items ≡ bytes.old.items ++ spelled settings.now (exception_packets self.old kind ret) }
        ensures capacity { vec_capacity bytes.new ≡ vec_capacity bytes.old }
    {
        let exception = Packet::Exc {
            kind,
            target: false,
        };
        put(bytes, settings, &exception);
        self.address(ret, settings, bytes);
    }

    /// An exception at its target: the address is told once for both, with the context of the block where there is one here.
    pub fn exception_at_target(
        &mut self,
        ctx: Option<Ctx>,
        kind: u8,
        addr: u64,
        settings: &Settings,
        bytes: &mut Vec<u8>,
    )
        requires kind { kind < 32 }
        requires spelled { All (HasSpelling settings.now) (notice_packets self.old (target_notice ctx addr)) }
        requires whole { addr % 4 ≡ 0 }
        requires room { RoomForBytes bytes.old (spelled settings.now (target_packets self.old ctx kind addr)) }
        ensures shared { self.new ≡ shared_by self.old (target_notice ctx addr) }
        ensures bytes { bytes.new.items ≡ bytes.old.items ++ spelled settings.now (target_packets self.old ctx kind addr) }
        ensures capacity { vec_capacity bytes.new ≡ vec_capacity bytes.old }
    {
        let exception = Packet::Exc { kind, target: true };
        put(bytes, settings, &exception);
        match ctx {
            Some(ctx) => self.place(addr, ctx, settings, bytes),
            None => self.address(addr, settings, bytes),
        }
    }

    /// An address in a form, with a context.
    fn with_context(
        &mut self,
        form: AddrForm,
        addr: u64,
        ctx: Ctx,
        settings: &Settings,
        bytes: &mut Vec<u8>,
    )
        requires spelled { HasSpelling settings.now (with_context self.old form ctx) }
        requires room { RoomForBytes bytes.old (spelling settings.now (with_context self.old form ctx)) }
        ensures shared { self.new ≡ record (with_address self.old addr) { context = ctx } }
        ensures bytes { bytes.new.items ≡ bytes.old.items ++ spelling settings.now (with_context self.old form ctx) }
        ensures capacity { vec_capacity bytes.new ≡ vec_capacity bytes.old }
    {
        let against = CtxBits::against(&self.context, &ctx);
        put(
            bytes,
            settings,
            &Packet::Addr {
                form,
                ctx: Some(against),
            },
        );
        self.history.push(addr);
        self.context = ctx;
    }
}
