//! The packets of hand-made streams, with their elements worked out by hand.
ghost use Rattle.std.specs.Prelude.{◌≤◌, IfSome, IsTrue};
ghost use Rattle.path_elements.specs.Held.{CanBeTaken};

use etm_types::{AddrForm, AtomRun, Ctx, CtxBits, Elem, FewAtoms, P0};
use packet_grammar::Packet;
use path_elements::*;
use std::process::Abort;

const TAKEN: Elem = Elem::P0(P0::Atom(true));

const NOT_TAKEN: Elem = Elem::P0(P0::Atom(false));

const SECURE: Ctx = Ctx {
    el: 0,
    ns: false,
    vmid: 0,
    cid: 0,
};

const PROGRAM: Ctx = Ctx { ns: true, ..SECURE };

const HANDLER: Ctx = Ctx { el: 1, ..PROGRAM };

const IN_SECURE: CtxBits = CtxBits {
    el: 0,
    ns: false,
    vmid: None,
    cid: None,
};

const IN_PROGRAM: CtxBits = CtxBits {
    ns: true,
    ..IN_SECURE
};

const IN_HANDLER: CtxBits = CtxBits {
    el: 1,
    ..IN_PROGRAM
};

/// A packet, and the elements that it gives, where it may come.
#[derive(Clone, Copy)]
struct Row {
    packet: Packet,
    elems: Option<&'static [Elem]>,
}

/// Trace info without a speculation depth.
const INFO: Row = Row {
    packet: Packet::Info {
        info: Some(0),
        key: None,
        spec: None,
        cyct: None,
    },
    elems: Some(&[Elem::Info { spec: 0 }]),
};

const SYNC: Row = Row {
    packet: Packet::Async,
    elems: Some(&[]),
};

/// One atom E.
const ATOM: Row = Row {
    packet: Packet::Atoms(AtomRun { count: 1, bits: 1 }),
    elems: Some(&[TAKEN]),
};

const AN_INTERRUPT: Row = Row {
    packet: Packet::Exc {
        kind: 14,
        target: false,
    },
    elems: Some(&[]),
};

/// An interrupt whose address is the target of what stood before too.
const AN_INTERRUPT_AT_ITS_TARGET: Row = Row {
    packet: Packet::Exc {
        kind: 14,
        target: true,
    },
    elems: Some(&[]),
};

const A_FAULT: Row = Row {
    packet: Packet::Exc {
        kind: 1,
        target: false,
    },
    elems: Some(&[]),
};

const NEWEST_ADDRESS: Packet = Packet::Addr {
    form: AddrForm::Match(0),
    ctx: None,
};

/// Whether a level is one that there is.
fn has_level(ctx: &Option<CtxBits>) -> bool
    ensures { IsTrue result → IfSome ctx.now (λ told. told.el ≤ 3) }
{
    match ctx {
        Some(told) => told.el <= 3,
        None => true,
    }
}

/// Whether the numbers of a packet are within their ranges.
fn can_be_taken(packet: &Packet) -> bool
    ensures { IsTrue result → CanBeTaken packet.now }
{
    match packet {
        Packet::Exc { kind, .. } => *kind < 32,
        Packet::Mispredict(few) => few.count <= 2,
        Packet::Cancel2(few) => few.count <= 2,
        Packet::CtxInfo(ctx) => ctx.el <= 3,
        Packet::Addr {
            form: AddrForm::Match(entry),
            ctx,
        } => *entry <= 2 && has_level(ctx),
        Packet::Addr { ctx, .. } => has_level(ctx),
        Packet::Atoms(run) => run.count <= 24,
        _ => true,
    }
}

/// Whether these elements are the ones that are wanted.
fn are(elems: &Elems, wanted: &[Elem]) -> bool {
    for (i, elem) in wanted.iter().enumerate() {
        if elems.get(i) != Some(*elem) {
            return false;
        }
    }
    elems.len() == wanted.len() && elems.get(wanted.len()).is_none()
}

/// Whether a packet gives the elements that are wanted, or, where there are none, may not come and changes nothing.
fn gives(maker: &mut ElemMaker, packet: &Packet, wanted: Option<&[Elem]>) -> bool
    requires { CanBeTaken packet.now }
{
    let before = *maker;
    match (maker.take(packet), wanted) {
        (Ok(elems), Some(wanted)) => are(&elems, wanted),
        (Err(Awaited), None) => *maker == before,
        _ => false,
    }
}

/// Gives a new maker the packets of a table.
fn follow(rt: &impl Abort, rows: &[Row]) {
    let mut maker = ElemMaker::new();
    for (i, row) in rows.iter().enumerate() {
        assert!(rt; can_be_taken(&row.packet));
        assert!(rt; gives(&mut maker, &row.packet, row.elems), "row {i}");
    }
}

const A_FLIP_AFTER_A_SYNC: [Row; 11] = [
    SYNC,
    INFO,
    Row {
        packet: Packet::On,
        elems: Some(&[Elem::On]),
    },
    Row {
        packet: Packet::Addr {
            form: AddrForm::Long64(0x1000),
            ctx: Some(IN_SECURE),
        },
        elems: Some(&[Elem::Ctx(SECURE), Elem::Addr(0x1000)]),
    },
    ATOM,
    SYNC,
    Row {
        packet: Packet::Info {
            info: Some(0),
            key: None,
            spec: Some(1),
            cyct: None,
        },
        elems: Some(&[Elem::Info { spec: 1 }]),
    },
    Row {
        packet: Packet::Addr {
            form: AddrForm::Long64(0x100c),
            ctx: Some(IN_SECURE),
        },
        elems: Some(&[Elem::Ctx(SECURE), Elem::Addr(0x100c)]),
    },
    Row {
        packet: Packet::Mispredict(FewAtoms {
            count: 0,
            first: false,
        }),
        elems: Some(&[Elem::Flip]),
    },
    ATOM,
    Row {
        packet: Packet::Commit(2),
        elems: Some(&[Elem::Commit(2)]),
    },
];

#[test]
fn a_flip_after_a_sync(rt: HostRuntime) {
    follow(&rt, &A_FLIP_AFTER_A_SYNC);
}

/// Trace on is not told before the first trace info.
const AN_EXCEPTION_AND_ITS_RETURN: [Row; 8] = [
    Row {
        packet: Packet::On,
        elems: Some(&[]),
    },
    INFO,
    Row {
        packet: Packet::Addr {
            form: AddrForm::Long64(0x1000),
            ctx: Some(IN_PROGRAM),
        },
        elems: Some(&[Elem::Ctx(PROGRAM), Elem::Addr(0x1000)]),
    },
    AN_INTERRUPT,
    Row {
        packet: Packet::Addr {
            form: AddrForm::Short1(4),
            ctx: None,
        },
        elems: Some(&[Elem::P0(P0::Exc {
            kind: 14,
            ret: 0x1004,
        })]),
    },
    Row {
        packet: Packet::Addr {
            form: AddrForm::Long64(0x8000),
            ctx: Some(IN_HANDLER),
        },
        elems: Some(&[Elem::Ctx(HANDLER), Elem::Addr(0x8000)]),
    },
    ATOM,
    Row {
        packet: Packet::CtxSame,
        elems: Some(&[Elem::Ctx(HANDLER)]),
    },
];

#[test]
fn an_exception_and_its_return(rt: HostRuntime) {
    follow(&rt, &AN_EXCEPTION_AND_ITS_RETURN);
    elements_come_one_by_one();
    spelled_packets_can_be_taken();
}

const PLACE: Elem = Elem::Addr(0x1000);

const INTERRUPT: Elem = Elem::P0(P0::Exc {
    kind: 14,
    ret: 0x1000,
});

const AN_EXCEPTION_AT_ITS_TARGET: [Row; 10] = [
    INFO,
    AN_INTERRUPT_AT_ITS_TARGET,
    Row {
        packet: Packet::Addr {
            form: AddrForm::Long64(0x1000),
            ctx: Some(IN_PROGRAM),
        },
        elems: Some(&[Elem::Ctx(PROGRAM), PLACE, INTERRUPT]),
    },
    AN_INTERRUPT_AT_ITS_TARGET,
    Row {
        packet: NEWEST_ADDRESS,
        elems: Some(&[PLACE, INTERRUPT]),
    },
    AN_INTERRUPT,
    Row {
        packet: NEWEST_ADDRESS,
        elems: Some(&[INTERRUPT]),
    },
    Row {
        packet: Packet::Exc {
            kind: 3,
            target: true,
        },
        elems: Some(&[]),
    },
    Row {
        packet: Packet::Discard,
        elems: Some(&[Elem::Discard]),
    },
    Row {
        packet: NEWEST_ADDRESS,
        elems: Some(&[PLACE]),
    },
];

#[test]
fn an_exception_at_its_target(rt: HostRuntime) {
    follow(&rt, &AN_EXCEPTION_AT_ITS_TARGET);
}

const AN_EXCEPTION_AWAITS_ITS_ADDRESS: [Row; 8] = [
    INFO,
    A_FAULT,
    Row {
        elems: None,
        ..INFO
    },
    Row {
        elems: None,
        ..ATOM
    },
    Row {
        elems: None,
        ..A_FAULT
    },
    Row {
        packet: Packet::Ignore,
        elems: Some(&[]),
    },
    Row {
        packet: Packet::Overflow,
        elems: Some(&[Elem::Overflow]),
    },
    ATOM,
];

#[test]
fn an_exception_awaits_its_address(rt: HostRuntime) {
    follow(&rt, &AN_EXCEPTION_AWAITS_ITS_ADDRESS);
}

const CANCEL_OF_TWO: Packet = Packet::Cancel3 { e: true, n: 2 };

const ATOMS_FIRST: [Row; 5] = [
    INFO,
    Row {
        packet: Packet::Atoms(AtomRun {
            count: 4,
            bits: 0b1110,
        }),
        elems: Some(&[NOT_TAKEN, TAKEN, TAKEN, TAKEN]),
    },
    Row {
        packet: Packet::Cancel { n: 3, flip: true },
        elems: Some(&[Elem::Cancel(3), Elem::Flip]),
    },
    Row {
        packet: Packet::Cancel2(FewAtoms {
            count: 2,
            first: true,
        }),
        elems: Some(&[TAKEN, TAKEN, Elem::Cancel(1), Elem::Flip]),
    },
    Row {
        packet: CANCEL_OF_TWO,
        elems: Some(&[TAKEN, Elem::Cancel(2), Elem::Flip]),
    },
];

#[test]
fn atoms_come_first_and_the_oldest_of_them(rt: HostRuntime) {
    follow(&rt, &ATOMS_FIRST);
}
