//! Walks of worked captures, entry by entry.
ghost use Rattle.std.specs.Prelude.{IsTrue};
ghost use Rattle.path_walker.specs.Walk.{ReturnIsAligned, ToldIsAligned};

use etm_types::{Ctx, Entry, ExcMark, P0, Pre, WalkFault, Walked};
use path_walker::Walker;
use program_image::Image;
use std::alloc::Global;
use std::process::Abort;
use std::test::Fail;

/// NOP; B.EQ to 100c; NOP; B to 1000.
const LOOP: &[u8] = b"@1000\n1f2003d5 40000054 1f2003d5 fdffff17\n";

/// BL to 2010; NOP; B to itself; NOP; CBZ to 2018; BL to 2020; RET; NOP; NOP; RET.
const CALLS: &[u8] =
    b"@2000\n04000094 1f2003d5 00000014 1f2003d5 400000b4 03000094 c0035fd6 1f2003d5 1f2003d5 c0035fd6\n";

/// BL to 3010; B to itself; NOP; NOP; BL to 3018; RET; RET.
const NESTED: &[u8] = b"@3000\n04000094 00000014 1f2003d5 1f2003d5 02000094 c0035fd6 c0035fd6\n";

/// CBZ to 7008; BL to 7000; NOP; RET.
const RECURSION: &[u8] = b"@7000\n400000b4 ffffff97 1f2003d5 c0035fd6\n";

const EL0: Ctx = Ctx {
    el: 0,
    ns: false,
    vmid: 0,
    cid: 0,
};

const TAKEN: P0 = P0::Atom(true);

const NOTHING_GIVEN: Pre = Pre {
    flush: false,
    on: false,
    lost: false,
    ctx: None,
    addr: None,
};

/// Trace begins, at an address that is still to be said.
const BEGIN: Pre = Pre {
    flush: true,
    on: true,
    lost: true,
    ctx: Some(EL0),
    addr: None,
};

/// One instruction at an address that is still to be said.
const ONE: Walked = Walked {
    on: false,
    unknown: false,
    ctx: EL0,
    start: 0,
    count: 1,
    took: false,
    exc: None,
};

const FIRST: Walked = Walked { on: true, ..ONE };

const UNKNOWN: Walked = Walked {
    unknown: true,
    count: 0,
    ..ONE
};

/// An atom E before which nothing was given, and what it walks.
const GOES_ON: Row = Row {
    pre: NOTHING_GIVEN,
    p0: TAKEN,
    walked: Ok(UNKNOWN),
};

/// A P0 element with what was given before it, and what it walks.
#[derive(Clone, Copy)]
struct Row {
    pre: Pre,
    p0: P0,
    walked: Result<Walked, WalkFault>,
}

fn is_aligned(addr: Option<u64>) -> bool
    ensures { IsTrue result → ToldIsAligned addr }
{
    match addr {
        Some(addr) => addr % 4 == 0,
        None => true,
    }
}

fn returns_aligned(p0: P0) -> bool
    ensures { IsTrue result → ReturnIsAligned p0 }
{
    match p0 {
        P0::Atom(_) => true,
        P0::Exc { ret, .. } => ret % 4 == 0,
    }
}

/// Walks the elements of a table over an image.
fn follow(rt: &impl Abort, walker: &mut Walker, image: &Image, rows: &[Row]) {
    for row in rows {
        let (pre, p0) = (row.pre, row.p0);
        assert!(rt; is_aligned(pre.addr) && returns_aligned(p0));
        assert_eq!(rt; walker.walk(image, &Entry { pre, p0 }), row.walked);
    }
}

/// Walks the elements of a table over an image, from its first one on.
fn follow_from_first(
    rt: &impl Abort,
    alloc: Global,
    text: &[u8],
    rows: &[Row],
) -> Result<(), Fail> {
    let image = Image::of_text(alloc, text)?;
    follow(rt, &mut Walker::new(alloc)?, &image, rows);
    Ok(())
}

const USER: Ctx = Ctx { ns: true, ..EL0 };

const SYSTEM: Ctx = Ctx { el: 1, ..USER };

const INTERRUPT: P0 = P0::Exc {
    kind: 14,
    ret: 0x1004,
};

/// The loop, and behind it the handler.
const HANDLED: &[u8] = b"@1000\n1f2003d5 40000054 1f2003d5 fdffff17\n@8000\n1f2003d5 e0039fd6\n";

const AN_EXCEPTION: [Row; 3] = [
    Row {
        pre: Pre {
            ctx: Some(USER),
            addr: Some(0x1000),
            ..BEGIN
        },
        p0: INTERRUPT,
        walked: Ok(Walked {
            ctx: USER,
            start: 0x1000,
            exc: Some(ExcMark {
                kind: 14,
                ret: 0x1004,
            }),
            ..FIRST
        }),
    },
    Row {
        pre: Pre {
            ctx: Some(SYSTEM),
            addr: Some(0x8000),
            ..NOTHING_GIVEN
        },
        p0: TAKEN,
        walked: Ok(Walked {
            ctx: SYSTEM,
            start: 0x8000,
            count: 2,
            ..ONE
        }),
    },
    Row {
        pre: Pre {
            ctx: Some(USER),
            addr: Some(0x1004),
            ..NOTHING_GIVEN
        },
        p0: TAKEN,
        walked: Ok(Walked {
            ctx: USER,
            start: 0x1004,
            took: true,
            ..ONE
        }),
    },
];

#[test]
fn an_exception_comes_back(rt: HostRuntime) -> Result<(), Fail> {
    follow_from_first(&rt, rt.alloc(), HANDLED, &AN_EXCEPTION)
}

const CALLS_AND_RETURNS: [Row; 5] = [
    Row {
        pre: Pre {
            addr: Some(0x3000),
            ..BEGIN
        },
        p0: TAKEN,
        walked: Ok(Walked {
            start: 0x3000,
            ..FIRST
        }),
    },
    Row {
        walked: Ok(Walked {
            start: 0x3010,
            ..ONE
        }),
        ..GOES_ON
    },
    Row {
        walked: Ok(Walked {
            start: 0x3018,
            ..ONE
        }),
        ..GOES_ON
    },
    Row {
        walked: Ok(Walked {
            start: 0x3014,
            ..ONE
        }),
        ..GOES_ON
    },
    Row {
        pre: Pre {
            addr: Some(0x3004),
            ..NOTHING_GIVEN
        },
        p0: TAKEN,
        walked: Ok(Walked {
            start: 0x3004,
            ..ONE
        }),
    },
];

#[test]
fn a_return_pops_what_a_call_pushed(rt: HostRuntime) -> Result<(), Fail> {
    follow_from_first(&rt, rt.alloc(), NESTED, &CALLS_AND_RETURNS)
}

const FAULTS_AT_FIRST: [Row; 3] = [
    Row {
        pre: Pre {
            addr: Some(0x9000),
            ..BEGIN
        },
        p0: TAKEN,
        walked: Err(WalkFault::NoCode(0x9000)),
    },
    Row {
        pre: Pre {
            addr: Some(0x1000),
            ..BEGIN
        },
        p0: P0::Exc {
            kind: 14,
            ret: 0x1008,
        },
        walked: Err(WalkFault::ReturnMissed {
            addr: 0x1004,
            ret: 0x1008,
        }),
    },
    GOES_ON,
];

#[test]
fn a_fault_leaves_an_unknown_place_as_it_was(rt: HostRuntime) -> Result<(), Fail> {
    follow_from_first(&rt, rt.alloc(), LOOP, &FAULTS_AT_FIRST)
}

const FAULTS_BEHIND_A_BRANCH: [Row; 4] = [
    Row {
        pre: Pre {
            addr: Some(0x1000),
            ..BEGIN
        },
        p0: TAKEN,
        walked: Ok(Walked {
            took: true,
            start: 0x1000,
            count: 2,
            ..FIRST
        }),
    },
    Row {
        pre: NOTHING_GIVEN,
        p0: P0::Atom(false),
        walked: Err(WalkFault::BadAtom(0x100c)),
    },
    Row {
        pre: Pre {
            addr: Some(0x1000),
            ..NOTHING_GIVEN
        },
        p0: TAKEN,
        walked: Err(WalkFault::AddressMismatch {
            known: 0x100c,
            given: 0x1000,
        }),
    },
    Row {
        walked: Ok(Walked {
            start: 0x100c,
            ..ONE
        }),
        ..GOES_ON
    },
];

#[test]
fn a_fault_leaves_a_known_place_as_it_was(rt: HostRuntime) -> Result<(), Fail> {
    follow_from_first(&rt, rt.alloc(), LOOP, &FAULTS_BEHIND_A_BRANCH)
}

/// At the branch of `RECURSION`, which is not taken.
const AT_FIRST: Row = Row {
    pre: Pre {
        addr: Some(0x7000),
        ..BEGIN
    },
    p0: P0::Atom(false),
    walked: Ok(Walked {
        start: 0x7000,
        ..FIRST
    }),
};

/// The call behind it, and the branch again, which is not taken.
const ONE_DEEPER: [Row; 2] = [
    Row {
        walked: Ok(Walked {
            start: 0x7004,
            ..ONE
        }),
        ..GOES_ON
    },
    Row {
        pre: NOTHING_GIVEN,
        p0: P0::Atom(false),
        walked: Ok(Walked {
            start: 0x7000,
            ..ONE
        }),
    },
];

/// The last call, the branch, which is taken, and the return that it leads to.
const DEEPEST: [Row; 3] = [
    Row {
        walked: Ok(Walked {
            start: 0x7004,
            ..ONE
        }),
        ..GOES_ON
    },
    Row {
        walked: Ok(Walked {
            took: true,
            start: 0x7000,
            ..ONE
        }),
        ..GOES_ON
    },
    Row {
        walked: Ok(Walked {
            start: 0x7008,
            count: 2,
            ..ONE
        }),
        ..GOES_ON
    },
];

/// A return to behind a call, and the next one.
const RETURNS: Row = Row {
    walked: Ok(Walked {
        start: 0x7008,
        count: 2,
        ..ONE
    }),
    ..GOES_ON
};

#[test]
fn fifteen_return_addresses_are_kept(rt: HostRuntime) -> Result<(), Fail> {
    let image = Image::of_text(rt.alloc(), RECURSION)?;
    let mut walker = Walker::new(rt.alloc())?;
    follow(&rt, &mut walker, &image, &[AT_FIRST]);
    for _ in 0..15 {
        follow(&rt, &mut walker, &image, &ONE_DEEPER);
    }
    follow(&rt, &mut walker, &image, &DEEPEST);
    follow(&rt, &mut walker, &image, &[RETURNS; 15]);
    follow(&rt, &mut walker, &image, &[GOES_ON]);
    Ok(())
}

const LOST: [Row; 4] = [
    Row {
        pre: Pre {
            addr: Some(0x2000),
            ..BEGIN
        },
        p0: TAKEN,
        walked: Ok(Walked {
            start: 0x2000,
            ..FIRST
        }),
    },
    Row {
        pre: Pre {
            lost: true,
            ..NOTHING_GIVEN
        },
        p0: TAKEN,
        walked: Ok(UNKNOWN),
    },
    Row {
        pre: Pre {
            addr: Some(0x2018),
            ..NOTHING_GIVEN
        },
        p0: TAKEN,
        walked: Ok(Walked {
            start: 0x2018,
            ..ONE
        }),
    },
    GOES_ON,
];

#[test]
fn a_lost_place_loses_the_return_addresses(rt: HostRuntime) -> Result<(), Fail> {
    follow_from_first(&rt, rt.alloc(), CALLS, &LOST)
}

const LOST_WITH_AN_ADDRESS: [Row; 3] = [
    Row {
        pre: Pre {
            addr: Some(0x2000),
            ..BEGIN
        },
        p0: TAKEN,
        walked: Ok(Walked {
            start: 0x2000,
            ..FIRST
        }),
    },
    Row {
        pre: Pre {
            lost: true,
            addr: Some(0x2018),
            ..NOTHING_GIVEN
        },
        p0: TAKEN,
        walked: Ok(Walked {
            start: 0x2018,
            ..ONE
        }),
    },
    Row {
        walked: Ok(Walked {
            start: 0x2004,
            count: 2,
            ..ONE
        }),
        ..GOES_ON
    },
];

#[test]
fn a_lost_place_with_an_address_keeps_them(rt: HostRuntime) -> Result<(), Fail> {
    follow_from_first(&rt, rt.alloc(), CALLS, &LOST_WITH_AN_ADDRESS)
}
