//! The retired path, step by step: what it gives on runs worked out by hand.
use etm_types::{Ctx, ExcMark, Walked};
use spec_run::{RetiredPath, RunStep, StepKind};

const PROGRAM: Ctx = Ctx {
    el: 0,
    ns: true,
    vmid: 5,
    cid: 7,
};

const HANDLER: Ctx = Ctx { el: 1, ..PROGRAM };

const FIRST: RunStep = RunStep {
    addr: 0x1000,
    ctx: PROGRAM,
    kind: StepKind::Plain,
    next: 0x1004,
    link: false,
};

const SECOND: RunStep = RunStep {
    addr: 0x1004,
    next: 0x1008,
    ..FIRST
};

const BRANCH: RunStep = RunStep {
    addr: 0x1008,
    kind: StepKind::Cond { taken: true },
    next: 0x1010,
    ..FIRST
};

const JUMP: RunStep = RunStep {
    addr: 0x2000,
    kind: StepKind::Jump,
    next: 0x2000,
    ..FIRST
};

const NOT_TAKEN: RunStep = RunStep {
    kind: StepKind::Cond { taken: false },
    next: 0x2004,
    ..JUMP
};

const EXCEPTION: RunStep = RunStep {
    addr: 0x2000,
    kind: StepKind::Exc { kind: 3 },
    next: 0x8000,
    ..FIRST
};

const IN_HANDLER: RunStep = RunStep {
    addr: 0x8000,
    ctx: HANDLER,
    next: 0x8004,
    ..FIRST
};

const RETURN: RunStep = RunStep {
    addr: 0x8004,
    kind: StepKind::Eret,
    next: 0x2000,
    ..IN_HANDLER
};

/// The three instructions from 1000 on, the last of which is a branch that was taken, right behind where trace began.
const BRANCH_BLOCK: Walked = Walked {
    on: true,
    unknown: false,
    ctx: PROGRAM,
    start: 0x1000,
    count: 3,
    took: true,
    exc: None,
};

const JUMP_BLOCK: Walked = Walked {
    start: 0x2000,
    count: 1,
    took: false,
    ..BRANCH_BLOCK
};

#[test]
fn a_branch_ends_a_block(rt: HostRuntime) {
    let mut path = RetiredPath::new();
    path.begin();
    let blocks = [
        path.retire(&FIRST),
        path.retire(&SECOND),
        path.retire(&BRANCH),
    ];
    assert_eq!(rt; blocks, [None, None, Some(BRANCH_BLOCK)]);
}

#[test]
fn what_was_begun_is_forgotten_as_trace_ends(rt: HostRuntime) {
    let mut path = RetiredPath::new();
    path.begin();
    let begun = path.retire(&FIRST);
    path.close();
    path.begin();
    let blocks = [begun, path.retire(&JUMP), path.retire(&NOT_TAKEN)];
    let second = Walked {
        on: false,
        ..JUMP_BLOCK
    };
    assert_eq!(rt; blocks, [None, Some(JUMP_BLOCK), Some(second)]);
}

#[test]
fn an_exception_ends_a_block_of_what_stands_before_it(rt: HostRuntime) {
    let mut path = RetiredPath::new();
    path.begin();
    let blocks = [
        path.retire(&EXCEPTION),
        path.retire(&IN_HANDLER),
        path.retire(&RETURN),
    ];
    let exception = Walked {
        count: 0,
        exc: Some(ExcMark {
            kind: 3,
            ret: 0x2000,
        }),
        ..JUMP_BLOCK
    };
    let handler = Walked {
        on: false,
        ctx: HANDLER,
        start: 0x8000,
        count: 2,
        ..JUMP_BLOCK
    };
    assert_eq!(rt; blocks, [Some(exception), None, Some(handler)]);
}
