//! Runs over small images: what each event answers, and where the run stands behind it.
use etm_types::{Ctx, Settings};
use program_image::Image;
use spec_run::{Done, Event, Run, RunFault, RunStep, StepKind};
use std::alloc::Global;
use std::process::Abort;
use std::test::Fail;

/// From 1000 on: NOP; ISB; B.EQ to 1010; BL to 1000; BR; ERET; DRPS.
const CODE: &[u8] = b"@1000\n1f2003d5 df3f03d5 40000054 fdffff97 00001fd6 e0039fd6 e003bfd6\n";

/// From 1000 on: 15 NOPs; B to the first.
const LOOP: &[u8] = b"@1000
1f2003d51f2003d51f2003d51f2003d51f2003d5
1f2003d51f2003d51f2003d51f2003d51f2003d5
1f2003d51f2003d51f2003d51f2003d51f2003d5 f1ffff17
";

const EL0: Ctx = Ctx {
    el: 0,
    ns: true,
    vmid: 5,
    cid: 7,
};

const EL1: Ctx = Ctx { el: 1, ..EL0 };

/// An event, what it answers, and where the run stands behind it.
#[derive(Clone, Copy)]
struct Row {
    event: Event,
    answer: Result<Done, RunFault>,
    pc: Option<u64>,
    ctx: Option<Ctx>,
    unretired: u32,
}

/// Tracing is on at 1000, where nothing was executed.
const AT_FIRST: Row = Row {
    event: Event::On {
        addr: 0x1000,
        ctx: EL0,
    },
    answer: Ok(Done::Began),
    pc: Some(0x1000),
    ctx: Some(EL0),
    unretired: 0,
};

/// The NOP at 1000 is executed.
const FIRST_STEP: RunStep = RunStep {
    addr: 0x1000,
    ctx: EL0,
    kind: StepKind::Plain,
    next: 0x1004,
    link: false,
};

fn run_of(alloc: Global, depth: u32) -> Result<Run, Fail> {
    let settings = Settings::new(depth, 4, 4).ok().ok_or("these are settings")?;
    Ok(Run::new(alloc, &settings)?)
}

/// Gives a run the events of a table. Each one is allowed exactly where it is then applied.
fn follow(rt: &impl Abort, run: &mut Run, image: &Image, rows: &[Row]) {
    for row in rows {
        assert_eq!(rt; run.plan(image, &row.event).err(), row.answer.err());
        assert_eq!(rt; run.apply(image, &row.event), row.answer);
        assert_eq!(rt;
            (run.pc(), run.ctx(), run.unretired()),
            (row.pc, row.ctx, row.unretired)
        );
    }
}

/// Gives a new run of a depth over `CODE` the events of a table.
fn follow_from_first(rt: &impl Abort, alloc: Global, depth: u32, rows: &[Row]) -> Result<(), Fail> {
    let image = Image::of_text(alloc, CODE)?;
    follow(rt, &mut run_of(alloc, depth)?, &image, rows);
    Ok(())
}

/// The NOP at 1000 was executed.
const BEHIND_A_NOP: Row = Row {
    event: Event::Step,
    answer: Ok(Done::Ran(FIRST_STEP)),
    pc: Some(0x1004),
    unretired: 1,
    ..AT_FIRST
};

/// And the ISB at 1004.
const BEHIND_AN_ISB: Row = Row {
    event: Event::Step,
    answer: Ok(Done::Ran(RunStep {
        addr: 0x1004,
        kind: StepKind::Isb,
        next: 0x1008,
        ..FIRST_STEP
    })),
    pc: Some(0x1008),
    unretired: 2,
    ..AT_FIRST
};

/// Behind it the context was changed.
const IN_ANOTHER_CONTEXT: Row = Row {
    event: Event::Context { ctx: EL1 },
    answer: Ok(Done::Contexted),
    pc: Some(0x1008),
    ctx: Some(EL1),
    unretired: 2,
};

/// And there the branch was taken.
const BEHIND_A_BRANCH: Row = Row {
    event: Event::Taken,
    answer: Ok(Done::Ran(RunStep {
        addr: 0x1008,
        ctx: EL1,
        kind: StepKind::Cond { taken: true },
        next: 0x1010,
        link: false,
    })),
    pc: Some(0x1010),
    ctx: Some(EL1),
    unretired: 3,
};

const EACH_EVENT: [Row; 13] = [
    AT_FIRST,
    BEHIND_A_NOP,
    BEHIND_AN_ISB,
    IN_ANOTHER_CONTEXT,
    BEHIND_A_BRANCH,
    Row {
        event: Event::Flip,
        answer: Ok(Done::Flipped),
        pc: Some(0x100c),
        ctx: Some(EL1),
        unretired: 3,
    },
    Row {
        event: Event::Taken,
        answer: Ok(Done::Ran(RunStep {
            addr: 0x100c,
            ctx: EL1,
            kind: StepKind::Jump,
            next: 0x1000,
            link: true,
        })),
        pc: Some(0x1000),
        ctx: Some(EL1),
        unretired: 4,
    },
    Row {
        event: Event::Retire(2),
        answer: Ok(Done::Retired { p0: 1 }),
        pc: Some(0x1000),
        ctx: Some(EL1),
        unretired: 2,
    },
    Row {
        event: Event::Cancel(1),
        answer: Ok(Done::Cancelled { p0: 1 }),
        pc: Some(0x100c),
        ctx: Some(EL1),
        unretired: 1,
    },
    Row {
        event: Event::Sync,
        answer: Ok(Done::Synced),
        pc: Some(0x100c),
        ctx: Some(EL1),
        unretired: 1,
    },
    Row {
        event: Event::Overflow,
        answer: Ok(Done::Overflowed),
        pc: None,
        ctx: None,
        unretired: 0,
    },
    AT_FIRST,
    Row {
        event: Event::Off,
        answer: Ok(Done::Stopped),
        pc: None,
        ctx: None,
        unretired: 0,
    },
];

#[test]
fn each_event_says_what_it_did(rt: HostRuntime) -> Result<(), Fail> {
    follow_from_first(&rt, rt.alloc(), 4, &EACH_EVENT)
}

const BRANCHES: [Row; 6] = [
    Row {
        event: Event::On {
            addr: 0x1010,
            ctx: EL0,
        },
        pc: Some(0x1010),
        ..AT_FIRST
    },
    Row {
        event: Event::To { addr: 0x1014 },
        answer: Ok(Done::Ran(RunStep {
            addr: 0x1010,
            kind: StepKind::Ind { link: false },
            next: 0x1014,
            ..FIRST_STEP
        })),
        pc: Some(0x1014),
        ctx: Some(EL0),
        unretired: 1,
    },
    Row {
        event: Event::Eret {
            addr: 0x1004,
            ctx: EL1,
        },
        answer: Ok(Done::Ran(RunStep {
            addr: 0x1014,
            kind: StepKind::Eret,
            next: 0x1004,
            ..FIRST_STEP
        })),
        pc: Some(0x1004),
        ctx: Some(EL1),
        unretired: 2,
    },
    Row {
        event: Event::Exc {
            kind: 3,
            addr: 0x1014,
            ctx: EL0,
        },
        answer: Ok(Done::Ran(RunStep {
            addr: 0x1004,
            ctx: EL1,
            kind: StepKind::Exc { kind: 3 },
            next: 0x1014,
            link: false,
        })),
        pc: Some(0x1014),
        ctx: Some(EL0),
        unretired: 3,
    },
    Row {
        event: Event::Eret {
            addr: 0x1008,
            ctx: EL1,
        },
        answer: Ok(Done::Ran(RunStep {
            addr: 0x1014,
            kind: StepKind::Eret,
            next: 0x1008,
            ..FIRST_STEP
        })),
        pc: Some(0x1008),
        ctx: Some(EL1),
        unretired: 4,
    },
    Row {
        event: Event::NotTaken,
        answer: Ok(Done::Ran(RunStep {
            addr: 0x1008,
            ctx: EL1,
            kind: StepKind::Cond { taken: false },
            next: 0x100c,
            link: false,
        })),
        pc: Some(0x100c),
        ctx: Some(EL1),
        unretired: 5,
    },
];

#[test]
fn branches_and_exceptions_go_to_an_address(rt: HostRuntime) -> Result<(), Fail> {
    follow_from_first(&rt, rt.alloc(), 8, &BRANCHES)
}

const TAKEN_BACK: [Row; 8] = [
    AT_FIRST,
    BEHIND_A_NOP,
    BEHIND_AN_ISB,
    IN_ANOTHER_CONTEXT,
    BEHIND_A_BRANCH,
    Row {
        event: Event::Cancel(0),
        answer: Ok(Done::Cancelled { p0: 0 }),
        ..BEHIND_A_BRANCH
    },
    Row {
        event: Event::Cancel(1),
        answer: Ok(Done::Cancelled { p0: 1 }),
        ..IN_ANOTHER_CONTEXT
    },
    Row {
        event: Event::Cancel(1),
        answer: Ok(Done::Cancelled { p0: 1 }),
        ..BEHIND_A_NOP
    },
];

#[test]
fn the_context_is_that_of_the_oldest_taken_back(rt: HostRuntime) -> Result<(), Fail> {
    follow_from_first(&rt, rt.alloc(), 4, &TAKEN_BACK)
}

/// The two oldest steps that are not retired.
fn oldest(run: &Run) -> [Option<RunStep>; 2] {
    [run.step_at(0), run.step_at(1)]
}

#[test]
fn steps_that_are_not_retired_are_told(rt: HostRuntime) -> Result<(), Fail> {
    let image = Image::of_text(rt.alloc(), CODE)?;
    let mut run = run_of(rt.alloc(), 4)?;
    follow(&rt, &mut run, &image, &[AT_FIRST, BEHIND_A_NOP]);
    assert_eq!(rt; oldest(&run), [Some(FIRST_STEP), None]);
    Ok(())
}

/// The branch at 1008 was taken, and is not retired.
const AT_THE_DEPTH: Row = Row {
    event: Event::Taken,
    answer: Ok(Done::Ran(RunStep {
        addr: 0x1008,
        kind: StepKind::Cond { taken: true },
        next: 0x1010,
        ..FIRST_STEP
    })),
    pc: Some(0x1010),
    ctx: Some(EL0),
    unretired: 1,
};

const ON_AT_THE_BRANCH: Row = Row {
    event: Event::On {
        addr: 0x1008,
        ctx: EL0,
    },
    pc: Some(0x1008),
    ..AT_FIRST
};

/// At depth 1.
const REFUSED: [Row; 14] = [
    Row {
        event: Event::To { addr: 2 },
        answer: Err(RunFault::NotOn),
        pc: None,
        ctx: None,
        unretired: 0,
    },
    ON_AT_THE_BRANCH,
    AT_THE_DEPTH,
    Row {
        event: Event::On { addr: 2, ctx: EL0 },
        answer: Err(RunFault::AlreadyOn),
        ..AT_THE_DEPTH
    },
    Row {
        event: Event::Step,
        answer: Err(RunFault::WrongKind(0x1010)),
        ..AT_THE_DEPTH
    },
    Row {
        event: Event::To { addr: 2 },
        answer: Err(RunFault::Unaligned(2)),
        ..AT_THE_DEPTH
    },
    Row {
        event: Event::To { addr: 0x1000 },
        answer: Err(RunFault::TooDeep { p0: 2, depth: 1 }),
        ..AT_THE_DEPTH
    },
    Row {
        event: Event::Retire(2),
        answer: Err(RunFault::RetireTooMany { asked: 2, held: 1 }),
        ..AT_THE_DEPTH
    },
    Row {
        event: Event::Cancel(2),
        answer: Err(RunFault::CancelTooMany { asked: 2, held: 1 }),
        ..AT_THE_DEPTH
    },
    Row {
        event: Event::Context { ctx: EL1 },
        answer: Err(RunFault::ContextPlace),
        ..AT_THE_DEPTH
    },
    Row {
        event: Event::Retire(1),
        answer: Ok(Done::Retired { p0: 1 }),
        unretired: 0,
        ..AT_THE_DEPTH
    },
    Row {
        event: Event::Flip,
        answer: Err(RunFault::NoBranchToFlip),
        unretired: 0,
        ..AT_THE_DEPTH
    },
    Row {
        event: Event::To { addr: 0x1018 },
        answer: Ok(Done::Ran(RunStep {
            addr: 0x1010,
            kind: StepKind::Ind { link: false },
            next: 0x1018,
            ..FIRST_STEP
        })),
        pc: Some(0x1018),
        ..AT_THE_DEPTH
    },
    Row {
        event: Event::Step,
        answer: Err(RunFault::Odd(0x1018)),
        pc: Some(0x1018),
        ..AT_THE_DEPTH
    },
];

#[test]
fn a_refused_event_changes_nothing(rt: HostRuntime) -> Result<(), Fail> {
    follow_from_first(&rt, rt.alloc(), 1, &REFUSED)
}

const NUMBERS: [(RunFault, u8); 7] = [
    (RunFault::AlreadyOn, 2),
    (RunFault::WrongKind(0x1010), 3),
    (RunFault::Unaligned(2), 6),
    (RunFault::TooDeep { p0: 2, depth: 1 }, 7),
    (RunFault::RetireTooMany { asked: 2, held: 1 }, 8),
    (RunFault::CancelTooMany { asked: 2, held: 1 }, 9),
    (RunFault::ContextPlace, 11),
];

#[test]
fn a_refusal_has_its_number(rt: HostRuntime) {
    for (fault, number) in NUMBERS {
        assert_eq!(rt; fault.number(), number);
    }
}

/// A run of a depth of 4096 over `LOOP`, of which so many steps are held.
fn looped(alloc: Global, image: &Image, steps: u32) -> Result<Run, Fail> {
    let mut run = run_of(alloc, 4096)?;
    run.apply(image, &AT_FIRST.event)?;
    for k in 0..steps {
        let event = if k % 16 == 15 {
            Event::Taken
        } else {
            Event::Step
        };
        run.apply(image, &event)?;
    }
    Ok(run)
}

/// Behind 65535 steps, at the branch.
const WINDOW_FULL: [Row; 4] = [
    Row {
        event: Event::Taken,
        answer: Err(RunFault::WindowFull),
        pc: Some(0x103c),
        ctx: Some(EL0),
        unretired: 65_535,
    },
    Row {
        event: Event::Retire(16),
        answer: Ok(Done::Retired { p0: 1 }),
        pc: Some(0x103c),
        ctx: Some(EL0),
        unretired: 65_519,
    },
    Row {
        event: Event::Taken,
        answer: Ok(Done::Ran(RunStep {
            addr: 0x103c,
            kind: StepKind::Jump,
            next: 0x1000,
            ..FIRST_STEP
        })),
        pc: Some(0x1000),
        ctx: Some(EL0),
        unretired: 65_520,
    },
    Row {
        event: Event::Cancel(65_520),
        answer: Ok(Done::Cancelled { p0: 4095 }),
        ..AT_FIRST
    },
];

#[test]
fn no_more_steps_are_held_than_the_window(rt: HostRuntime) -> Result<(), Fail> {
    let image = Image::of_text(rt.alloc(), LOOP)?;
    let mut run = looped(rt.alloc(), &image, 65_535)?;
    follow(&rt, &mut run, &image, &WINDOW_FULL);
    Ok(())
}

const AT_DEPTH_0: [Row; 7] = [
    ON_AT_THE_BRANCH,
    Row {
        event: Event::NotTaken,
        answer: Ok(Done::Ran(RunStep {
            addr: 0x1008,
            kind: StepKind::Cond { taken: false },
            next: 0x100c,
            ..FIRST_STEP
        })),
        pc: Some(0x100c),
        ..AT_FIRST
    },
    Row {
        event: Event::Taken,
        answer: Ok(Done::Ran(RunStep {
            addr: 0x100c,
            kind: StepKind::Jump,
            next: 0x1000,
            link: true,
            ..FIRST_STEP
        })),
        ..AT_FIRST
    },
    Row {
        unretired: 0,
        ..BEHIND_A_NOP
    },
    Row {
        unretired: 0,
        ..BEHIND_AN_ISB
    },
    Row {
        unretired: 0,
        ..IN_ANOTHER_CONTEXT
    },
    Row {
        event: Event::Cancel(1),
        answer: Err(RunFault::CancelTooMany { asked: 1, held: 0 }),
        unretired: 0,
        ..IN_ANOTHER_CONTEXT
    },
];

#[test]
fn at_depth_0_each_step_is_retired_at_once(rt: HostRuntime) -> Result<(), Fail> {
    follow_from_first(&rt, rt.alloc(), 0, &AT_DEPTH_0)
}

/// A depth, how many steps are held behind a branch, and whether another one may be taken.
struct Anew {
    depth: u32,
    unretired: u32,
    refused: Option<RunFault>,
}

const ONE_IS_DEEP: Anew = Anew {
    depth: 1,
    unretired: 1,
    refused: Some(RunFault::TooDeep { p0: 2, depth: 1 }),
};

const DEPTHS: [Anew; 4] = [
    ONE_IS_DEEP,
    Anew {
        depth: 2,
        unretired: 1,
        refused: None,
    },
    Anew {
        depth: 0,
        unretired: 0,
        refused: None,
    },
    ONE_IS_DEEP,
];

/// How many steps are held behind a branch of a run that begins anew at a depth, and why another one may not be taken.
fn begun_anew(
    run: &mut Run,
    image: &Image,
    depth: u32,
) -> Result<(u32, Option<RunFault>), RunFault> {
    if let Ok(settings) = Settings::new(depth, 4, 4) {
        run.restart(&settings);
    }
    run.apply(image, &ON_AT_THE_BRANCH.event)?;
    run.apply(image, &Event::NotTaken)?;
    Ok((run.unretired(), run.plan(image, &Event::Taken).err()))
}

#[test]
fn a_run_begins_anew_with_other_settings(rt: HostRuntime) -> Result<(), Fail> {
    let image = Image::of_text(rt.alloc(), CODE)?;
    let mut run = run_of(rt.alloc(), 4)?;
    for anew in &DEPTHS {
        assert_eq!(rt;
            begun_anew(&mut run, &image, anew.depth),
            Ok((anew.unretired, anew.refused))
        );
    }
    Ok(())
}
