//! Run files and what is read of them.
use etm_types::{Ctx, Settings};
use run_file::{Bench, BenchFault, BenchLine, BenchWhy};
use spec_run::{Event, RunFault};
use std::alloc::Global;
use std::test::Fail;

/// A run file with a comment, tabs, a CR before LF, two streams and two weaves.
const RUN_FILE: &[u8] =
    b"# a core\netm 1\n\ndepth 2\r\nvmid 0\nstream 6f\non 1000 el1 ns 0 2A\nstep 3\nstream 01\n\tweave 6f:1048576  01:2\n";

const ON: BenchLine = BenchLine {
    line: 7,
    event: Event::On {
        addr: 0x1000,
        ctx: Ctx {
            el: 1,
            ns: true,
            vmid: 0,
            cid: 0x2a,
        },
    },
    times: 1,
};

const STEPS: BenchLine = BenchLine {
    line: 8,
    event: Event::Step,
    times: 3,
};

/// The ID of the `s`-th stream.
fn id_of(bench: &Bench, s: usize) -> Option<u8> {
    Some(bench.id_at(s)?.get())
}

/// How many streams there are, their IDs, and that of one more.
fn streams(bench: &Bench) -> (usize, [Option<u8>; 3]) {
    let ids = [id_of(bench, 0), id_of(bench, 1), id_of(bench, 2)];
    (bench.streams(), ids)
}

/// The lines of the first stream and one more, and that of a stream without lines.
fn lines(bench: &Bench) -> [Option<BenchLine>; 4] {
    [
        bench.line_at(0, 0),
        bench.line_at(0, 1),
        bench.line_at(0, 2),
        bench.line_at(1, 0),
    ]
}

/// The ID and the count of the `k`-th weave.
fn weave_of(bench: &Bench, k: usize) -> Option<(u8, u32)> {
    let weave = bench.weave_at(k)?;
    Some((weave.id.get(), weave.count))
}

#[test]
fn a_run_file_has_its_streams(rt: HostRuntime) -> Result<(), Fail> {
    let bench = Bench::read(rt.alloc(), RUN_FILE)?;
    assert_eq!(rt; streams(&bench), (2, [Some(0x6f), Some(1), None]));
    assert_eq!(rt; lines(&bench), [Some(ON), Some(STEPS), None, None]);
    Ok(())
}

#[test]
fn a_run_file_has_its_weaves(rt: HostRuntime) -> Result<(), Fail> {
    let bench = Bench::read(rt.alloc(), RUN_FILE)?;
    let weaves = [
        weave_of(&bench, 0),
        weave_of(&bench, 1),
        weave_of(&bench, 2),
    ];
    assert_eq!(rt; weaves, [Some((0x6f, 1_048_576)), Some((1, 2)), None]);
    Ok(())
}

/// Three streams: one with some settings of its own, one with none, and one with others.
const OWN_SETTINGS: &[u8] =
    b"etm 2\nstack 3\ndepth 4\nstream 01 cid 0 depth 16384\nstream 02\nstream 03 stack 0 vmid 4\n";

/// What a stream is traced with.
struct Traced {
    depth: u32,
    vmid_bytes: u8,
    cid_bytes: u8,
    stack: usize,
}

const TRACED: [Traced; 3] = [
    Traced {
        depth: 16_384,
        vmid_bytes: 1,
        cid_bytes: 0,
        stack: 3,
    },
    Traced {
        depth: 4,
        vmid_bytes: 1,
        cid_bytes: 4,
        stack: 3,
    },
    Traced {
        depth: 4,
        vmid_bytes: 4,
        cid_bytes: 4,
        stack: 0,
    },
];

/// The settings and the return stack of the `s`-th stream.
fn settings_of(bench: &Bench, s: usize) -> Option<(Settings, usize)> {
    Some((bench.settings_of(s)?, bench.stack_of(s)?))
}

#[test]
fn a_stream_has_settings_of_its_own(rt: HostRuntime) -> Result<(), Fail> {
    let bench = Bench::read(rt.alloc(), OWN_SETTINGS)?;
    for (s, traced) in TRACED.iter().enumerate() {
        let settings = Settings::new(traced.depth, traced.vmid_bytes, traced.cid_bytes)?;
        assert_eq!(rt; settings_of(&bench, s), Some((settings, traced.stack)));
    }
    assert_eq!(rt; settings_of(&bench, 3), None);
    Ok(())
}

/// One stream, with each kind of line of an event.
const EVENT_LINES: &[u8] =
    b"etm 1\nstream 01\ntaken\nnot\nto 10\nretire 65535\ncancel 1\nflip\nsync\noverflow\noff\nstep\ncontext el0 s 0 1\n\
        eret 20 el0 s 0 1\nexc 31 fffffffffffffffc el0 s 0 1\n";

const CTX: Ctx = Ctx {
    el: 0,
    ns: false,
    vmid: 0,
    cid: 1,
};

const EVENTS: [Event; 13] = [
    Event::Taken,
    Event::NotTaken,
    Event::To { addr: 0x10 },
    Event::Retire(65_535),
    Event::Cancel(1),
    Event::Flip,
    Event::Sync,
    Event::Overflow,
    Event::Off,
    Event::Step,
    Event::Context { ctx: CTX },
    Event::Eret {
        addr: 0x20,
        ctx: CTX,
    },
    Event::Exc {
        kind: 31,
        addr: 0xffff_ffff_ffff_fffc,
        ctx: CTX,
    },
];

/// The event of a line of the first stream.
fn event_at(bench: &Bench, k: usize) -> Option<Event> {
    Some(bench.line_at(0, k)?.event)
}

#[test]
fn each_event_line_is_read(rt: HostRuntime) -> Result<(), Fail> {
    let bench = Bench::read(rt.alloc(), EVENT_LINES)?;
    for (k, event) in EVENTS.iter().enumerate() {
        assert_eq!(rt; event_at(&bench, k), Some(*event));
    }
    Ok(())
}

/// A text with a fault: its line and its reason.
struct Bad {
    text: &'static [u8],
    line: u64,
    why: BenchWhy,
}

const BAD_TEXTS: [Bad; 20] = [
    Bad {
        text: b"",
        line: 0,
        why: BenchWhy::Header,
    },
    Bad {
        text: b"# etm 1\n",
        line: 0,
        why: BenchWhy::Header,
    },
    Bad {
        text: b"\netm 3\n",
        line: 2,
        why: BenchWhy::Header,
    },
    Bad {
        text: b"\xc0\x80\netm 1\n",
        line: 1,
        why: BenchWhy::Syntax,
    },
    Bad {
        text: b"etm 1\n# \xc0\x80\n",
        line: 2,
        why: BenchWhy::Syntax,
    },
    Bad {
        text: b"etm 1\nstream 70\n",
        line: 2,
        why: BenchWhy::IdRange,
    },
    Bad {
        text: b"etm 1\nstream 01\nstream 01\n",
        line: 3,
        why: BenchWhy::DuplicateId,
    },
    Bad {
        text: b"etm 1\nstream 01\nstep\ndepth 5\n",
        line: 4,
        why: BenchWhy::Syntax,
    },
    Bad {
        text: b"etm 1\nstep\n",
        line: 2,
        why: BenchWhy::Syntax,
    },
    Bad {
        text: b"etm 1\nstack 1\nstack 16\n",
        line: 3,
        why: BenchWhy::Syntax,
    },
    Bad {
        text: b"etm 1\ncid 2",
        line: 2,
        why: BenchWhy::Range,
    },
    Bad {
        text: b"etm 1\nstream 01\nweave 01:0 02:1\n",
        line: 3,
        why: BenchWhy::IdRange,
    },
    Bad {
        text: b"etm 1\nstream 01\nweave 01:1048577\n",
        line: 3,
        why: BenchWhy::Range,
    },
    Bad {
        text: b"etm 1\nstream 01\non 1000 el0 s 100 0\n",
        line: 3,
        why: BenchWhy::Range,
    },
    Bad {
        text: b"etm 1\ndepth 4097\n",
        line: 2,
        why: BenchWhy::Range,
    },
    Bad {
        text: b"etm 1\nstream 01 depth 1\n",
        line: 2,
        why: BenchWhy::Syntax,
    },
    Bad {
        text: b"etm 2\nstream 01 depth 16385\n",
        line: 2,
        why: BenchWhy::Range,
    },
    Bad {
        text: b"etm 2\nstream 01 depth 20000 foo 1\n",
        line: 2,
        why: BenchWhy::Syntax,
    },
    Bad {
        text: b"etm 2\nstream 01\nstream 01 stack 16\n",
        line: 3,
        why: BenchWhy::DuplicateId,
    },
    Bad {
        text: b"etm 2\nvmid 4\nstream 01\nstream 02 vmid 0\nsync\ncontext el0 s 1 0\n",
        line: 6,
        why: BenchWhy::Range,
    },
];

fn fault_of(alloc: Global, text: &[u8]) -> Option<BenchFault> {
    Bench::read(alloc, text).err()
}

#[test]
fn a_fault_tells_its_line(rt: HostRuntime) {
    for bad in &BAD_TEXTS {
        let fault = BenchFault::Bad {
            line: bad.line,
            why: bad.why,
        };
        assert_eq!(rt; fault_of(rt.alloc(), bad.text), Some(fault));
    }
}

/// Texts with an event that a run refuses.
const UNTRIED: [&[u8]; 5] = [
    b"etm 1\nstream 01\nstep\n",
    b"etm 1\nstream 01\non 1000 el0 s 0 0\ntaken\n",
    b"etm 1\nstream 01\non 1000 el0 s 0 0\ncontext el0 s 0 1\n",
    b"etm 1\nstream 01\non 1000 el0 s 0 0\nflip\n",
    b"etm 1\nstream 01\non 1000 el0 s 0 0\nretire 1\n",
];

#[test]
fn no_event_is_tried_as_a_text_is_read(rt: HostRuntime) {
    for text in UNTRIED {
        assert_eq!(rt; fault_of(rt.alloc(), text), None);
    }
}

const NUMBERS: [(BenchWhy, u8); 7] = [
    (BenchWhy::Header, 1),
    (BenchWhy::Syntax, 2),
    (BenchWhy::IdRange, 3),
    (BenchWhy::DuplicateId, 4),
    (BenchWhy::Range, 5),
    (BenchWhy::TooLong, 6),
    (BenchWhy::Run(RunFault::NotOn), 7),
];

#[test]
fn a_reason_has_its_number(rt: HostRuntime) {
    for (why, number) in NUMBERS {
        assert_eq!(rt; why.number(), number);
    }
}

#[test]
fn a_fault_has_its_text(rt: HostRuntime) -> Result<(), Fail> {
    let fault = BenchFault::Bad {
        line: 3,
        why: BenchWhy::Run(RunFault::NotOn),
    };
    let text = format!(in rt.alloc(); "{fault}")?;
    assert_eq!(rt; text.as_str(), "bench line 3: tracing is off");
    Ok(())
}
