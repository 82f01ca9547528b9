//! The queue of held elements: each method once, that it can succeed, and what it gives on lists of elements worked out by hand.
ghost use Rattle.std.specs.Prelude.{◌≡◌};

use element_queue::*;
use etm_types::{AtomRun, Ctx, Entry, P0, Pre, QueueFault};
use std::process::Abort;
use std::test::Fail;

const TAKEN: P0 = P0::Atom(true);

const NOT_TAKEN: P0 = P0::Atom(false);

const INTERRUPT: P0 = P0::Exc {
    kind: 14,
    ret: 0x2000,
};

const HANDLER: Ctx = Ctx {
    el: 1,
    ns: true,
    vmid: 5,
    cid: 7,
};

/// Before it nothing was given.
const NOTHING_GIVEN: Pre = Pre {
    flush: false,
    on: false,
    lost: false,
    ctx: None,
    addr: None,
};

/// Before it trace is missing: so a stream begins.
const TRACE_MISSING: Pre = Pre {
    lost: true,
    ..NOTHING_GIVEN
};

/// What is asked of a queue.
enum Call {
    Note(PreElem),
    Push(P0),
    CheckCommit(u32),
    CommitOne,
    Cancel(u32),
    Flip,
    Discard,
}

/// What is asked, and what is committed by it, or why it may not be asked.
struct Row {
    call: Call,
    answer: Result<Option<Committed>, QueueFault>,
}

fn answer(queue: &mut Queue, call: &Call) -> Result<Option<Committed>, QueueFault> {
    match call {
        Call::Note(elem) => queue.note(*elem),
        Call::Push(p0) => return Ok(queue.push(*p0)),
        Call::CheckCommit(n) => queue.check_commit(*n)?,
        Call::CommitOne => return Ok(queue.commit_one()),
        Call::Cancel(n) => queue.cancel(*n)?,
        Call::Flip => queue.flip()?,
        Call::Discard => queue.discard(),
    }
    Ok(None)
}

/// How many were made, committed, cancelled and lost.
fn numbers(counts: Counts) -> [u64; 4] {
    [counts.made, counts.committed, counts.cancelled, counts.lost]
}

/// Asks a queue what stands in a table.
fn ask(rt: &impl Abort, queue: &mut Queue, rows: &[Row]) {
    for (i, row) in rows.iter().enumerate() {
        assert_eq!(rt; answer(queue, &row.call), row.answer, "row {i}");
    }
}

const TWO_HELD: [Row; 7] = [
    Row {
        call: Call::Note(PreElem::Info),
        answer: Ok(None),
    },
    Row {
        call: Call::Note(PreElem::Addr(0x4000)),
        answer: Ok(None),
    },
    Row {
        call: Call::Note(PreElem::On),
        answer: Ok(None),
    },
    Row {
        call: Call::Note(PreElem::Ctx(HANDLER)),
        answer: Ok(None),
    },
    Row {
        call: Call::Note(PreElem::Addr(0x1000)),
        answer: Ok(None),
    },
    Row {
        call: Call::Push(TAKEN),
        answer: Ok(None),
    },
    Row {
        call: Call::Push(INTERRUPT),
        answer: Ok(Some(Committed::Unseen)),
    },
];

const OLDEST: [Row; 6] = [
    Row {
        call: Call::CheckCommit(2),
        answer: Ok(None),
    },
    Row {
        call: Call::CheckCommit(3),
        answer: Err(QueueFault::CommitOverrun { asked: 3, held: 2 }),
    },
    Row {
        call: Call::Push(NOT_TAKEN),
        answer: Ok(Some(Committed::Seen(Entry {
            pre: Pre {
                flush: true,
                on: true,
                lost: true,
                ctx: Some(HANDLER),
                addr: Some(0x1000),
            },
            p0: TAKEN,
        }))),
    },
    Row {
        call: Call::CommitOne,
        answer: Ok(Some(Committed::Seen(Entry {
            pre: NOTHING_GIVEN,
            p0: INTERRUPT,
        }))),
    },
    Row {
        call: Call::CommitOne,
        answer: Ok(Some(Committed::Seen(Entry {
            pre: NOTHING_GIVEN,
            p0: NOT_TAKEN,
        }))),
    },
    Row {
        call: Call::CommitOne,
        answer: Ok(None),
    },
];

#[test]
fn the_oldest_are_committed(rt: HostRuntime) -> Result<(), Fail> {
    let mut queue = Queue::new(rt.alloc(), 2)?;
    let deep = QueueFault::SpecTooDeep { spec: 3, depth: 2 };
    assert_eq!(rt; queue.start(3), Err(deep));
    assert_eq!(rt; queue.start(1), Ok(()));
    ask(&rt, &mut queue, &TWO_HELD);
    assert_eq!(rt; queue.held(), 2);
    ask(&rt, &mut queue, &OLDEST);
    assert_eq!(rt; numbers(queue.close().counts()), [3, 3, 0, 0]);
    Ok(())
}

const NEWEST: [Row; 17] = [
    Row {
        call: Call::Flip,
        answer: Err(QueueFault::NoAtomToFlip { held: 0 }),
    },
    Row {
        call: Call::Push(TAKEN),
        answer: Ok(None),
    },
    Row {
        call: Call::Note(PreElem::Addr(0x3000)),
        answer: Ok(None),
    },
    Row {
        call: Call::Push(NOT_TAKEN),
        answer: Ok(None),
    },
    Row {
        call: Call::Push(INTERRUPT),
        answer: Ok(None),
    },
    Row {
        call: Call::Note(PreElem::Addr(0x4000)),
        answer: Ok(None),
    },
    Row {
        call: Call::Flip,
        answer: Err(QueueFault::NoAtomToFlip { held: 3 }),
    },
    Row {
        call: Call::Cancel(4),
        answer: Err(QueueFault::CancelOverrun { asked: 4, held: 3 }),
    },
    Row {
        call: Call::Cancel(0),
        answer: Ok(None),
    },
    Row {
        call: Call::Cancel(2),
        answer: Ok(None),
    },
    Row {
        call: Call::Push(TAKEN),
        answer: Ok(None),
    },
    Row {
        call: Call::Note(PreElem::Addr(0x5000)),
        answer: Ok(None),
    },
    Row {
        call: Call::Flip,
        answer: Ok(None),
    },
    Row {
        call: Call::Push(TAKEN),
        answer: Ok(None),
    },
    Row {
        call: Call::CommitOne,
        answer: Ok(Some(Committed::Seen(Entry {
            pre: TRACE_MISSING,
            p0: TAKEN,
        }))),
    },
    Row {
        call: Call::CommitOne,
        answer: Ok(Some(Committed::Seen(Entry {
            pre: Pre {
                addr: Some(0x3000),
                ..NOTHING_GIVEN
            },
            p0: NOT_TAKEN,
        }))),
    },
    Row {
        call: Call::CommitOne,
        answer: Ok(Some(Committed::Seen(Entry {
            pre: NOTHING_GIVEN,
            p0: TAKEN,
        }))),
    },
];

#[test]
fn the_newest_are_taken_back(rt: HostRuntime) -> Result<(), Fail> {
    let mut queue = Queue::new(rt.alloc(), 16384)?;
    ask(&rt, &mut queue, &NEWEST);
    assert_eq!(rt; numbers(queue.close().counts()), [5, 3, 2, 0]);
    Ok(())
}

/// Two were held from before the trace that was found.
const LOST: [Row; 5] = [
    Row {
        call: Call::Note(PreElem::Addr(0x1000)),
        answer: Ok(None),
    },
    Row {
        call: Call::Flip,
        answer: Ok(None),
    },
    Row {
        call: Call::Cancel(1),
        answer: Ok(None),
    },
    Row {
        call: Call::Push(TAKEN),
        answer: Ok(None),
    },
    Row {
        call: Call::Discard,
        answer: Ok(None),
    },
];

const MISSING: [Row; 3] = [
    Row {
        call: Call::Push(NOT_TAKEN),
        answer: Ok(None),
    },
    Row {
        call: Call::CommitOne,
        answer: Ok(Some(Committed::Seen(Entry {
            pre: TRACE_MISSING,
            p0: NOT_TAKEN,
        }))),
    },
    Row {
        call: Call::Push(TAKEN),
        answer: Ok(None),
    },
];

#[test]
fn trace_is_missing_behind_what_was_not_seen(rt: HostRuntime) -> Result<(), Fail> {
    assert_eq!(rt; Pre::nothing_told(), NOTHING_GIVEN);
    assert_eq!(rt; Pre::trace_missing(), TRACE_MISSING);
    let mut queue = Queue::new(rt.alloc(), 2)?;
    assert_eq!(rt; queue.start(2), Ok(()));
    ask(&rt, &mut queue, &LOST);
    assert_eq!(rt; queue.held(), 0);
    ask(&rt, &mut queue, &MISSING);
    assert_eq!(rt; numbers(queue.ledger()), [3, 1, 0, 1]);
    assert_eq!(rt; numbers(queue.close().counts()), [3, 1, 0, 2]);
    Ok(())
}

/// The oldest that are held, where they are atoms; and whether one more may be held.
fn oldest(queue: &Queue) -> (Option<GivenAtoms>, bool) {
    (queue.oldest_given(), queue.has_room())
}

/// Atoms behind an address.
fn behind_address(atoms: AtomRun) -> Option<GivenAtoms> {
    Some(GivenAtoms {
        addr: Some(0x1000),
        atoms,
    })
}

const AN_ATOM_BEHIND_AN_INTERRUPT: [Row; 3] = [
    Row {
        call: Call::CommitOne,
        answer: Ok(Some(Committed::Seen(Entry {
            pre: TRACE_MISSING,
            p0: INTERRUPT,
        }))),
    },
    Row {
        call: Call::Note(PreElem::Addr(0x1000)),
        answer: Ok(None),
    },
    Row {
        call: Call::Push(TAKEN),
        answer: Ok(None),
    },
];

const PUSH_INTERRUPT: Row = Row {
    call: Call::Push(INTERRUPT),
    answer: Ok(None),
};

const PUSH_NOT_TAKEN: Row = Row {
    call: Call::Push(NOT_TAKEN),
    answer: Ok(None),
};

#[test]
fn the_atoms_that_are_committed_next_are_told(rt: HostRuntime) -> Result<(), Fail> {
    let mut queue = Queue::new(rt.alloc(), 2)?;
    ask(&rt, &mut queue, &[PUSH_INTERRUPT]);
    let interrupt = oldest(&queue);
    ask(&rt, &mut queue, &AN_ATOM_BEHIND_AN_INTERRUPT);
    let atom = oldest(&queue);
    ask(&rt, &mut queue, &[PUSH_NOT_TAKEN]);
    let full = oldest(&queue);
    let lost = queue.close().counts().lost;
    let one = behind_address(run(1, 0b1));
    let two = behind_address(run(2, 0b01));
    assert_eq!(rt;
        [interrupt, atom, full],
        [(None, true), (one, true), (two, false)]
    );
    assert_eq!(rt; lost, 2);
    Ok(())
}

/// So many atoms, bit i for atom i.
fn run(count: u8, bits: u32) -> AtomRun
    ensures { result.count ≡ count }
{
    AtomRun { count, bits }
}

#[test]
fn atoms_are_held_and_committed_as_runs(rt: HostRuntime) -> Result<(), Fail> {
    let mut queue = Queue::new(rt.alloc(), 4)?;
    let missing = queue.hold(&run(3, 0b011));
    ask(&rt, &mut queue, &[PUSH_NOT_TAKEN]);
    let behind = (
        queue.hold(&run(3, 0b011)),
        queue.room(),
        queue.oldest_plain().count,
    );
    let other = (queue.rotate(&run(1, 0b1)), queue.commit_plain(1));
    let first = queue.commit_one();
    let oldest = (queue.room(), queue.oldest_plain());
    let more = (queue.hold(&run(2, 0b00)), queue.hold(&run(1, 0b0)));
    let turned = (queue.rotate(&run(2, 0b10)), queue.oldest_plain());
    let gone = (
        queue.commit_plain(3),
        queue.oldest_plain(),
        queue.commit_plain(2),
    );
    let counts = (numbers(queue.ledger()), numbers(queue.close().counts()));
    assert_eq!(rt;
        (missing, behind, other),
        (false, (true, 0, 0), (false, false))
    );
    assert_eq!(rt;
        first,
        Some(Committed::Seen(Entry {
            pre: TRACE_MISSING,
            p0: NOT_TAKEN
        }))
    );
    assert_eq!(rt; (oldest, more), ((1, run(3, 0b011)), (false, true)));
    assert_eq!(rt;
        (turned, gone),
        ((true, run(4, 0b1000)), (true, run(1, 0b1), false))
    );
    assert_eq!(rt; counts, ([7, 6, 0, 0], [7, 6, 0, 1]));
    Ok(())
}

#[test]
fn one_is_counted_as_it_ends(rt: HostRuntime) {
    let entry = Entry {
        pre: Pre {
            addr: Some(0x1000),
            ..NOTHING_GIVEN
        },
        p0: TAKEN,
    };
    let mut ledger = Ledger::new();
    let mut flipped = Uncommitted::new(entry, &mut ledger);
    flipped.flip();
    let flipped = (flipped.entry().p0, flipped.commit(&mut ledger).p0);
    let cancelled = Uncommitted::new(entry, &mut ledger).cancel(&mut ledger);
    let mut all = Ledger::new();
    Uncommitted::new(entry, &mut all).lose(&mut all);
    all.absorb(ledger);
    assert_eq!(rt; (flipped, cancelled), ((NOT_TAKEN, NOT_TAKEN), entry.pre));
    assert_eq!(rt; numbers(all.counts()), [3, 1, 1, 1]);
}
