//! The lines of counts over an image with the words 0, 4, 1000, 1004, 1008, 3000, a BLR, and fffffffffffffffc.
use etm_types::{Ctx, ExcMark, Walked};
use path_counts::{Counter, Targets, is_pointer_branch};
use program_image::Image;
use std::alloc::{AllocError, Global};
use std::test::Fail;
use trace_io::MemSink;

const TEXT: &[u8] =
    b"@0\n1f2003d5 c0035fd6\n@1000\n1f2003d5 1f2003d5\n@1008\n40000054\n@3000\n00023fd6\n@fffffffffffffffc\n1f2003d5\n";

const LINES: &[u8] =
    b"at 0 2\nat 4 3\nat 1000 2\nat 1004 2\nat 1008 2\ntaken 1008 1\nat 3000 3\nto 3000 1000 2\nto 3000 fffffffffffffffc 1\n\
at fffffffffffffffc 2\non 1\n? 1\ngap 1\nstop 1\nexc irq 2\n";

/// Three instructions from 1000 on.
const BLOCK: Walked = Walked {
    on: false,
    unknown: false,
    ctx: Ctx {
        el: 0,
        ns: false,
        vmid: 0,
        cid: 0,
    },
    start: 0x1000,
    count: 3,
    took: false,
    exc: None,
};

/// Three instructions over the end of the addresses.
const ROUND: Walked = Walked {
    start: 0xffff_ffff_ffff_fffc,
    ..BLOCK
};

const CALL: Walked = Walked {
    start: 0x3000,
    count: 1,
    ..BLOCK
};

const INTERRUPT: Option<ExcMark> = Some(ExcMark { kind: 14, ret: 8 });

const WALKED: [Walked; 9] = [
    Walked {
        on: true,
        took: true,
        ..BLOCK
    },
    BLOCK,
    ROUND,
    ROUND,
    Walked {
        start: 4,
        count: 1,
        exc: INTERRUPT,
        ..BLOCK
    },
    Walked {
        unknown: true,
        start: 0,
        count: 0,
        exc: INTERRUPT,
        ..BLOCK
    },
    CALL,
    CALL,
    CALL,
];

/// Where the calls went, and a branch that no word of the image is.
const BRANCHES: [(u64, u64); 4] = [
    (0x3000, 0xffff_ffff_ffff_fffc),
    (0x3000, 0x1000),
    (0x2000, 0x1000),
    (0x3000, 0x1000),
];

fn targets(alloc: Global) -> Result<Targets, AllocError> {
    let mut targets = Targets::new(alloc)?;
    for (from, to) in BRANCHES {
        targets.add(from, to);
    }
    Ok(targets)
}

#[test]
fn words_and_other_items_are_counted(rt: HostRuntime) -> Result<(), Fail> {
    let image = Image::of_text(rt.alloc(), TEXT)?;
    let mut counter = Counter::new(rt.alloc(), &image)?;
    for walked in &WALKED {
        assert!(rt; counter.fits(&image));
        counter.add_walked(&image, walked);
    }
    counter.add_gap();
    counter.add_stop();
    let mut sink = MemSink::new(rt.alloc(), Vec::new(rt.alloc()));
    assert!(rt; counter.fits(&image));
    counter.write(&image, &targets(rt.alloc())?, &mut sink)?;
    assert_eq!(rt; sink.written(), LINES);
    Ok(())
}

#[test]
fn a_branch_to_a_register_goes_where_a_pointer_says(rt: HostRuntime) {
    assert!(rt; is_pointer_branch(0xd63f_0200));
}
