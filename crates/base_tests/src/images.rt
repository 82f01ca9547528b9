//! Texts of images and what is read of them.
use a64_branches::Class;
use program_image::{Block, BlockEnd, Image, ImageFault, ImageWhy};
use std::alloc::Global;
use std::process::Abort;
use std::test::Fail;
use trace_io::{MemSource, SafeSource};

const NOP: u32 = 0xd503_201f;

/// An image has these words at these addresses.
pub fn has_words(rt: &impl Abort, image: &Image, words: &[(u64, Option<u32>)]) {
    for (addr, word) in words {
        assert_eq!(rt; image.word_at(*addr), *word);
    }
}

const WORDS: [(u64, Option<u32>); 9] = [
    (0, None),
    (0x0ffc, None),
    (0x1000, Some(NOP)),
    (0x1002, None),
    (0x1004, Some(0x5400_0040)),
    (0x1008, None),
    (0x2000, Some(NOP)),
    (0x2004, Some(0x17ff_fffd)),
    (0x2008, None),
];

#[test]
fn each_word_stands_at_its_address(rt: HostRuntime) -> Result<(), Fail> {
    let text = b"@2000\n1f2003d5\n@1000\n1f2003d5 40000054\n@2004\nfdffff17\n@0\n".to_vec(
        rt.alloc(),
    )?;
    let image = Image::read(rt.alloc(), &mut SafeSource::new(text, 7))?;
    has_words(&rt, &image, &WORDS);
    Ok(())
}

/// A text in which a NOP stands at an address.
struct Form {
    text: &'static [u8],
    addr: u64,
}

const FORMS: [Form; 6] = [
    Form {
        text: b"@fffffffffffffffc\n1f2003d5\n",
        addr: 0xffff_ffff_ffff_fffc,
    },
    Form {
        text: b"@1000\n1f20 03 d5\n",
        addr: 0x1000,
    },
    Form {
        text: b"@000000000000aBcC\r\n\r\n1F2003D5\r\n",
        addr: 0xabcc,
    },
    Form {
        text: b"\t# the first part\n \t\n  @1000\t\n\t1f2003d5  ",
        addr: 0x1000,
    },
    Form {
        text: b"@1000\n@2000\n1f20\t03d5",
        addr: 0x2000,
    },
    Form {
        text: b"@1004\n@1000\n1f2003d5\n# 1f2003d5",
        addr: 0x1000,
    },
];

/// The word at an address of an image in memory.
fn word_of(alloc: Global, text: &[u8], addr: u64) -> Result<Option<u32>, ImageFault> {
    Ok(Image::of_text(alloc, text)?.word_at(addr))
}

#[test]
fn each_form_of_line_is_read(rt: HostRuntime) {
    for form in &FORMS {
        assert_eq!(rt; word_of(rt.alloc(), form.text, form.addr), Ok(Some(NOP)));
    }
    assert_eq!(rt; word_of(rt.alloc(), b"# nothing\n", 0), Ok(None));
}

/// A text with a fault: its line and its reason.
struct Bad {
    text: &'static [u8],
    line: u64,
    why: ImageWhy,
}

const BAD_TEXTS: [Bad; 14] = [
    Bad {
        text: b"@1000\n1f2003d5\n@1002\n",
        line: 3,
        why: ImageWhy::Unaligned,
    },
    Bad {
        text: b"@1000\n1f2003d5 1f2003d5\n@1004\n1f2003d5\n",
        line: 4,
        why: ImageWhy::Overlap,
    },
    Bad {
        text: b"@fffffffffffffffc\n1f2003d5 1f2003d5\n",
        line: 2,
        why: ImageWhy::Wraps,
    },
    Bad {
        text: b"@1000 1f2003d5\n",
        line: 1,
        why: ImageWhy::Syntax,
    },
    Bad {
        text: b"1f2003d5\n",
        line: 1,
        why: ImageWhy::Syntax,
    },
    Bad {
        text: b"@1000\n1f2 0 03d5\n",
        line: 2,
        why: ImageWhy::Syntax,
    },
    Bad {
        text: b"@1000\n1f20\n",
        line: 2,
        why: ImageWhy::Unaligned,
    },
    Bad {
        text: b"@00000000000001000\n",
        line: 1,
        why: ImageWhy::Syntax,
    },
    Bad {
        text: b"@\n",
        line: 1,
        why: ImageWhy::Syntax,
    },
    Bad {
        text: b"@fffffffffffffffc\n1f2003d5\n@fffffffffffffff8\n1f2003d5 1f2003d5 1f2003d5\n",
        line: 4,
        why: ImageWhy::Wraps,
    },
    Bad {
        text: b"@fffffffffffffffc\n1f2003d5\n1f2003d5\n",
        line: 3,
        why: ImageWhy::Wraps,
    },
    Bad {
        text: b"# \xc0\x80\n@0\n",
        line: 1,
        why: ImageWhy::Syntax,
    },
    Bad {
        text: b"@1000\n1f2003d5\n@ffc\n1f2003d5\n1f2003d5\n",
        line: 5,
        why: ImageWhy::Overlap,
    },
    Bad {
        text: b"@1000\n1f2003d5\r",
        line: 2,
        why: ImageWhy::Syntax,
    },
];

#[test]
fn a_fault_tells_its_line(rt: HostRuntime) {
    for bad in &BAD_TEXTS {
        let fault = ImageFault::Bad {
            line: bad.line,
            why: bad.why,
        };
        assert_eq!(rt; word_of(rt.alloc(), bad.text, 0), Err(fault));
    }
}

#[test]
fn a_fault_has_its_text(rt: HostRuntime) -> Result<(), Fail> {
    let fault = ImageFault::Bad {
        line: 3,
        why: ImageWhy::Unaligned,
    };
    let text = format!(in rt.alloc(); "{fault}")?;
    assert_eq!(rt; text.as_str(), "image line 3: unaligned");
    Ok(())
}

#[test]
fn a_failed_read_is_no_text(rt: HostRuntime) -> Result<(), Fail> {
    let bytes = b"@1000\n1f2003d5\n".to_vec(rt.alloc())?;
    let mut source = MemSource::new(bytes, 7, vec![in rt.alloc(); false, true]?);
    let fault = Image::read(rt.alloc(), &mut source).err();
    assert_eq!(rt; fault, Some(ImageFault::ReadFault));
    Ok(())
}

/// A part with two branches, of which the second is none that is read; parts that touch; and parts that touch over the last address.
const CODE: &[u8] =
    b"@1000\n1f2003d5 40000054 1f2003d5 10000054\n@3004\n1f2003d5 c0035fd6\n@3000\n1f2003d5\n\
@0\n1f2003d5 c0035fd6\n@fffffffffffffffc\n1f2003d5\n";

const BRANCH: BlockEnd = BlockEnd::P0 {
    addr: 0x1004,
    class: Class::Cond { off: 8 },
};

/// How many plain words stand from a pc on, and what is behind them.
struct Ending {
    pc: u64,
    plain: u64,
    end: BlockEnd,
}

const ENDINGS: [Ending; 6] = [
    Ending {
        pc: 0x1000,
        plain: 1,
        end: BRANCH,
    },
    Ending {
        pc: 0x1004,
        plain: 0,
        end: BRANCH,
    },
    Ending {
        pc: 0x1008,
        plain: 1,
        end: BlockEnd::Odd(0x100c),
    },
    Ending {
        pc: 0x1010,
        plain: 0,
        end: BlockEnd::NoCode(0x1010),
    },
    Ending {
        pc: 0x3000,
        plain: 2,
        end: BlockEnd::P0 {
            addr: 0x3008,
            class: Class::Ind { link: false },
        },
    },
    Ending {
        pc: 0xffff_ffff_ffff_fffc,
        plain: 2,
        end: BlockEnd::P0 {
            addr: 4,
            class: Class::Ind { link: false },
        },
    },
];

#[test]
fn a_block_ends_where_a_trace_tells(rt: HostRuntime) -> Result<(), Fail> {
    let image = Image::of_text(rt.alloc(), CODE)?;
    for ending in &ENDINGS {
        let block = Block {
            plain: ending.plain,
            end: ending.end,
        };
        assert_eq!(rt; image.block(ending.pc), block);
    }
    Ok(())
}

#[test]
fn a_fault_has_its_number_and_its_word(rt: HostRuntime) {
    let why = ImageWhy::TooLong;
    let numbers = [
        why.number(),
        ImageFault::Bad { line: 0, why }.number(),
        ImageFault::Memory.number(),
    ];
    assert_eq!(rt; (why.text(), numbers), ("too-long", [6, 6, 8]));
}
