//! Small programs, and what is read of them.
use crate::images::has_words;
use elf_image::{
    ElfImageFault, ElfWhy, a_refusal_is_the_first, read_elf, text_of, the_text_is_an_image,
};
use std::alloc::Global;
use std::test::Fail;
use trace_io::{MemSource, SafeSource};

/// Bytes at an offset of a file.
type Field = (usize, &'static [u8]);

/// A file of one segment: four instructions at address 1000. All other bytes are 0.
const FIELDS: [Field; 11] = [
    (0, b"\x7fELF\x02\x01"),
    (18, b"\xb7"),
    (32, b"\x40"),
    (54, b"\x38"),
    (56, b"\x01"),
    (64, b"\x01"),
    (68, b"\x05"),
    (72, b"\x78"),
    (80, b"\x00\x10"),
    (96, b"\x10"),
    (
        120,
        b"\x1f\x20\x03\xd5\x40\x00\x00\x54\x1f\x20\x03\xd5\xfd\xff\xff\x17",
    ),
];

fn put(file: &mut [u8], fields: &[Field]) -> Result<(), Fail> {
    for (at, bytes) in fields {
        let end = at.saturating_add(bytes.len());
        file.get_mut(*at..end)
            .ok_or("outside the file")?
            .copy_from_slice(bytes);
    }
    Ok(())
}

/// The file with some bytes changed.
fn program(alloc: Global, edits: &[Field]) -> Result<Vec<u8>, Fail> {
    let mut file = vec![in alloc; 0u8; 136]?;
    put(&mut file, &FIELDS)?;
    put(&mut file, edits)?;
    Ok(file)
}

/// The line of a refusal, and none where there is a text.
fn refusal(alloc: Global, file: &[u8]) -> Result<String, Fail> {
    match text_of(alloc, file) {
        Ok(_) => Ok(String::new(alloc)),
        Err(fault) => Ok(format!(in alloc; "{fault}")?),
    }
}

#[test]
fn a_segment_is_a_part_of_the_text(rt: HostRuntime) -> Result<(), Fail> {
    let text = text_of(rt.alloc(), &program(rt.alloc(), &[])?)?;
    let expected = b"@0000000000001000\n1f2003d5\n40000054\n1f2003d5\nfdffff17\n";
    assert_eq!(rt; text.as_slice(), expected.as_slice());
    Ok(())
}

const REFUSALS: [(Field, &str); 7] = [
    ((4, b"\x01"), "elf: header"),
    ((56, b"\x02"), "elf: table"),
    ((96, b"\x11"), "elf: segment 0"),
    ((80, b"\x02"), "elf: unaligned 0"),
    ((80, b"\xf4\xff\xff\xff\xff\xff\xff\xff"), "elf: wraps 0"),
    ((80, b"\xf0\xff\xff\xff\xff\xff\xff\xff"), ""),
    ((68, b"\x04"), ""),
];

#[test]
fn each_refusal_has_its_line(rt: HostRuntime) -> Result<(), Fail> {
    for (edit, line) in REFUSALS {
        let file = program(rt.alloc(), &[edit])?;
        assert_eq!(rt; refusal(rt.alloc(), &file)?.as_str(), line);
    }
    Ok(())
}

#[test]
fn a_reason_has_its_number_its_word_and_its_header(rt: HostRuntime) {
    let why = ElfWhy::Overlap(3);
    assert_eq!(rt;
        (why.number(), why.word(), why.header()),
        (7, "overlap", Some(3))
    );
    the_text_is_an_image();
    a_refusal_is_the_first();
}

const WORDS: [(u64, Option<u32>); 6] = [
    (0x0ffc, None),
    (0x1000, Some(0xd503_201f)),
    (0x1004, Some(0x5400_0040)),
    (0x1008, Some(0xd503_201f)),
    (0x100c, Some(0x17ff_fffd)),
    (0x1010, None),
];

#[test]
fn a_program_is_read_from_a_source(rt: HostRuntime) -> Result<(), Fail> {
    let mut source = SafeSource::new(program(rt.alloc(), &[])?, 7);
    has_words(&rt, &read_elf(rt.alloc(), &mut source)?, &WORDS);
    Ok(())
}

#[test]
fn a_failed_read_is_no_program(rt: HostRuntime) -> Result<(), Fail> {
    let script = vec![in rt.alloc(); false, true]?;
    let mut source = MemSource::new(program(rt.alloc(), &[])?, 7, script);
    let fault = read_elf(rt.alloc(), &mut source).err();
    assert_eq!(rt; fault, Some(ElfImageFault::ReadFault));
    Ok(())
}

#[test]
fn a_file_of_another_machine_is_no_program(rt: HostRuntime) -> Result<(), Fail> {
    let mut source = SafeSource::new(program(rt.alloc(), &[(18, b"\x3e")])?, 7);
    let fault = read_elf(rt.alloc(), &mut source).err();
    assert_eq!(rt; fault, Some(ElfImageFault::Bad(ElfWhy::Header)));
    Ok(())
}
