//! The text of an image that a file spells.
ghost use Rattle.std.specs.Prelude.{◌≡◌, ◌∷◌, ◌++◌, [], IfOk, OnOk, Ok, Err, None};
ghost use Rattle.program_image.specs.Spelling.{address_line};
ghost use Rattle.elf_image.specs.ElfText.{elf_text, segment_text, segments_text, word_line};
ghost use Rattle.elf_image.specs.Fields.{program_headers};
ghost use Rattle.elf_image.specs.Refusals.{segments_refusal};
ghost use Rattle.elf_image.specs.Segments.{segments_of};
ghost use Rattle.elf_image.specs.Table.{IsTable};
ghost use Rattle.elf_image.specs.Words.{IsTextOf};

use crate::fault::{ElfFault, ElfWhy};
use crate::header::{HeaderTable, header_table};
use crate::segment::check_segments;
use byteorder::{BigEndian, ByteOrder};
use std::alloc::{AllocError, Global};

const LINE_END: u8 = b'\n';

/// The digits of a word, and of an address, which stands behind `@`.
const WORD_DIGITS: usize = 8;

const ADDRESS_DIGITS: usize = 16;

/// Adds the line of a word: two digits a byte, as the bytes stand in the file.
fn push_word(text: &mut Vec<u8>, word: &[u8; 4]) -> Result<(), AllocError>
    ensures { OnOk result (text.new.items ≡ text.old.items ++ word_line word.now) }
{
    let mut line = [LINE_END; WORD_DIGITS + 1];
    hex::encode_to_slice(word.as_slice(), &mut line[..WORD_DIGITS]).unwrap();
    text.extend_from_slice(&line)
}

/// Adds the line of an address: sixteen digits.
fn push_address(text: &mut Vec<u8>, address: u64) -> Result<(), AllocError>
    ensures { OnOk result (text.new.items ≡ text.old.items ++ (address_line (record { start = address; bytes = [] }) ++ 10 ∷ [])) }
{
    let mut bytes = [0; 8];
    BigEndian::write_u64(&mut bytes, address);
    let mut line = [LINE_END; ADDRESS_DIGITS + 2];
    line[0] = b'@';
    hex::encode_to_slice(bytes.as_slice(), &mut line[1..=ADDRESS_DIGITS]).unwrap();
    text.extend_from_slice(&line)
}

/// Adds the lines of a segment: that of its address, and one for each word.
fn push_segment(text: &mut Vec<u8>, address: u64, bytes: &[u8]) -> Result<(), AllocError>
    ensures { OnOk result (text.new.items ≡ text.old.items ++ segment_text (record { start = address; bytes = bytes.now })) }
{
    push_address(text, address)?;
    let mut rest = bytes;
    while let Some((word, behind)) = rest.split_first_chunk::<4>() {
        push_word(text, word)?;
        rest = behind;
    }
    Ok(())
}

/// The text of the segments of a file, none of which is refused.
fn text_of_segments(alloc: Global, file: &[u8], table: &HeaderTable) -> Result<Vec<u8>, AllocError>
    requires table { IsTable file.now table.now }
    requires none { segments_refusal file.now ≡ None }
    ensures { IfOk result (λ text. text.items ≡ segments_text (segments_of file.now (program_headers file.now))) }
{
    let mut text = Vec::new(alloc);
    for k in 0..table.count {
        let header = table.header(file, k);
        if header.is_chosen() {
            let start = header.offset as usize;
            let end = start + header.size() as usize;
            push_segment(&mut text, header.vaddr, &file[start..end])?;
        }
    }
    Ok(text)
}

/// The text of the image that a program spells: for each chosen segment a line of its address, `@` and 16 hex digits, and a line of 8 for
/// each instruction word, its bytes as they stand in the file.
///
/// `Bad` has the first reason for which the file is refused. A text that is given is read without a fault.
#[tactic(auto, unfolding(crate::specs::ElfText::elf_text))]
pub fn text_of(alloc: Global, file: &[u8]) -> Result<Vec<u8>, ElfFault>
    ensures ok { IfOk result (λ text. elf_text file.now ≡ Ok text.items) }
    ensures bad { (why : ElfWhy) → result ≡ Err (ElfFault.Bad why) → elf_text file.now ≡ Err why }
    ensures image { IfOk result (λ text. IsTextOf file.now text.items) }
{
    let table = match header_table(file) {
        Ok(table) => table,
        Err(why) => return Err(ElfFault::Bad(why)),
    };
    check_segments(alloc, file, &table)?;
    text_of_segments(alloc, file, &table).map_err(|_| ElfFault::Memory)
}
