//! The line of an ELF file that can't be used.
ghost use Rattle.path_text.specs.Writing.{Writes};
ghost use Rattle.answer_lines.specs.ElfLine.{elf_line};

use elf_image::ElfWhy;
use path_text::Line;
use trace_io::{Failed, Sink};

/// Writes the line of an ELF file that can't be used.
pub fn write_elf_bad<K: Sink>(why: ElfWhy, out: &mut K) -> Result<(), Failed>
    ensures { Writes (K.state out.old) (K.state out.new) result (elf_line why) }
{
    let mut text = Line::new();
    text.text(b"elf: ");
    text.text(why.word().as_bytes());
    if let Some(header) = why.header() {
        text.text(b" ");
        text.decimal_u32(header);
    }
    text.write(out)
}
