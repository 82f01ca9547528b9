//! Programs that sources give.
ghost use Rattle.std.specs.Prelude.{◌≡◌, ◌⊎◌, ◌+◌, ◌≤◌, IfOk, IsErrOf};
ghost use Rattle.trace_io.specs.Causes.{KeepsFaults, Rose};
ghost use Rattle.trace_io.specs.Bytes.{TakesAtMost};
ghost use Rattle.trace_io.specs.Calls.{Lasts};
ghost use Rattle.program_image.specs.Part.{IsImage};
ghost use Rattle.elf_image.specs.Answers.{TakesElf, TakesNoElf};
ghost use Rattle.elf_image.specs.Refusals.{most_file};

use crate::fault::{ElfFault, ElfImageFault, ElfWhy};
use crate::header::MOST_FILE;
use crate::text::text_of;
use program_image::{Image, ImageFault};
use std::alloc::Global;
use trace_io::{ReadAllFault, Source, read_all};

/// Reads a program, all that the source has left and at most 256 MiB of it.
///
/// `Bad` has the first reason for which the file is refused; a longer one is `TooLong`.
pub fn read_elf<S: Source>(alloc: Global, source: &mut S) -> Result<Image, ElfImageFault>
    ensures ok { IfOk result (TakesElf (S.state source.old) (S.state source.new)) }
    ensures parts { IfOk result IsImage }
    ensures bad { (why : ElfWhy) → result ≡ Err (ElfImageFault.Bad why)
        → TakesNoElf (S.state source.old) (S.state source.new) why }
    ensures read_fault { IsErrOf result ElfImageFault.ReadFault
        → Rose (S.state source.old) (S.state source.new) }
    ensures kept { IsErrOf result ElfImageFault.ReadFault
        ⊎ KeepsFaults (S.state source.old) (S.state source.new) }
    ensures lasts { Lasts (S.state source.old) (S.state source.new) }
    ensures taken { TakesAtMost (S.state source.old) (S.state source.new) (most_file + 1) }
{
    let file = match read_all(alloc, source, MOST_FILE) {
        Ok(file) => file,
        Err(ReadAllFault::Failed) => return Err(ElfImageFault::ReadFault),
        Err(ReadAllFault::TooLong) => return Err(ElfImageFault::Bad(ElfWhy::TooLong)),
        Err(ReadAllFault::Memory) => return Err(ElfImageFault::Memory),
    };
    let text = match text_of(alloc, &file) {
        Ok(text) => text,
        Err(ElfFault::Bad(why)) => return Err(ElfImageFault::Bad(why)),
        Err(ElfFault::Memory) => return Err(ElfImageFault::Memory),
    };
    // The image is made of the text alone, so that the file's memory is free for it.
    drop(file);
    match Image::of_text(alloc, &text) {
        Ok(image) => Ok(image),
        Err(ImageFault::Memory) => Err(ElfImageFault::Memory),
        Err(ImageFault::Bad { .. }) => unreachable!(),
        Err(ImageFault::ReadFault) => unreachable!(),
    }
}
