//! The image of a program: the parts of a core's memory that hold it.
ghost use Rattle.std.specs.Prelude.{◌≡◌, ◌⊎◌, ℕ, ◌+◌, ◌/◌, ◌%◌, ◌^◌, ◌<◌, ◌≤◌, [], get_or, length, slice_get};
ghost use Rattle.std.specs.Prelude.{Some, None, MatchOption, IfOk, IfSome, IsErrOf, IsSome};
ghost use Rattle.std.specs.Str.Lines.{lines};
ghost use Rattle.trace_io.specs.Causes.{KeepsFaults, Rose};
ghost use Rattle.trace_io.specs.Bytes.{TakesAtMost};
ghost use Rattle.trace_io.specs.Calls.{Lasts};
ghost use Rattle.program_image.specs.Part.{IsImage, Part, most_bytes, word_in, word_of};
ghost use Rattle.program_image.specs.Places.{word_addresses, word_count};
ghost use Rattle.program_image.specs.ImageText.{add_lines, image_of, most_text};
ghost use Rattle.program_image.specs.Answers.{AnswersText, TakesImage, TakesNoImage};
ghost use Rattle.program_image.specs.Blocks.{HasGap, IsBlock, class_at};
ghost use Rattle.program_image.specs.Runs.{IsRun, run_of};
ghost use Rattle.program_image.specs.Near.{IsNear, IsOfPart};

use crate::block::{Block, BlockEnd, end_at};
use crate::draft::Draft;
use crate::fault::{ImageFault, ImageWhy, LineFault};
use crate::lookup::{part_at, part_near, word_at};
use crate::near_part::NearPart;
use crate::part::Part;
use crate::places::Places;
use crate::run::{PlacedRun, WordRun};
use crate::run_table::{Runs, table};
use a64_branches::INSTRUCTION_BYTES;
use line_words::NumberedLines;
use std::alloc::Global;
use std::marker::Model;
use trace_io::{ReadAllFault, Source, read_all};

/// The longest text that is read, in bytes: 64 MiB.
const MOST_TEXT: usize = 64 << 20;

/// A longer text; line 0 stands for the whole.
const TOO_LONG: ImageFault = ImageFault::Bad {
    line: 0,
    why: ImageWhy::TooLong,
};

/// What a core's memory holds of its program.
#[derive(Drop)]
pub struct Image {
    /// By their addresses.
    parts: Vec<Part>,
    /// The run from each word of each part on.
    table: Vec<Runs>,
    /// How many words stand before each part.
    places: Places,
}

impl Model for Image {
    ghost use Rattle.std.specs.Prelude.{◌≡◌, List};
    ghost use Rattle.program_image.specs.Part.{IsImage, Part};
    ghost use Rattle.program_image.specs.Places.{words_before};
    ghost use Rattle.program_image.specs.Runs.{IsTable};

    ghost Value = { List Part };

    ghost view = { λ image. image.parts.items };

    ghost invariant = { λ image. IsImage image.parts.items × IsTable image.parts.items image.parts.items image.table.items
        × (image.places ≡ words_before 0 image.parts.items) };
}

impl Image {
    /// Reads the text of an image, all that the source has left and at most 64 MiB of it.
    ///
    /// `Bad` has the first line that has a fault, and a longer text is `TooLong` at line 0.
    pub fn read<S: Source>(alloc: Global, source: &mut S) -> Result<Image, ImageFault>
        ensures ok { IfOk result (TakesImage (S.state source.old) (S.state source.new)) }
        ensures parts { IfOk result IsImage }
        ensures bad { (line : ℕ) (why : ImageWhy) → result ≡ Err (ImageFault.Bad line why)
            → TakesNoImage (S.state source.old) (S.state source.new) line why }
        ensures read_fault { IsErrOf result ImageFault.ReadFault
            → Rose (S.state source.old) (S.state source.new) }
        ensures kept { IsErrOf result ImageFault.ReadFault
            ⊎ KeepsFaults (S.state source.old) (S.state source.new) }
        ensures lasts { Lasts (S.state source.old) (S.state source.new) }
        ensures taken { TakesAtMost (S.state source.old) (S.state source.new) (most_text + 1) }
    {
        let text = match read_all(alloc, source, MOST_TEXT) {
            Ok(text) => text,
            Err(ReadAllFault::Failed) => return Err(ImageFault::ReadFault),
            Err(ReadAllFault::TooLong) => return Err(TOO_LONG),
            Err(ReadAllFault::Memory) => return Err(ImageFault::Memory),
        };
        Image::of_text(alloc, &text)
    }

    /// The image that a text spells.
    ///
    /// `Bad` has the first line that has a fault, and a text of more than 64 MiB is `TooLong` at line 0. `ReadFault` never
    /// comes.
    #[tactic(auto, unfolding(crate::specs::ImageText::image_of))]
    pub fn of_text(alloc: Global, text: &[u8]) -> Result<Image, ImageFault>
        ensures value { AnswersText (λ image. image) result (image_of text.now) }
        ensures parts { IfOk result IsImage }
    {
        if text.len() > MOST_TEXT {
            return Err(TOO_LONG);
        }
        let draft = draft_of(alloc, text)?;
        let parts = draft.by_address(alloc).map_err(|_| ImageFault::Memory)?;
        let table = table(alloc, &parts).map_err(|_| ImageFault::Memory)?;
        let places = Places::new(alloc, &parts).map_err(|_| ImageFault::Memory)?;
        Ok(Image {
            parts,
            table,
            places,
        })
    }

    /// The instruction word at an address: none where no word begins there.
    pub fn word_at(&self, addr: u64) -> Option<u32>
        ensures value { result ≡ word_of self.now addr }
        ensures parts { IsImage self.now }
    {
        word_at(&self.parts, addr)
    }

    /// The plain words from an address on, one after the other modulo 2^64, and what stands after them.
    ///
    /// It costs the same whatever their number.
    #[inline(always)]
    pub fn block(&self, pc: u64) -> Block
        requires { pc % 4 ≡ 0 }
        ensures block { IsBlock self.now pc result }
        ensures few { result.plain < 2 ^ 62 }
        ensures gap { HasGap self.now }
    {
        let Some(placed) = self.placed_run(pc, 0) else {
            return Block {
                plain: 0,
                end: BlockEnd::NoCode(pc),
            };
        };
        let plain = u64::from(placed.run.plain);
        let addr = pc.wrapping_add(plain * INSTRUCTION_BYTES);
        Block {
            plain,
            end: end_at(placed.run.behind.class(), addr),
        }
    }

    /// The same as the image keeps it, and the place of the word at the address: none where no word begins there. The part at the place `near`
    /// among the parts is looked at first: whichever that is, the answer is the same, but where it is the part of the address, nothing is
    /// searched.
    #[inline(always)]
    pub fn placed_run(&self, pc: u64, near: usize) -> Option<PlacedRun>
        requires { pc % 4 ≡ 0 }
        ensures run { MatchOption result (class_at self.now pc ≡ None) (λ placed. IsRun self.now pc (run_of placed.run)) }
        ensures word { IfSome result (λ _. IsSome (word_of self.now pc)) }
        ensures place { IfSome result (λ placed. slice_get (word_addresses self.now) placed.place ≡ Some pc) }
        ensures gap { HasGap self.now }
    {
        let part = part_near(&self.parts, near, pc)?;
        let run = self.run_in(part, pc)?;
        Some(PlacedRun {
            place: self.place_in(part, pc),
            part,
            run,
        })
    }

    /// The part at a place among the parts, kept at hand for what looks up one address of it after the other. A place behind the parts gives one
    /// without words.
    #[inline(always)]
    pub fn near_part(&self, part: usize) -> NearPart<'_>
        ensures near { IsNear self.now result }
        ensures part { MatchOption (slice_get self.now part) (result.runs ≡ []) (IsOfPart part result) }
    {
        if part >= self.parts.len() {
            return NearPart::without_words();
        }
        let start = self.parts[part].start();
        let runs = self.table[part].entries();
        NearPart::new(start, runs, self.places.count_before(part), part)
    }

    /// How many words there are.
    pub fn word_count(&self) -> usize
        ensures value { result ≡ word_count self.now }
        ensures few { result ≤ most_bytes / 4 }
        ensures parts { IsImage self.now }
    {
        self.places.count_before(self.parts.len())
    }

    /// The place of the word at an address among all words, in the order of their addresses and counted from 0: none where no
    /// word begins there. It costs the search of a part among at most 64.
    #[inline(always)]
    pub fn place_at(&self, addr: u64) -> Option<usize>
        ensures place { MatchOption result (word_of self.now addr ≡ None)
            (λ place. slice_get (word_addresses self.now) place ≡ Some addr) }
        ensures parts { IsImage self.now }
    {
        let part = part_at(&self.parts, addr)?;
        self.parts[part].word_at(addr)?;
        Some(self.place_in(part, addr))
    }

    /// The address of the word at a place: none where there are no more words. It costs as much.
    pub fn address_of(&self, place: usize) -> Option<u64>
        ensures address { result ≡ slice_get (word_addresses self.now) place }
        ensures parts { IsImage self.now }
    {
        if place >= self.word_count() {
            return None;
        }
        let part = self.places.part_of(place);
        let offset = (place - self.places.count_before(part)) as u64 * INSTRUCTION_BYTES;
        Some(self.parts[part].start() + offset)
    }

    /// The run from the word at an address on, by the part that the word can be of: none where no word begins there.
    #[inline(always)]
    fn run_in(&self, part: usize, addr: u64) -> Option<WordRun>
        requires aligned { addr % 4 ≡ 0 }
        requires part { (d : Part) → word_of self.now addr ≡ word_in (get_or self.now part d) addr }
        requires begun { (d : Part) → (get_or self.now part d).start ≤ addr }
        requires within { part < length self.now }
        ensures run { MatchOption result (class_at self.now addr ≡ None)
            (λ run. IsSome (word_of self.now addr) × IsRun self.now addr (run_of run)) }
    {
        let offset = addr - self.parts[part].start();
        self.table[part].kept_at((offset / INSTRUCTION_BYTES) as usize)
    }

    /// The place of the word at an address, where one begins there, by the part that the word can be of.
    #[inline(always)]
    fn place_in(&self, part: usize, addr: u64) -> usize
        requires part { (d : Part) → word_of self.now addr ≡ word_in (get_or self.now part d) addr }
        requires begun { (d : Part) → (get_or self.now part d).start ≤ addr }
        requires within { part < length self.now }
        ensures place { IsSome (word_of self.now addr) → slice_get (word_addresses self.now) result ≡ Some addr }
    {
        let offset = addr - self.parts[part].start();
        self.places.count_before(part) + (offset / INSTRUCTION_BYTES) as usize
    }
}

/// The parts that the lines of a text spell, in their order.
fn draft_of(alloc: Global, text: &[u8]) -> Result<Draft, ImageFault>
    ensures { AnswersText (λ draft. draft) result (add_lines 1 [] (lines text.now)) }
{
    let mut draft = Draft::new(alloc);
    let mut lines = NumberedLines::new(text);
    while let Some((number, line)) = lines.next() {
        draft = match draft.with_line(alloc, line) {
            Ok(next) => next,
            Err(LineFault::Bad(why)) => return Err(ImageFault::Bad { line: number, why }),
            Err(LineFault::Memory) => return Err(ImageFault::Memory),
        };
    }
    Ok(draft)
}
