//! The top call: words, image and input, in this order, and what is written.
ghost use Rattle.std.specs.Prelude.{◌≡◌, ◌⊎◌, ℕ, ◌+◌, ◌≤◌, ◌<◌, false, List, [], None, Some, Ok, Err, IfOk, IfSome, IsErr, IsTrue};
ghost use Rattle.run_file.specs.Refusals.{most_text};
ghost use Rattle.trace_io.specs.Bytes.{ShowsAsBefore, TakesAtMost};
ghost use Rattle.trace_io.specs.Causes.{KeepsFaults};
ghost use Rattle.trace_io.specs.Calls.{Serves, Lasts};
ghost use Rattle.command_words.specs.Words.{Counts, Path, Retired, Trace, meaning, texts};
ghost use Rattle.path_text.specs.Writing.{Writes};
ghost use Rattle.trace_cmd.specs.Answers.{Answers, AnswersSo, ImageFirst, IsBareCall, IsRunFileCall};
ghost use Rattle.trace_cmd.specs.Answers.{IsSelftestCall, NoReadFailed, ProgramFirst, ReadsFirst, ReadsProgram, call};
ghost use Rattle.trace_cmd.specs.Printing.{laid_in, sizes_by};
ghost use Rattle.trace_cmd.specs.Programs.{most_taken};
ghost use Rattle.answer_lines.specs.UsageLine.{usage_line};
ghost use Rattle.input_pieces.specs.Listed.{Listed};
ghost use Rattle.capture_streams.specs.Laid.{Laid};
ghost use Rattle.capture_streams.specs.Texts.{by_sizes};
ghost use Rattle.command_words.specs.Said.{IsLaidOut, said_intake, said_program};
ghost use Rattle.etm_types.specs.Settings.{Sizes};

use answer_lines::{Status, write_elf_bad, write_image_bad, write_usage};
use capture_streams::{Demux, Printer, RawStream, Stream};
use command_words::{Command, Intake, Layout, Program, ProgramForm, command_of};
use count_streams::CountStream;
use elf_image::{ElfImageFault, ElfWhy, read_elf};
use input_pieces::print_input;
use packet_list::PacketStream;
use program_image::{Image, ImageFault, ImageWhy};
use retired_paths::retire_input;
use ring_capture::WrappedDemux;
use std::alloc::{AllocError, Global};
use stream_decoder::StreamDecoder;
use sync_frames::SyncedDemux;
use time_marks::TimedDecoder;
use trace_io::{Failed, Sink, Source};
use traced_runs::{test_number, trace_input};

/// Prints an input by a printer that took nothing yet, or tells that memory was wanting to make it.
fn print_by<P: Printer, J: Source, K: Sink>(
    made: Result<P, AllocError>,
    shared: &P::Shared,
    input: &mut J,
    out: &mut K,
) -> Result<Status, Failed>
    requires fresh { IfOk made (λ p. (P.broken p ≡ false) × (P.offset p ≡ 0)) }
    ensures listed { (t : ℕ → Sizes) (laid : Laid) → IfOk made (λ p. P.stands shared.now t p [] × (P.laid (P.frames p) ≡ laid))
        → ((result ≡ Ok Status.NoMemory) × (input.new ≡ input.old) × (out.new ≡ out.old))
        ⊎ Listed laid (P.listing shared.now t) (J.state input.old) (J.state input.new) (K.state out.old) (K.state out.new) result }
    ensures kept { (result ≡ Ok Status.ReadFault) ⊎ IsErr result ⊎ KeepsFaults (J.state input.old) (J.state input.new) }
    ensures serves { Serves (K.state out.old) (K.state out.new) result }
    ensures input_lasts { Lasts (J.state input.old) (J.state input.new) }
{
    match made {
        Ok(printer) => print_input(printer, shared, input, out),
        Err(AllocError) => Ok(Status::NoMemory),
    }
}

/// Takes the memory for the streams of an input, and prints what is asked of them. Without the memory nothing is read.
fn print_streams<S: Stream, J: Source, K: Sink>(
    alloc: Global,
    intake: &Intake,
    shared: &S::Shared,
    input: &mut J,
    out: &mut K,
) -> Result<Status, Failed>
    requires { IsLaidOut intake.now.layout }
    ensures listed { ((result ≡ Ok Status.NoMemory) × (input.new ≡ input.old) × (out.new ≡ out.old))
        ⊎ Listed (laid_in intake.now.layout) (by_sizes (S.listing shared.now) (sizes_by (said_intake intake.now)))
        (J.state input.old) (J.state input.new) (K.state out.old) (K.state out.new) result }
    ensures kept { (result ≡ Ok Status.ReadFault) ⊎ IsErr result ⊎ KeepsFaults (J.state input.old) (J.state input.new) }
    ensures serves { Serves (K.state out.old) (K.state out.new) result }
    ensures input_lasts { Lasts (J.state input.old) (J.state input.new) }
{
    let table = &intake.settings;
    match intake.layout {
        Layout::Raw => {
            let raw = RawStream::<S>::new(alloc, shared, table);
            print_by(raw, shared, input, out)
        }
        Layout::Frames => {
            let frames = Demux::<S>::new(alloc, shared, table);
            print_by(frames, shared, input, out)
        }
        Layout::Wrapped(frames) => {
            let wrapped = WrappedDemux::<S>::new(alloc, frames, shared, table);
            print_by(wrapped, shared, input, out)
        }
        Layout::Synced => {
            let synced = SyncedDemux::<S>::new(alloc, shared, table);
            print_by(synced, shared, input, out)
        }
    }
}

/// Reads the text of an image. Where there is no image, the answer is known, and the line of a bad one written.
fn read_text<I: Source, K: Sink>(
    alloc: Global,
    program: &Program,
    image: &mut I,
    out: &mut K,
) -> Result<Result<Image, Status>, Failed>
    requires { program.now.form ≡ ProgramForm.Text }
    ensures reads { ReadsProgram (said_program program.now) (I.state image.old) (I.state image.new) (out.new ≡ out.old)
        (K.state out.old) (K.state out.new) result }
    ensures serves { Serves (K.state out.old) (K.state out.new) result }
{
    match Image::read(alloc, image) {
        Ok(image) => Ok(Ok(image)),
        Err(ImageFault::Bad { line, why }) => {
            write_image_bad(line, why, out)?;
            Ok(Err(Status::ImageBad { line, why }))
        }
        Err(ImageFault::ReadFault) => Ok(Err(Status::ReadFault)),
        Err(ImageFault::Memory) => Ok(Err(Status::NoMemory)),
    }
}

/// Reads an ELF file as an image. Where there is no image, the answer is known, and the line of a bad file written.
fn read_file<I: Source, K: Sink>(
    alloc: Global,
    program: &Program,
    image: &mut I,
    out: &mut K,
) -> Result<Result<Image, Status>, Failed>
    requires { program.now.form ≡ ProgramForm.Elf }
    ensures reads { ReadsProgram (said_program program.now) (I.state image.old) (I.state image.new) (out.new ≡ out.old)
        (K.state out.old) (K.state out.new) result }
    ensures serves { Serves (K.state out.old) (K.state out.new) result }
{
    match read_elf(alloc, image) {
        Ok(image) => Ok(Ok(image)),
        Err(ElfImageFault::Bad(why)) => {
            write_elf_bad(why, out)?;
            Ok(Err(Status::ElfBad { why }))
        }
        Err(ElfImageFault::ReadFault) => Ok(Err(Status::ReadFault)),
        Err(ElfImageFault::Memory) => Ok(Err(Status::NoMemory)),
    }
}

/// Reads the image of a program. Where there is none, the answer is known, and the line that says why written.
fn read_image<I: Source, K: Sink>(
    alloc: Global,
    program: &Program,
    image: &mut I,
    out: &mut K,
) -> Result<Result<Image, Status>, Failed>
    ensures reads { ReadsProgram (said_program program.now) (I.state image.old) (I.state image.new) (out.new ≡ out.old)
        (K.state out.old) (K.state out.new) result }
    ensures serves { Serves (K.state out.old) (K.state out.new) result }
{
    match program.form {
        ProgramForm::Text => read_text(alloc, program, image, out),
        ProgramForm::Elf => read_file(alloc, program, image, out),
    }
}

/// Reads the image, and prints the paths of the input over it.
fn answer_path<I: Source, J: Source, K: Sink>(
    alloc: Global,
    program: &Program,
    intake: &Intake,
    image: &mut I,
    input: &mut J,
    out: &mut K,
) -> Result<Status, Failed>
    requires { IsLaidOut intake.now.layout }
    ensures answer { (words : List (List ℕ)) → meaning words ≡ Some (Path (said_program program.now) (said_intake intake.now))
        → AnswersSo (call words (I.state image.old) (I.state image.new) (J.state input.old) (J.state input.new))
        (K.state out.old) (K.state out.new) result }
    ensures first { ProgramFirst (said_program program.now) (input.new ≡ input.old) (I.state image.old) (I.state image.new)
        (J.state input.old) (J.state input.new) result }
    ensures kept { (result ≡ Ok Status.ReadFault) ⊎ IsErr result
        ⊎ (KeepsFaults (I.state image.old) (I.state image.new) × KeepsFaults (J.state input.old) (J.state input.new)) }
    ensures memory { result ≡ Ok Status.NoMemory → input.new ≡ input.old }
    ensures serves { Serves (K.state out.old) (K.state out.new) result }
{
    match read_image(alloc, program, image, out)? {
        Ok(image) => print_streams::<StreamDecoder, J, K>(alloc, intake, &image, input, out),
        Err(status) => Ok(status),
    }
}

/// Reads the image, and prints how often the paths of the input over it have what is counted.
fn answer_counts<I: Source, J: Source, K: Sink>(
    alloc: Global,
    program: &Program,
    intake: &Intake,
    image: &mut I,
    input: &mut J,
    out: &mut K,
) -> Result<Status, Failed>
    requires { IsLaidOut intake.now.layout }
    ensures answer { (words : List (List ℕ)) → meaning words ≡ Some (Counts (said_program program.now) (said_intake intake.now))
        → AnswersSo (call words (I.state image.old) (I.state image.new) (J.state input.old) (J.state input.new))
        (K.state out.old) (K.state out.new) result }
    ensures first { ProgramFirst (said_program program.now) (input.new ≡ input.old) (I.state image.old) (I.state image.new)
        (J.state input.old) (J.state input.new) result }
    ensures kept { (result ≡ Ok Status.ReadFault) ⊎ IsErr result
        ⊎ (KeepsFaults (I.state image.old) (I.state image.new) × KeepsFaults (J.state input.old) (J.state input.new)) }
    ensures memory { result ≡ Ok Status.NoMemory → input.new ≡ input.old }
    ensures serves { Serves (K.state out.old) (K.state out.new) result }
{
    match read_image(alloc, program, image, out)? {
        Ok(image) => print_streams::<CountStream, J, K>(alloc, intake, &image, input, out),
        Err(status) => Ok(status),
    }
}

/// Reads the image and the run file, and prints its retired paths.
fn answer_retired<I: Source, J: Source, K: Sink>(
    alloc: Global,
    program: &Program,
    image: &mut I,
    input: &mut J,
    out: &mut K,
) -> Result<Status, Failed>
    ensures answer { (words : List (List ℕ)) → meaning words ≡ Some (Retired (said_program program.now))
        → AnswersSo (call words (I.state image.old) (I.state image.new) (J.state input.old) (J.state input.new))
        (K.state out.old) (K.state out.new) result }
    ensures few { TakesAtMost (J.state input.old) (J.state input.new) (most_text + 1) }
    ensures first { ProgramFirst (said_program program.now) (input.new ≡ input.old) (I.state image.old) (I.state image.new)
        (J.state input.old) (J.state input.new) result }
    ensures kept { (result ≡ Ok Status.ReadFault)
        ⊎ (KeepsFaults (I.state image.old) (I.state image.new) × KeepsFaults (J.state input.old) (J.state input.new)) }
    ensures serves { Serves (K.state out.old) (K.state out.new) result }
{
    match read_image(alloc, program, image, out)? {
        Ok(image) => retire_input(alloc, &image, input, out),
        Err(status) => Ok(status),
    }
}

/// Reads the image and the run file, and writes the frames of its traces, or so many of the last; and synchronisation packets among
/// these, or none.
fn answer_trace<I: Source, J: Source, K: Sink>(
    alloc: Global,
    program: &Program,
    last: Option<u32>,
    every: Option<u32>,
    image: &mut I,
    input: &mut J,
    out: &mut K,
) -> Result<Status, Failed>
    requires { IfSome every (λ n. 0 < n) }
    ensures answer { (words : List (List ℕ)) → meaning words ≡ Some (Trace (said_program program.now) last every)
        → AnswersSo (call words (I.state image.old) (I.state image.new) (J.state input.old) (J.state input.new))
        (K.state out.old) (K.state out.new) result }
    ensures few { TakesAtMost (J.state input.old) (J.state input.new) (most_text + 1) }
    ensures first { ProgramFirst (said_program program.now) (input.new ≡ input.old) (I.state image.old) (I.state image.new)
        (J.state input.old) (J.state input.new) result }
    ensures kept { (result ≡ Ok Status.ReadFault)
        ⊎ (KeepsFaults (I.state image.old) (I.state image.new) × KeepsFaults (J.state input.old) (J.state input.new)) }
    ensures serves { Serves (K.state out.old) (K.state out.new) result }
{
    match read_image(alloc, program, image, out)? {
        Ok(image) => trace_input(alloc, &image, last, every, input, out),
        Err(status) => Ok(status),
    }
}

/// Writes the line of usage.
fn answer_usage<K: Sink>(out: &mut K) -> Result<Status, Failed>
    ensures { Writes (K.state out.old) (K.state out.new) result usage_line × IfOk result (λ status. status ≡ Status.Usage) }
{
    write_usage(out)?;
    Ok(Status::Usage)
}

/// Answers by the words, and then by image and input as far as the command reads them.
fn answer_words<I: Source, J: Source, K: Sink>(
    alloc: Global,
    words: &[String],
    image: &mut I,
    input: &mut J,
    out: &mut K,
) -> Result<Status, Failed>
    ensures answer { AnswersSo (call (texts words.now) (I.state image.old) (I.state image.new) (J.state input.old) (J.state input.new))
        (K.state out.old) (K.state out.new) result }
    ensures few { IsRunFileCall (texts words.now) → TakesAtMost (J.state input.old) (J.state input.new) (most_text + 1) }
    ensures first { ImageFirst (most_taken (texts words.now))
        (ReadsFirst (call (texts words.now) (I.state image.old) (I.state image.new) (J.state input.old) (J.state input.new)))
        (input.new ≡ input.old) (I.state image.old) (I.state image.new) (J.state input.old) (J.state input.new) result }
    ensures kept { (result ≡ Ok Status.ReadFault) ⊎ IsErr result
        ⊎ (KeepsFaults (I.state image.old) (I.state image.new) × KeepsFaults (J.state input.old) (J.state input.new)) }
    ensures words_first { meaning (texts words.now) ≡ None → (image.new ≡ image.old) × (input.new ≡ input.old) }
    ensures image_untouched { IsBareCall (texts words.now) → image.new ≡ image.old }
    ensures both_untouched { IsSelftestCall (texts words.now) → (image.new ≡ image.old) × (input.new ≡ input.old) }
    ensures memory { result ≡ Ok Status.NoMemory → (input.new ≡ input.old) ⊎ IsRunFileCall (texts words.now) }
    ensures serves { Serves (K.state out.old) (K.state out.new) result }
{
    let command = match command_of(alloc, words) {
        Ok(Some(command)) => command,
        Ok(None) => return answer_usage(out),
        Err(_) => return Ok(Status::NoMemory),
    };
    match &command {
        Command::Path { program, intake } => {
            answer_path(alloc, program, intake, image, input, out)
        }
        Command::Counts { program, intake } => {
            answer_counts(alloc, program, intake, image, input, out)
        }
        Command::Packets { intake } => {
            print_streams::<PacketStream, J, K>(alloc, intake, &(), input, out)
        }
        Command::Times { intake } => {
            print_streams::<TimedDecoder, J, K>(alloc, intake, &(), input, out)
        }
        Command::Retired { program } => answer_retired(alloc, program, image, input, out),
        Command::Trace {
            program,
            last,
            every,
        } => answer_trace(alloc, program, *last, *every, image, input, out),
        Command::Selftest { number, cut } => test_number(alloc, *number, *cut, out),
    }
}

/// Runs the command that the words mean.
///
/// `path [--raw] [--wrap K] [--sync] [--depth N] [--vmid N] [--cid N] [--settings LIST] [--elf] [--count] IMAGE` prints the path of
/// each stream of an input, or in their place, with `--count`, how often each instruction and each other item stands in them; and
/// `packets [--raw] [--wrap K] [--sync] [--vmid N] [--cid N] [--settings LIST]` prints its packets. The input is formatter frames of
/// up to 111 streams, or with `--raw` one stream that is not framed, with the ID 01. With `--wrap K` the frames are those of a
/// buffer that was written round, of which frame K is the oldest: those from it on are printed as they come, and those before it at
/// the end. With `--sync` they are those of a trace port, with synchronisation packets among them, from the first full one on.
/// `times [--raw] [--depth N] [--vmid N] [--cid N] [--settings LIST]` prints of each stream which committed P0 element has which
/// timestamp, and when its events came. The other three numbers are the settings of each stream's trace unit, and LIST gives single
/// IDs others, as `01:0:1:4,6f:16:0:0`.
///
/// `retired [--elf] IMAGE` reads a run file, and prints the retired path of each of its streams. `trace [--last N] [--sync M] [--elf]
/// IMAGE` reads a run file, and writes the traces of its streams in frames, of which `path` prints those retired paths; or only the
/// last N of these frames; and a full synchronisation packet before the first frame that it writes and each M-th behind it.
/// `selftest [--cut K] N` makes image and run file from a number, and prints how many lines the paths in its frames have, or in the
/// first K bytes of them.
///
/// The words behind the command may stand in any order, `--depth=N` is `--depth N`, and behind `--` each word is a positional.
/// `image` is what the word IMAGE names: the text of an image, or with `--elf` an ELF file, of at most 256 MiB.
///
/// Words are read with memory of their own: where it is wanting, nothing is touched and nothing printed, whatever they mean.
/// Of paths, their counts, packets and times all memory is taken before the first byte of the input is read. That input is read by pieces of at
/// most 4096 bytes, whose lines are written and flushed before the next is read. A run file is read whole, at most 64 MiB of
/// it, and all its lines and events are tested before anything is written, and all memory is taken. All is flushed before it
/// answers, and a flush that fails is `WriteFault`.
pub fn run<I: Source, J: Source, K: Sink>(
    alloc: Global,
    words: &[String],
    image: &mut I,
    input: &mut J,
    out: &mut K,
) -> Status
    // The answer has its cause, and what was printed is told by it.
    ensures answer { Answers (call (texts words.now) (I.state image.old) (I.state image.new) (J.state input.old) (J.state input.new))
        (K.state out.old) (K.state out.new) result }
    ensures meaningless { meaning (texts words.now) ≡ None → (result ≡ Status.Usage) ⊎ (result ≡ Status.WriteFault) ⊎ (result ≡ Status.NoMemory) }
    ensures flushed { (result ≡ Status.WriteFault) ⊎ IsTrue (K.flushed out.new) }

    // The words come first, then the image, then all memory, and then the input, which is touched only once the image is good,
    // or for its packets or times.
    ensures words_first { meaning (texts words.now) ≡ None → (image.new ≡ image.old) × (input.new ≡ input.old) }
    ensures image_untouched { IsBareCall (texts words.now) → image.new ≡ image.old }
    ensures both_untouched { IsSelftestCall (texts words.now) → (image.new ≡ image.old) × (input.new ≡ input.old) }
    ensures image_first { (line : ℕ) (why : ImageWhy) → result ≡ Status.ImageBad line why → input.new ≡ input.old }
    ensures elf_first { (why : ElfWhy) → result ≡ Status.ElfBad why → input.new ≡ input.old }
    ensures image_failed { KeepsFaults (I.state image.old) (I.state image.new) ⊎ (input.new ≡ input.old) }
    ensures memory { result ≡ Status.NoMemory → (input.new ≡ input.old) ⊎ IsRunFileCall (texts words.now) }
    ensures order { (input.new ≡ input.old)
        ⊎ ReadsFirst (call (texts words.now) (I.state image.old) (I.state image.new) (J.state input.old) (J.state input.new)) }

    // Of a run file and of an image no more is read than tells that it is too long, and of no program nothing.
    ensures few { IsRunFileCall (texts words.now) → TakesAtMost (J.state input.old) (J.state input.new) (most_text + 1) }
    ensures image_few { TakesAtMost (I.state image.old) (I.state image.new) (most_taken (texts words.now)) }

    // No call that failed is passed over.
    ensures reads { (result ≡ Status.ReadFault) ⊎ (result ≡ Status.WriteFault)
        ⊎ NoReadFailed (call (texts words.now) (I.state image.old) (I.state image.new) (J.state input.old) (J.state input.new)) }
    ensures writes { (result ≡ Status.WriteFault) ⊎ KeepsFaults (K.state out.old) (K.state out.new) }

    // What holds on every answer, of whatever objects.
    ensures image_shows { ShowsAsBefore (I.state image.old) (I.state image.new) }
    ensures image_later { (I.state image.old).faults ≤ (I.state image.new).faults }
    ensures input_shows { ShowsAsBefore (J.state input.old) (J.state input.new) }
    ensures input_later { (J.state input.old).faults ≤ (J.state input.new).faults }
    ensures out_shows { ShowsAsBefore (K.state out.old) (K.state out.new) }
    ensures out_later { (K.state out.old).faults ≤ (K.state out.new).faults }
{
    let answer = answer_words(alloc, words, image, input, out);
    match (out.flush(), answer) {
        (Ok(()), Ok(status)) => status,
        _ => Status::WriteFault,
    }
}
