//! The command `selftest`: the run file that is made from a number is traced in memory, its frames are read again, and the lines
//! of their paths are counted. It tries both ends on a machine without a file.
ghost use Rattle.std.specs.Prelude.{◌≡◌, ◌≢◌, ◌≤◌, ◌<◌, ℕ, List, IfOk, None, Ok, Err, length, Some};
ghost use Rattle.bench_gen.specs.Bench.{generated};
ghost use Rattle.run_file.specs.Parts.{BenchParts, IsBench};
ghost use Rattle.run_file.specs.Refusals.{bench_of, most_text, refusal_among};
ghost use Rattle.capture_streams.specs.Texts.{Printed};
ghost use Rattle.program_image.specs.ImageText.{image_of};
ghost use Rattle.program_image.specs.Part.{IsImage};
ghost use Rattle.program_image.specs.declared.image.Image.{Image as Parts};
ghost use Rattle.run_file.specs.BenchText.{parsed};
ghost use Rattle.input_pieces.specs.Listed.{most_input};
ghost use Rattle.traced_runs.specs.Selftest.{AreGood, HasLines, IsTooLong, TestsSo, kept_of, line_feeds, piece_of};
ghost use Rattle.traced_runs.specs.Traced.{table_of, trace_frames};
ghost use Rattle.trace_io.specs.Calls.{Serves};

use crate::traced::{Untraced, traced_streams, woven_frames};
use answer_lines::{Status, write_image_bad, write_summary};
use bench_gen::{Generated, generate};
use capture_streams::Demux;
use etm_types::{Settings, SettingsTable};
use input_pieces::{MOST_INPUT, print_input};
use program_image::{Image, ImageFault, ImageWhy};
use retired_paths::{Unread, read_bench, refuse};
use run_file::{Bench, BenchWhy};
use std::alloc::{AllocError, Global};
use stream_decoder::StreamDecoder;
use trace_io::{Failed, MemSink, SafeSource, Sink};

/// The most bytes of a text that are read at a time.
const PIECE: usize = 4096;

/// Why a number has no summary.
#[derive(Clone, Copy, Debug)]
enum Untested {
    /// Its image is bad.
    Image { line: u64, why: ImageWhy },
    /// Its run file is bad.
    Bench { line: u64, why: BenchWhy },
    /// Its frames are longer than what is read.
    TooLong,
    /// Memory is wanting.
    Memory,
}

/// A source of these bytes, which gives at most `piece` of them at a time.
fn source_of(alloc: Global, bytes: &[u8], piece: usize) -> Result<SafeSource, AllocError>
    requires { 0 < piece }
    ensures { IfOk result (λ s. (s.left ≡ bytes.now) × (s.piece ≡ piece)) }
{
    let mut copy = Vec::new(alloc);
    copy.extend_from_slice(bytes)?;
    Ok(SafeSource::new(copy, piece))
}

/// A source of the frames of a number's traces. Numbers differ in how many bytes are read at a time.
fn frames_source(alloc: Global, frames: &[u8], number: u32) -> Result<SafeSource, AllocError>
    ensures { IfOk result (λ s. (s.left ≡ frames.now) × (s.piece ≡ piece_of number)) }
{
    source_of(alloc, frames, 1 + (number % 1000) as usize)
}

/// The image of a text.
fn image_in(alloc: Global, text: &[u8]) -> Result<Image, Untested>
    ensures good { IfOk result (λ image. image_of text.now ≡ Ok image) }
    ensures parts { IfOk result IsImage }
    ensures bad { (line : ℕ) (why : ImageWhy) → result ≡ Err (Untested.Image line why) → image_of text.now ≡ Err (line, why) }
    ensures other { ((line : ℕ) (why : BenchWhy) → result ≢ Err (Untested.Bench line why)) × (result ≢ Err Untested.TooLong) }
{
    let Ok(mut source) = source_of(alloc, text, PIECE) else {
        return Err(Untested::Memory);
    };
    match Image::read(alloc, &mut source) {
        Ok(image) => Ok(image),
        Err(ImageFault::Bad { line, why }) => Err(Untested::Image { line, why }),
        Err(ImageFault::ReadFault) => unreachable!(),
        Err(ImageFault::Memory) => Err(Untested::Memory),
    }
}

/// The run file of a text, which is read into `copy`.
fn bench_in<'a>(alloc: Global, text: &[u8], copy: &'a mut Vec<u8>) -> Result<Bench<'a>, Untested>
    ensures good { IfOk result (λ bench. (parsed text.now ≡ Ok bench) × (length text.now ≤ most_text)) }
    ensures parts { IfOk result IsBench }
    ensures bad { (line : ℕ) (why : BenchWhy) → result ≡ Err (Untested.Bench line why) → (image : Parts) → bench_of image text.now ≡ Err (line, why) }
    ensures other { ((line : ℕ) (why : ImageWhy) → result ≢ Err (Untested.Image line why)) × (result ≢ Err Untested.TooLong) }
{
    let Ok(mut source) = source_of(alloc, text, PIECE) else {
        return Err(Untested::Memory);
    };
    match read_bench(alloc, &mut source, copy) {
        Ok(bench) => Ok(bench),
        Err(Unread::Bad { line, why }) => Err(Untested::Bench { line, why }),
        Err(Unread::ReadFault) => unreachable!(),
        Err(Unread::Memory) => Err(Untested::Memory),
    }
}

/// The frames of the traces of a run file.
fn frames_of(alloc: Global, image: &Image, bench: &Bench) -> Result<MemSink, Untested>
    requires { IsBench bench.now }
    ensures frames { IfOk result (λ frames. (frames.taken ≡ trace_frames image.now bench.now)
        × (refusal_among image.now bench.now.streams ≡ None)) }
    ensures refused { (line : ℕ) (why : BenchWhy) → result ≡ Err (Untested.Bench line why)
        → refusal_among image.now bench.now.streams ≡ Some (line, why) }
    ensures other { ((line : ℕ) (why : ImageWhy) → result ≢ Err (Untested.Image line why)) × (result ≢ Err Untested.TooLong) }
{
    let mut traces = match traced_streams(alloc, image, bench) {
        Ok(traces) => traces,
        Err(Untraced::Refused { line, fault }) => {
            let why = BenchWhy::Run(fault);
            return Err(Untested::Bench { line, why });
        }
        Err(Untraced::Memory) => return Err(Untested::Memory),
    };
    match woven_frames(alloc, bench, &mut traces) {
        Ok(frames) => Ok(frames),
        Err(AllocError) => Err(Untested::Memory),
    }
}

/// The number of line feeds.
fn line_feeds(text: &[u8]) -> usize
    ensures { result ≡ line_feeds text.now }
{
    text.iter().filter(|byte| **byte == b'\n').count()
}

/// The table in which each stream of a run file has its settings, and every other ID the defaults.
fn table_of(bench: &Bench) -> SettingsTable
    ensures { result ≡ table_of bench.now }
{
    let mut table = SettingsTable::new(Settings::default());
    for s in 0..bench.streams() {
        let (Some(id), Some(settings)) = (bench.id_at(s), bench.settings_of(s)) else {
            unreachable!()
        };
        table.set(id, settings);
    }
    table
}

/// The number of lines of the paths in frames of a number's traces.
fn count_lines(
    alloc: Global,
    image: &Image,
    bench: &Bench,
    frames: &[u8],
    number: u32,
) -> Result<usize, AllocError>
    requires bench { IsBench bench.now }
    requires image { IsImage image.now }
    requires few { length frames.now ≤ most_input }
    ensures { IfOk result (λ count. (lines : List Printed) × HasLines image.now bench.now frames.now lines × (count ≡ length lines)) }
{
    let mut source = frames_source(alloc, frames, number)?;
    let demux = Demux::<StreamDecoder>::new(alloc, image, &table_of(bench))?;
    let mut text = MemSink::new(alloc, Vec::new(alloc));
    // No read fails, and there are not too many bytes: where no write failed, all of them were read.
    match print_input(demux, image, &mut source, &mut text) {
        Ok(_) => Ok(line_feeds(text.written())),
        Err(Failed) => Err(AllocError),
    }
}

/// The first bytes of frames that are read.
fn kept(frames: &[u8], cut: Option<u32>) -> &[u8]
    ensures { result.now ≡ kept_of cut frames.now }
{
    match cut {
        Some(cut) if (cut as usize) < frames.len() => &frames[..cut as usize],
        _ => frames,
    }
}

/// The number of lines of the paths in the frames of these texts.
fn tested(
    alloc: Global,
    texts: &Generated,
    number: u32,
    cut: Option<u32>,
) -> Result<usize, Untested>
    requires { texts.now ≡ generated number }
    ensures lines { IfOk result (λ count. (image : Parts) × (bench : BenchParts) × AreGood number image bench
        × (length (trace_frames image bench) ≤ most_input)
        × ((lines : List Printed) × HasLines image bench (kept_of cut (trace_frames image bench)) lines × (count ≡ length lines))) }
    ensures image { (line : ℕ) (why : ImageWhy) → result ≡ Err (Untested.Image line why) → image_of (generated number).image ≡ Err (line, why) }
    ensures bench { (line : ℕ) (why : BenchWhy) → result ≡ Err (Untested.Bench line why)
        → (image : Parts) × (image_of (generated number).image ≡ Ok image) × (bench_of image (generated number).bench ≡ Err (line, why)) }
    ensures long { result ≡ Err Untested.TooLong → IsTooLong number }
{
    let image = image_in(alloc, texts.image())?;
    let mut copy = Vec::new(alloc);
    let bench = bench_in(alloc, texts.bench(), &mut copy)?;
    let frames = frames_of(alloc, &image, &bench)?;
    if frames.written().len() > MOST_INPUT {
        return Err(Untested::TooLong);
    }
    let read = kept(frames.written(), cut);
    count_lines(alloc, &image, &bench, read, number).map_err(|_| Untested::Memory)
}

/// Tries both ends on the run file of a number, and writes the summary, or why there is none. Of its frames the first `cut` bytes are
/// read, or all.
pub fn test_number<K: Sink>(
    alloc: Global,
    number: u32,
    cut: Option<u32>,
    out: &mut K,
) -> Result<Status, Failed>
    requires { number ≤ 99999 }
    ensures answer { TestsSo number cut (K.state out.old) (K.state out.new) result }
    ensures serves { Serves (K.state out.old) (K.state out.new) result }
{
    let Ok(texts) = generate(alloc, number) else {
        return Ok(Status::NoMemory);
    };
    match tested(alloc, &texts, number, cut) {
        Ok(lines) => {
            write_summary(number, cut, lines, out)?;
            Ok(Status::Done)
        }
        Err(Untested::Image { line, why }) => {
            write_image_bad(line, why, out)?;
            Ok(Status::ImageBad { line, why })
        }
        Err(Untested::Bench { line, why }) => refuse(line, why, out),
        Err(Untested::TooLong) => Ok(Status::InputTooLong),
        Err(Untested::Memory) => Ok(Status::NoMemory),
    }
}
