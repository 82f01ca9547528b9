//! The command `retired`: a run file is read and tested whole, and then its retired paths are printed.
ghost use Rattle.std.specs.Prelude.{◌≡◌, ◌⊎◌, ◌+◌, ◌≤◌, List, [], None, Some, Ok, Err, IsOk, slice_get};
ghost use Rattle.etm_types.specs.Settings.{Sizes};
ghost use Rattle.path_text.specs.Writing.{Writes};
ghost use Rattle.program_image.specs.Blocks.{HasGap};
ghost use Rattle.run_file.specs.Parts.{BenchStream, IsBench, events_of};
ghost use Rattle.run_file.specs.Refusals.{most_text, refusal_among, stream_refusal};
ghost use Rattle.spec_run.specs.Stands.{StandsAt};
ghost use Rattle.retired_paths.specs.Retired.{RetiresSo, retired_text, stream_text};
ghost use Rattle.retired_paths.specs.Retiring.{CanGoOn, RefusesLine, events_with, bad_line};
ghost use Rattle.trace_io.specs.Bytes.{TakesAtMost};
ghost use Rattle.trace_io.specs.Causes.{KeepsFaults};
ghost use Rattle.trace_io.specs.Calls.{Serves, Lasts};

use crate::bench_input::{Unread, read_bench, refuse};
use crate::retiring::Retiring;
use answer_lines::Status;
use etm_types::Settings;
use program_image::Image;
use run_file::{Bench, BenchLine, BenchWhy};
use spec_run::{Event, Run, RunFault};
use std::alloc::Global;
use trace_io::{Failed, Sink, Source};

/// Runs the events of a line.
fn run_line(run: &mut Run, image: &Image, line: &BenchLine) -> Result<(), RunFault>
    ensures stands { (s : Sizes) (events : List Event) → StandsAt image.now s run.old events → IsOk result
        → StandsAt image.now s run.new (events_with events line.now.times line.now.event) }
    ensures refused { (s : Sizes) (events : List Event) → StandsAt image.now s run.old events
        → (fault : RunFault) → result ≡ Err fault → RefusesLine image.now s events line.now fault }
{
    let done = run_plain(run, image, line);
    for _ in done..line.times {
        run.apply(image, &line.event)?;
    }
    Ok(())
}

/// Runs the plain steps at the front of a line's events together, and says how many there are.
fn run_plain(run: &mut Run, image: &Image, line: &BenchLine) -> u32
    ensures stands { (s : Sizes) (events : List Event) → StandsAt image.now s run.old events
        → StandsAt image.now s run.new (events_with events result line.now.event) }
    ensures few { result ≤ line.now.times }
{
    match line.event {
        Event::Step => run.step_many(image, line.times),
        _ => 0,
    }
}

/// The first line of a stream whose event is refused, and why.
fn stream_refusal(run: &mut Run, image: &Image, bench: &Bench, s: usize) -> Option<(u64, RunFault)>
    ensures { (stream : BenchStream) → slice_get bench.now.streams s ≡ Some stream
        → StandsAt image.now stream.settings run.old [] → bad_line result ≡ stream_refusal image.now stream }
{
    let mut k = 0;
    while let Some(line) = bench.line_at(s, k) {
        if let Err(fault) = run_line(run, image, &line) {
            return Some((line.line, fault));
        }
        k += 1;
    }
    None
}

/// The first line whose event is refused, and why.
fn first_refusal(run: &mut Run, image: &Image, bench: &Bench) -> Option<(u64, RunFault)>
    ensures { bad_line result ≡ refusal_among image.now bench.now.streams }
{
    for s in 0..bench.streams() {
        let Some(settings) = bench.settings_of(s) else {
            unreachable!()
        };
        run.restart(&settings);
        let refusal = stream_refusal(run, image, bench, s);
        if refusal.is_some() {
            return refusal;
        }
    }
    None
}

/// Prints the retired path of a stream, whose events are all accepted.
fn print_stream<K: Sink>(
    retiring: &mut Retiring,
    image: &Image,
    bench: &Bench,
    s: usize,
    out: &mut K,
) -> Result<(), Failed>
    requires { (stream : BenchStream) × (slice_get bench.now.streams s ≡ Some stream)
        × CanGoOn image.now stream.settings retiring.old [] (events_of stream.lines) }
    ensures { (stream : BenchStream) → slice_get bench.now.streams s ≡ Some stream
        → CanGoOn image.now stream.settings retiring.old [] (events_of stream.lines)
        → Writes (K.state out.old) (K.state out.new) result (stream_text image.now stream) }
{
    let Some(id) = bench.id_at(s) else {
        unreachable!()
    };
    let mut k = 0;
    while let Some(line) = bench.line_at(s, k) {
        retiring.print_line(image, id, &line, out)?;
        k += 1;
    }
    Ok(())
}

/// Prints the retired paths of all streams, whose events are all accepted.
fn print_retired<K: Sink>(
    retiring: &mut Retiring,
    image: &Image,
    bench: &Bench,
    out: &mut K,
) -> Result<(), Failed>
    requires gap { HasGap image.now }
    requires parts { IsBench bench.now }
    requires accepted { refusal_among image.now bench.now.streams ≡ None }
    ensures { Writes (K.state out.old) (K.state out.new) result (retired_text image.now bench.now) }
{
    for s in 0..bench.streams() {
        let Some(settings) = bench.settings_of(s) else {
            unreachable!()
        };
        retiring.restart(&settings);
        print_stream(retiring, image, bench, s, out)?;
    }
    Ok(())
}

/// Reads a run file and tests all of it, then prints its retired paths.
pub fn retire_input<J: Source, K: Sink>(
    alloc: Global,
    image: &Image,
    input: &mut J,
    out: &mut K,
) -> Result<Status, Failed>
    ensures answer { RetiresSo image.now (J.state input.old) (J.state input.new) (K.state out.old) (K.state out.new) result }
    ensures few { TakesAtMost (J.state input.old) (J.state input.new) (most_text + 1) }
    ensures kept { (result ≡ Ok Status.ReadFault) ⊎ KeepsFaults (J.state input.old) (J.state input.new) }
    ensures input_lasts { Lasts (J.state input.old) (J.state input.new) }
    ensures serves { Serves (K.state out.old) (K.state out.new) result }
{
    let mut text = Vec::new(alloc);
    let bench = match read_bench(alloc, input, &mut text) {
        Ok(bench) => bench,
        Err(Unread::Bad { line, why }) => return refuse(line, why, out),
        Err(Unread::ReadFault) => return Ok(Status::ReadFault),
        Err(Unread::Memory) => return Ok(Status::NoMemory),
    };
    let Ok(mut run) = Run::new(alloc, &Settings::default()) else {
        return Ok(Status::NoMemory);
    };
    if let Some((line, fault)) = first_refusal(&mut run, image, &bench) {
        return refuse(line, BenchWhy::Run(fault), out);
    }
    // No image has a word at each address, as the contract of this call tells: no block of it is without end.
    let _block = image.block(0);
    print_retired(&mut Retiring::new(run), image, &bench, out)?;
    Ok(Status::Done)
}
