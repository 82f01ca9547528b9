//! The run file that a command reads, and the answer where it is bad.
ghost use Rattle.std.specs.Prelude.{◌≡◌, ◌⊎◌, ℕ, ◌+◌, ◌≤◌, Err, IsErrOf, IfOk};
ghost use Rattle.path_text.specs.Writing.{Writes};
ghost use Rattle.retired_paths.specs.Retired.{TakesBench, TakesNoBench};
ghost use Rattle.run_file.specs.Parts.{IsBench};
ghost use Rattle.run_file.specs.Refusals.{most_text};
ghost use Rattle.answer_lines.specs.BenchLine.{bench_line};
ghost use Rattle.trace_io.specs.Bytes.{TakesAtMost};
ghost use Rattle.trace_io.specs.Causes.{KeepsFaults, Rose};
ghost use Rattle.trace_io.specs.Calls.{Lasts};

use answer_lines::{Status, write_bench_bad};
use run_file::{Bench, BenchFault, BenchWhy};
use std::alloc::Global;
use trace_io::{Failed, ReadAllFault, Sink, Source, read_all};

/// The longest text of a run file, in bytes: 64 MiB.
const MOST_TEXT: usize = 64 << 20;

/// Why no run file was read.
#[derive(Clone, Copy, Debug)]
pub enum Unread {
    /// Its text is bad.
    Bad { line: u64, why: BenchWhy },
    /// A read failed.
    ReadFault,
    /// Memory is wanting.
    Memory,
}

/// Reads a run file: all that the input has left, at most 64 MiB. Its text is put into `text`, which it borrows.
pub fn read_bench<'a, J: Source>(
    alloc: Global,
    input: &mut J,
    text: &'a mut Vec<u8>,
) -> Result<Bench<'a>, Unread>
    ensures ok { IfOk result (TakesBench (J.state input.old) (J.state input.new)) }
    ensures parts { IfOk result IsBench }
    ensures bad { (line : ℕ) (why : BenchWhy) → result ≡ Err (Unread.Bad line why)
        → TakesNoBench (J.state input.old) (J.state input.new) line why }
    ensures taken { TakesAtMost (J.state input.old) (J.state input.new) (most_text + 1) }
    ensures kept { IsErrOf result Unread.ReadFault ⊎ KeepsFaults (J.state input.old) (J.state input.new) }
    ensures failed { IsErrOf result Unread.ReadFault → Rose (J.state input.old) (J.state input.new) }
    ensures lasts { Lasts (J.state input.old) (J.state input.new) }
{
    *text = match read_all(alloc, input, MOST_TEXT) {
        Ok(text) => text,
        Err(ReadAllFault::Failed) => return Err(Unread::ReadFault),
        Err(ReadAllFault::TooLong) => {
            return Err(Unread::Bad {
                line: 0,
                why: BenchWhy::TooLong,
            });
        }
        Err(ReadAllFault::Memory) => return Err(Unread::Memory),
    };
    match Bench::read(alloc, text) {
        Ok(bench) => Ok(bench),
        Err(BenchFault::Bad { line, why }) => Err(Unread::Bad { line, why }),
        Err(BenchFault::Memory) => Err(Unread::Memory),
    }
}

/// Says why a run file is bad.
pub fn refuse<K: Sink>(line: u64, why: BenchWhy, out: &mut K) -> Result<Status, Failed>
    ensures written { Writes (K.state out.old) (K.state out.new) result (bench_line line why) }
    ensures status { IfOk result (λ status. status ≡ Status.BenchBad line why) }
{
    write_bench_bad(line, &why, out)?;
    Ok(Status::BenchBad { line, why })
}
