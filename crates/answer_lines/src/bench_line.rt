//! The line of a run file that is bad.
ghost use Rattle.std.specs.Prelude.{◌≡◌, ◌+◌, ◌++◌, length};
ghost use Rattle.path_text.specs.Lines.{AddsAtMost, HasRoom};
ghost use Rattle.path_text.specs.Writing.{Writes};
ghost use Rattle.answer_lines.specs.BenchLine.{bench_line, bench_why_text, fault_text, two_counts, at_address};

use path_text::Line;
use run_file::BenchWhy;
use spec_run::RunFault;
use trace_io::{Failed, Sink};

/// Writes the line of a run file that is bad.
pub fn write_bench_bad<K: Sink>(line: u64, why: &BenchWhy, out: &mut K) -> Result<(), Failed>
    ensures { Writes (K.state out.old) (K.state out.new) result (bench_line line why.now) }
{
    let mut text = Line::new();
    text.text(b"bench line ");
    text.decimal(line);
    text.text(b": ");
    add_why(&mut text, why);
    text.write(out)
}

/// Adds the reason.
fn add_why(text: &mut Line, why: &BenchWhy)
    requires { HasRoom 48 text.old }
    ensures value { text.new ≡ text.old ++ bench_why_text why.now }
    ensures short { AddsAtMost 48 text.old text.new }
{
    match why {
        BenchWhy::Header => text.text(b"header"),
        BenchWhy::Syntax => text.text(b"syntax"),
        BenchWhy::IdRange => text.text(b"id-range"),
        BenchWhy::DuplicateId => text.text(b"duplicate-id"),
        BenchWhy::Range => text.text(b"range"),
        BenchWhy::TooLong => text.text(b"too-long"),
        BenchWhy::Run(fault) => add_fault(text, fault),
    }
}

/// Adds a refusal, with its numbers.
fn add_fault(text: &mut Line, fault: &RunFault)
    requires { HasRoom 48 text.old }
    ensures value { text.new ≡ text.old ++ fault_text fault.now }
    ensures short { AddsAtMost 48 text.old text.new }
{
    match *fault {
        RunFault::NotOn => text.text(b"not-on"),
        RunFault::AlreadyOn => text.text(b"already-on"),
        RunFault::WrongKind(addr) => add_address(text, b"wrong-kind", addr),
        RunFault::NoCode(addr) => add_address(text, b"no-code", addr),
        RunFault::Odd(addr) => add_address(text, b"odd", addr),
        RunFault::Unaligned(addr) => add_address(text, b"unaligned", addr),
        RunFault::TooDeep { p0, depth } => add_counts(text, b"too-deep", p0, depth),
        RunFault::RetireTooMany { asked, held } => add_counts(
            text,
            b"retire-too-many",
            asked,
            held,
        ),
        RunFault::CancelTooMany { asked, held } => add_counts(
            text,
            b"cancel-too-many",
            asked,
            held,
        ),
        RunFault::NoBranchToFlip => text.text(b"no-branch"),
        RunFault::ContextPlace => text.text(b"context-place"),
        RunFault::WindowFull => text.text(b"window-full"),
    }
}

/// Adds a word and an address.
fn add_address(text: &mut Line, word: &[u8], addr: u64)
    requires { HasRoom (length word.now + 17) text.old }
    ensures value { text.new ≡ text.old ++ at_address word.now addr }
    ensures short { AddsAtMost (length word.now + 17) text.old text.new }
{
    text.text(word);
    text.text(b" ");
    text.hex(addr);
}

/// Adds a word and two numbers.
fn add_counts(text: &mut Line, word: &[u8], a: u32, b: u32)
    requires { HasRoom (length word.now + 22) text.old }
    ensures value { text.new ≡ text.old ++ two_counts word.now a b }
    ensures short { AddsAtMost (length word.now + 22) text.old text.new }
{
    text.text(word);
    text.text(b" ");
    text.decimal_u32(a);
    text.text(b" ");
    text.decimal_u32(b);
}
