//! The summary of a number that was tried.
ghost use Rattle.std.specs.Prelude.{◌≡◌, ◌≤◌};
ghost use Rattle.answer_lines.specs.SummaryLine.{summary_line, word_of};
ghost use Rattle.path_text.specs.Writing.{Writes};

use bench_gen::{round_count, stream_count};
use path_text::Line;
use trace_io::{Failed, Sink};

/// The last word of a summary: whether frames were cut.
fn last_word(cut: Option<u32>) -> &'static [u8]
    ensures { result.now ≡ word_of cut }
{
    if cut.is_some() { b"cut" } else { b"same" }
}

/// Writes the summary of a number, 0 to 99,999: its streams and rounds, the lines that were counted, and whether frames were cut.
pub fn write_summary<K: Sink>(
    number: u32,
    cut: Option<u32>,
    lines: usize,
    out: &mut K,
) -> Result<(), Failed>
    requires { number ≤ 99999 }
    ensures { Writes (K.state out.old) (K.state out.new) result (summary_line number cut lines) }
{
    let mut text = Line::new();
    text.text(b"selftest ");
    text.decimal_u32(number);
    text.text(b": ");
    text.decimal_u32(u32::from(stream_count(number)));
    text.text(b" streams, ");
    text.decimal_u32(round_count(number));
    text.text(b" rounds, ");
    text.decimal(lines as u64);
    text.text(b" lines, ");
    text.text(last_word(cut));
    text.write(out)
}
