//! The line of usage.
ghost use Rattle.answer_lines.specs.UsageLine.{usage_line};
ghost use Rattle.path_text.specs.Writing.{Writes};

use trace_io::{Failed, Sink, write_all};

/// The line that is printed where the words have no meaning.
const USAGE: [u8; 53] = *b"usage: etm path|packets|trace|retired|selftest|times\n";

/// Writes the line of usage.
pub fn write_usage<K: Sink>(out: &mut K) -> Result<(), Failed>
    ensures { Writes (K.state out.old) (K.state out.new) result usage_line }
{
    write_all(out, &USAGE)
}
