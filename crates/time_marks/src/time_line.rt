//! The lines of events and of P0 elements, with their timestamps.
ghost use Rattle.std.specs.Prelude.{◌≡◌, ◌++◌, codes};
ghost use Rattle.path_text.specs.Lines.{AddsAtMost, HasRoom};
ghost use Rattle.path_text.specs.Writing.{Writes};
ghost use Rattle.time_marks.specs.TimeLines.{stamp_text, time_line, time_text};

use etm_types::Id;
use path_text::Line;
use trace_io::{Failed, Sink};

/// A timestamp, where one is known.
pub type Stamp = Option<u64>;

/// What is printed in one line.
#[derive(Clone, Copy, Debug, PartialEq, Eq)]
pub enum TimeLine {
    /// An event packet, and the timestamp behind it.
    Event {
        /// Bit i is event i.
        events: u8,
        stamp: Stamp,
    },
    /// A P0 element that is committed, and the timestamp of its packet.
    P0 {
        /// How many were committed before it.
        number: u64,
        stamp: Stamp,
    },
}

/// Writes the line by one call.
pub fn write_time_line<K: Sink>(id: Id, line: &TimeLine, sink: &mut K) -> Result<(), Failed>
    ensures { Writes (K.state sink.old) (K.state sink.new) result (time_line id line.now) }
{
    let mut text = Line::begin(id);
    add_line(&mut text, line);
    text.write(sink)
}

/// Adds the text of a line.
fn add_line(text: &mut Line, line: &TimeLine)
    requires { HasRoom 44 text.old }
    ensures value { text.new ≡ text.old ++ time_text line.now }
    ensures short { AddsAtMost 44 text.old text.new }
{
    match *line {
        TimeLine::Event { events, stamp } => {
            text.text(b"event ");
            text.decimal_u8(events);
            add_stamp(text, stamp);
        }
        TimeLine::P0 { number, stamp } => {
            text.text(b"p0 ");
            text.decimal(number);
            add_stamp(text, stamp);
        }
    }
}

/// Adds a space, and a timestamp, or a dash where none is known.
fn add_stamp(text: &mut Line, stamp: Stamp)
    requires { HasRoom 21 text.old }
    ensures value { text.new ≡ text.old ++ (codes " " ++ stamp_text stamp) }
    ensures short { AddsAtMost 21 text.old text.new }
{
    text.text(b" ");
    match stamp {
        None => text.text(b"-"),
        Some(stamp) => text.decimal(stamp),
    }
}
