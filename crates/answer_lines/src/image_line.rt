//! The line of an image that is bad.
ghost use Rattle.path_text.specs.Writing.{Writes};
ghost use Rattle.answer_lines.specs.ImageLine.{image_line};

use path_text::Line;
use program_image::ImageWhy;
use trace_io::{Failed, Sink};

/// Writes the line of an image that is bad.
pub fn write_image_bad<K: Sink>(line: u64, why: ImageWhy, out: &mut K) -> Result<(), Failed>
    ensures { Writes (K.state out.old) (K.state out.new) result (image_line line why) }
{
    let mut text = Line::new();
    text.text(b"image line ");
    text.decimal(line);
    text.text(b": ");
    text.text(why.text().as_bytes());
    text.write(out)
}
