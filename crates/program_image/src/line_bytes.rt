//! The bytes that a line spells.
ghost use Rattle.std.specs.Prelude.{◌≡◌, ◌++◌, option_map};
ghost use Rattle.std.specs.Option.{ok_or};
ghost use Rattle.std.specs.Result.{result_ok};
ghost use Rattle.hex.specs.Hex.{decode_of};
ghost use Rattle.line_words.specs.Line.{words_in};
ghost use Rattle.program_image.specs.ImageText.{bytes_of};
ghost use Rattle.program_image.specs.Answers.{Answers};

use crate::fault::{ImageWhy, LineFault};
use line_words::next_word;
use std::alloc::Global;

/// A line that is of no form.
pub const SYNTAX: LineFault = LineFault::Bad(ImageWhy::Syntax);

/// The bytes with those after them that hex digits spell.
fn with_digits(mut bytes: Vec<u8>, digits: &[u8]) -> Result<Vec<u8>, LineFault>
    ensures { Answers (λ v. v.items) result (ok_or (option_map (λ more. bytes.items ++ more) (result_ok (decode_of digits.now))) ImageWhy.Syntax) }
{
    let from = bytes.len();
    bytes
        .resize(from + digits.len() / 2, 0)
        .map_err(|_| LineFault::Memory)?;
    hex::decode_to_slice(digits, &mut bytes[from..]).map_err(|_| SYNTAX)?;
    Ok(bytes)
}

/// The bytes that the words of a line spell.
pub fn line_bytes(alloc: Global, line: &[u8]) -> Result<Vec<u8>, LineFault>
    ensures { Answers (λ v. v.items) result (ok_or (bytes_of (words_in line.now)) ImageWhy.Syntax) }
{
    let mut bytes = Vec::new(alloc);
    let mut rest = line;
    while let Some((word, after)) = next_word(rest) {
        bytes = with_digits(bytes, word)?;
        rest = after;
    }
    Ok(bytes)
}
