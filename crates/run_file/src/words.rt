//! The words of a line that are read in one way wherever they stand.
ghost use Rattle.std.specs.Prelude.{◌≡◌};
ghost use Rattle.std.specs.Option.{option_map};
ghost use Rattle.line_words.specs.Line.{words_in};
ghost use Rattle.run_file.specs.EventLines.{only_number, only_short_number, only_word};

use line_words::{decimal, next_word, short_number};

/// The word of a line that is alone there.
pub fn only_word(words: &[u8]) -> Option<&[u8]>
    ensures { option_map (λ word. word.now) result ≡ only_word (words_in words.now) }
{
    let (word, rest) = next_word(words)?;
    match next_word(rest) {
        Some(_) => None,
        None => Some(word),
    }
}

/// The decimal number that is alone on a line.
pub fn only_number(words: &[u8]) -> Option<u64>
    ensures { result ≡ only_number (words_in words.now) }
{
    decimal(only_word(words)?)
}

/// The number of 1 to 8 hex digits that is alone on a line.
pub fn only_short_number(words: &[u8]) -> Option<u32>
    ensures { result ≡ only_short_number (words_in words.now) }
{
    short_number(only_word(words)?)
}
