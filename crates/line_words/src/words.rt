//! The words of a line.
ghost use Rattle.std.specs.Prelude.{◌≡◌, ◌<◌, ◌≤◌, ◌∷◌, [], length, IfSome, MatchOption, not, position};
ghost use Rattle.std.specs.List.{position_or_len};
ghost use Rattle.line_words.specs.Line.{is_blank, words_in};

fn is_blank(byte: u8) -> bool
    ensures { result ≡ is_blank byte }
{
    byte == b' ' || byte == b'\t'
}

/// Where the first word of a line begins.
fn word_start(line: &[u8]) -> Option<usize>
    ensures { result ≡ position (λ byte. not (is_blank byte)) line.now }
{
    line.iter().position(|byte| !is_blank(*byte))
}

fn first_blank(line: &[u8]) -> Option<usize>
    ensures { result ≡ position is_blank line.now }
{
    line.iter().position(|byte| is_blank(*byte))
}

/// Where the word at the front of a line ends.
fn word_end(line: &[u8]) -> usize
    ensures value { result ≡ position_or_len is_blank line.now }
    ensures within { result ≤ length line.now }
{
    first_blank(line).unwrap_or(line.len())
}

/// The first word of a line, and the line after it.
pub fn next_word(line: &[u8]) -> Option<(&[u8], &[u8])>
    ensures words { MatchOption result (words_in line.now ≡ []) (λ found. words_in line.now ≡ found.0.now ∷ words_in found.1.now) }
    ensures shorter { IfSome result (λ found. length found.1.now < length line.now) }
{
    let line = &line[word_start(line)?..];
    Some(line.split_at(word_end(line)))
}
