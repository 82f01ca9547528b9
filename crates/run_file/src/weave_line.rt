//! The words of a weave line.
ghost use Rattle.std.specs.Prelude.{◌≡◌};
ghost use Rattle.std.specs.Option.{option_map};
ghost use Rattle.line_words.specs.Line.{words_in};
ghost use Rattle.run_file.specs.Answers.{Answers};
ghost use Rattle.run_file.specs.BenchText.{weave, weave_of, weaves_of};
ghost use Rattle.run_file.specs.EventLines.{need};
ghost use Rattle.run_file.specs.OneWeave.{one_weave};

use crate::fault::{BenchWhy, LineFault};
use crate::line::Weave;
use crate::streams::Streams;
use etm_types::Id;
use line_words::{decimal, next_word, two_digits};

/// The most bytes of one weave.
const MOST_COUNT: u64 = 1 << 20;

/// Puts the weaves of a line behind the others. Of all words of the line the IDs are tested first, then the counts.
pub fn push_weaves(
    streams: &Streams,
    weaves: &mut Vec<Weave>,
    words: &[u8],
) -> Result<(), LineFault>
    ensures { Answers (λ _. weaves.new.items) result
        (need (weaves_of (words_in words.now)) (weave streams.now.streams weaves.old.items)) }
{
    let mut declared = true;
    let mut within = true;
    let mut rest = words;
    while let Some((word, after)) = next_word(rest) {
        match one_weave(streams, word) {
            Ok(weave) => weaves.push(weave).map_err(|_| LineFault::Memory)?,
            Err(BenchWhy::IdRange) => declared = false,
            Err(BenchWhy::Range) => within = false,
            Err(why) => return Err(LineFault::Bad(why)),
        }
        rest = after;
    }
    if !declared {
        return Err(LineFault::Bad(BenchWhy::IdRange));
    }
    if !within {
        return Err(LineFault::Bad(BenchWhy::Range));
    }
    Ok(())
}

/// The weave of a word.
fn one_weave(streams: &Streams, word: &[u8]) -> Result<Weave, BenchWhy>
    ensures { result ≡ one_weave streams.now.streams word.now }
{
    let (id, count) = weave_of(word).ok_or(BenchWhy::Syntax)?;
    if !streams.has(id) {
        return Err(BenchWhy::IdRange);
    }
    if count == 0 || count > MOST_COUNT {
        return Err(BenchWhy::Range);
    }
    let id = Id::new(id).ok_or(BenchWhy::IdRange)?;
    let count = count as u32;
    Ok(Weave { id, count })
}

/// The ID and the count of a word `ID:COUNT`.
fn weave_of(word: &[u8]) -> Option<(u8, u64)>
    ensures { option_map (λ pair. record { id = pair.0; count = pair.1 }) result ≡ weave_of word.now }
{
    let [high, low, b':', digits @ ..] = word else {
        return None;
    };
    let id = two_digits(&[*high, *low])?;
    let count = decimal(digits)?;
    Some((id, count))
}
