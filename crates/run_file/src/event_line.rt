//! The words of an event line.
ghost use Rattle.std.specs.Prelude.{◌≡◌, ℕ};
ghost use Rattle.line_words.specs.Line.{words_in};
ghost use Rattle.run_file.specs.EventLines.{address_of, alone, bare_of, context_of, count_of, described_of, event_of};
ghost use Rattle.run_file.specs.EventLines.{exception_of, fits, fitting, level_of, place_of, security_of, single_of};
ghost use Rattle.run_file.specs.EventLines.{steps_of, then_ok};

use crate::fault::BenchWhy;
use crate::line::Repeated;
use crate::words::{only_number, only_short_number, only_word};
use etm_types::{Ctx, Settings};
use line_words::{decimal, next_word, number, short_number};
use spec_run::Event;

/// How many kinds of exception there are.
const KINDS: u64 = 32;

/// The most times that an event comes, and the most steps that one event retires or cancels.
const MOST_STEPS: u64 = 65_535;

/// The event of a line, and how often it comes.
pub fn event_of(settings: &Settings, word: &[u8], words: &[u8]) -> Result<Repeated, BenchWhy>
    ensures { result ≡ event_of settings.now word.now (words_in words.now) }
{
    if word == b"step".as_slice() {
        let times = steps_of(words)?;
        let event = Event::Step;
        return Ok(Repeated { event, times });
    }
    let event = single_of(settings, word, words)?;
    Ok(Repeated { event, times: 1 })
}

/// The event of a line on which it comes once.
fn single_of(settings: &Settings, word: &[u8], words: &[u8]) -> Result<Event, BenchWhy>
    ensures { result ≡ single_of settings.now word.now (words_in words.now) }
{
    match bare_of(word) {
        Some(event) => alone(event, words),
        None => described_of(settings, word, words),
    }
}

/// The event of a word that is alone on its line.
fn bare_of(word: &[u8]) -> Option<Event>
    ensures { result ≡ bare_of word.now }
{
    match word {
        b"taken" => Some(Event::Taken),
        b"not" => Some(Event::NotTaken),
        b"flip" => Some(Event::Flip),
        b"sync" => Some(Event::Sync),
        b"overflow" => Some(Event::Overflow),
        b"off" => Some(Event::Off),
        _ => None,
    }
}

/// The event of a word that has others behind it. Those that come often are tested first.
fn described_of(settings: &Settings, word: &[u8], words: &[u8]) -> Result<Event, BenchWhy>
    ensures { result ≡ described_of settings.now word.now (words_in words.now) }
{
    match word {
        b"retire" => retire(words),
        b"to" => to(words),
        b"cancel" => cancel(words),
        b"exc" => exception_of(settings, words),
        b"eret" => eret(settings, words),
        b"on" => on(settings, words),
        b"context" => context(settings, words),
        _ => Err(BenchWhy::Syntax),
    }
}

/// The event, where no word is left.
fn alone(event: Event, words: &[u8]) -> Result<Event, BenchWhy>
    ensures { result ≡ alone event (words_in words.now) }
{
    match next_word(words) {
        Some(_) => Err(BenchWhy::Syntax),
        None => Ok(event),
    }
}

fn on(settings: &Settings, words: &[u8]) -> Result<Event, BenchWhy>
    ensures { result ≡ then_ok (place_of settings.now (words_in words.now)) (λ place. Ok (Event.On place.0 place.1)) }
{
    let (addr, ctx) = place_of(settings, words)?;
    Ok(Event::On { addr, ctx })
}

fn eret(settings: &Settings, words: &[u8]) -> Result<Event, BenchWhy>
    ensures { result ≡ then_ok (place_of settings.now (words_in words.now)) (λ place. Ok (Event.Eret place.0 place.1)) }
{
    let (addr, ctx) = place_of(settings, words)?;
    Ok(Event::Eret { addr, ctx })
}

fn to(words: &[u8]) -> Result<Event, BenchWhy>
    ensures { result ≡ then_ok (address_of (words_in words.now)) (λ addr. Ok (Event.To addr)) }
{
    let word = only_word(words).ok_or(BenchWhy::Syntax)?;
    let addr = number(word).ok_or(BenchWhy::Syntax)?;
    Ok(Event::To { addr })
}

fn context(settings: &Settings, words: &[u8]) -> Result<Event, BenchWhy>
    ensures { result ≡ then_ok (fitting settings.now (words_in words.now)) (λ ctx. Ok (Event.Context ctx)) }
{
    let ctx = fitting(settings, words)?;
    Ok(Event::Context { ctx })
}

fn retire(words: &[u8]) -> Result<Event, BenchWhy>
    ensures { result ≡ then_ok (count_of (words_in words.now)) (λ n. Ok (Event.Retire n)) }
{
    let count = count_of(words)?;
    Ok(Event::Retire(count))
}

fn cancel(words: &[u8]) -> Result<Event, BenchWhy>
    ensures { result ≡ then_ok (count_of (words_in words.now)) (λ n. Ok (Event.Cancel n)) }
{
    let count = count_of(words)?;
    Ok(Event::Cancel(count))
}

/// An address, and a context that fits the sizes.
fn place_of(settings: &Settings, words: &[u8]) -> Result<(u64, Ctx), BenchWhy>
    ensures { result ≡ place_of settings.now (words_in words.now) }
{
    let (word, rest) = next_word(words).ok_or(BenchWhy::Syntax)?;
    let addr = number(word).ok_or(BenchWhy::Syntax)?;
    let ctx = fitting(settings, rest)?;
    Ok((addr, ctx))
}

/// The exception of its kind, its handler's address and a context.
fn exception_of(settings: &Settings, words: &[u8]) -> Result<Event, BenchWhy>
    ensures { result ≡ exception_of settings.now (words_in words.now) }
{
    let (word, rest) = next_word(words).ok_or(BenchWhy::Syntax)?;
    let kind = decimal(word).ok_or(BenchWhy::Syntax)?;
    let (word, rest) = next_word(rest).ok_or(BenchWhy::Syntax)?;
    let addr = number(word).ok_or(BenchWhy::Syntax)?;
    let ctx = context_of(rest)?;
    if kind >= KINDS || !fits(settings, &ctx) {
        return Err(BenchWhy::Range);
    }
    let kind = kind as u8;
    Ok(Event::Exc { kind, addr, ctx })
}

/// How often `step` comes.
fn steps_of(words: &[u8]) -> Result<u32, BenchWhy>
    ensures { result ≡ steps_of (words_in words.now) }
{
    match next_word(words) {
        Some(_) => count_of(words),
        None => Ok(1),
    }
}

/// A count of 1 to 65,535.
fn count_of(words: &[u8]) -> Result<u32, BenchWhy>
    ensures { result ≡ count_of (words_in words.now) }
{
    let count = only_number(words).ok_or(BenchWhy::Syntax)?;
    if count == 0 || count > MOST_STEPS {
        return Err(BenchWhy::Range);
    }
    Ok(count as u32)
}

/// A context that fits the sizes.
fn fitting(settings: &Settings, words: &[u8]) -> Result<Ctx, BenchWhy>
    ensures { result ≡ fitting settings.now (words_in words.now) }
{
    let ctx = context_of(words)?;
    if !fits(settings, &ctx) {
        return Err(BenchWhy::Range);
    }
    Ok(ctx)
}

fn fits(settings: &Settings, ctx: &Ctx) -> bool
    ensures { result ≡ fits settings.now ctx.now }
{
    settings.fits(ctx)
}

/// The context of four words: exception level, security state, VMID and context ID.
fn context_of(words: &[u8]) -> Result<Ctx, BenchWhy>
    ensures { result ≡ context_of (words_in words.now) }
{
    let (level, rest) = next_word(words).ok_or(BenchWhy::Syntax)?;
    let (security, rest) = next_word(rest).ok_or(BenchWhy::Syntax)?;
    let (vmid, rest) = next_word(rest).ok_or(BenchWhy::Syntax)?;
    let el = level_of(level).ok_or(BenchWhy::Syntax)?;
    let ns = security_of(security).ok_or(BenchWhy::Syntax)?;
    let vmid = short_number(vmid).ok_or(BenchWhy::Syntax)?;
    let cid = only_short_number(rest).ok_or(BenchWhy::Syntax)?;
    Ok(Ctx { el, ns, vmid, cid })
}

/// The exception level of its word.
fn level_of(word: &[u8]) -> Option<u8>
    ensures { result ≡ level_of word.now }
{
    match word {
        b"el0" => Some(0),
        b"el1" => Some(1),
        b"el2" => Some(2),
        b"el3" => Some(3),
        _ => None,
    }
}

/// Whether the word is that of the Non-secure state.
fn security_of(word: &[u8]) -> Option<bool>
    ensures { result ≡ security_of word.now }
{
    match word {
        b"ns" => Some(true),
        b"s" => Some(false),
        _ => None,
    }
}
