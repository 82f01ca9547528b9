//! What the lines of a run file say, one line after another.
ghost use Rattle.std.specs.Prelude.{◌≡◌, ◌∷◌, Ok, Some, IfOk, IfSome};
ghost use Rattle.line_words.specs.Line.{words_in};
ghost use Rattle.run_file.specs.Answers.{Answers};
ghost use Rattle.run_file.specs.Parts.{IsBench};
ghost use Rattle.run_file.specs.BenchText.{add_behind, add_event, add_line, add_setting, add_stream, add_weaves, add_words};
ghost use Rattle.run_file.specs.BenchText.{before_streams, declaration_of, header, kind_of, no_lines, own_of, parts_of};
ghost use Rattle.run_file.specs.EventLines.{then_ok};
ghost use Rattle.run_file.specs.Kept.{draft_in, drafts_in};
ghost use Rattle.run_file.specs.Places.{words_at};

use crate::bench::Bench;
use crate::fault::{BenchWhy, LineFault};
use crate::given::Given;
use crate::line::{Declaration, LineKind, Weave};
use crate::place::LineStart;
use crate::setting::Setting;
use crate::streams::Streams;
use crate::version::Version;
use crate::weave_line::push_weaves;
use crate::words::{only_number, only_word};
use etm_types::Id;
use line_words::{is_utf8, next_word, two_digits};
use std::alloc::Global;
use std::marker::Model;

/// A line that is of no form, or out of its place.
const SYNTAX: LineFault = LineFault::Bad(BenchWhy::Syntax);

/// A number outside its range.
const RANGE: LineFault = LineFault::Bad(BenchWhy::Range);

/// What the header and the lines behind it said so far.
#[derive(Drop)]
pub struct Draft<'a> {
    version: Version,
    /// The file's own settings.
    given: Given,
    streams: Streams<'a>,
    weaves: Vec<Weave>,
}

impl<'a> Model for Draft<'a> {
    ghost use Rattle.run_file.specs.Kept.{TextDraft};

    ghost Value = { TextDraft };

    ghost use Rattle.run_file.specs.Kept.{draft_of};

    ghost view = { draft_of };

    ghost use Rattle.run_file.specs.GivenSettings.{IsGiven};

    ghost invariant = { λ d. IsGiven d.given };
}

/// Takes one line more of a text; nothing was said before the header.
pub fn take_line<'a>(
    alloc: Global,
    text: &'a [u8],
    draft: &mut Option<Draft<'a>>,
    place: LineStart,
    line: &[u8],
) -> Result<(), LineFault>
    requires place { words_at text.now place ≡ words_in line.now }
    requires text { IfSome draft.old (λ d. d.text ≡ text.now) }
    ensures line { Answers (λ _. drafts_in draft.new) result (add_line place.number (drafts_in draft.old) line.now) }
    ensures text { IfSome draft.new (λ d. d.text ≡ text.now) }
{
    if !is_utf8(line) {
        return Err(SYNTAX);
    }
    let Some((word, rest)) = next_word(line) else {
        return Ok(());
    };
    if let [b'#', ..] = word {
        return Ok(());
    }
    take_behind(alloc, text, draft, place, word, rest)
}

/// Takes a line that has words: the first is the header.
fn take_behind<'a>(
    alloc: Global,
    text: &'a [u8],
    draft: &mut Option<Draft<'a>>,
    place: LineStart,
    word: &[u8],
    rest: &[u8],
) -> Result<(), LineFault>
    requires place { words_at text.now place ≡ word.now ∷ words_in rest.now }
    requires text { IfSome draft.old (λ d. d.text ≡ text.now) }
    ensures line { Answers (λ _. drafts_in draft.new) result
        (then_ok (add_behind place.number (drafts_in draft.old) word.now (words_in rest.now)) (λ d. Ok (Some d))) }
    ensures text { IfSome draft.new (λ d. d.text ≡ text.now) }
{
    match draft {
        Some(draft) => draft.take_words(alloc, place, word, rest),
        None => {
            *draft = Some(header(alloc, text, word, rest)?);
            Ok(())
        }
    }
}

fn header<'a>(
    alloc: Global,
    text: &'a [u8],
    word: &[u8],
    rest: &[u8],
) -> Result<Draft<'a>, LineFault>
    ensures line { Answers draft_in result (header word.now (words_in rest.now)) }
    ensures text { IfOk result (λ d. d.text ≡ text.now) }
{
    match (word, only_word(rest)) {
        (b"etm", Some(b"1")) => Ok(Draft::new(alloc, text, Version::One)),
        (b"etm", Some(b"2")) => Ok(Draft::new(alloc, text, Version::Two)),
        _ => Err(LineFault::Bad(BenchWhy::Header)),
    }
}

fn kind_of(word: &[u8]) -> LineKind
    ensures { result ≡ kind_of word.now }
{
    if let Some(setting) = Setting::named(word) {
        return LineKind::Setting(setting);
    }
    match word {
        b"stream" => LineKind::Stream,
        b"weave" => LineKind::Weaves,
        _ => LineKind::Event,
    }
}

/// What the words of a line that declares a stream say: its ID, and settings of its own where the version has them.
fn declaration_of(version: Version, words: &[u8]) -> Option<Declaration>
    ensures { result ≡ declaration_of version (words_in words.now) }
{
    let (word, rest) = next_word(words)?;
    let id = two_digits(word)?;
    let own = own_of(version, rest)?;
    Some(Declaration { id, own })
}

/// The settings of its own that a line gives a stream behind its ID.
fn own_of(version: Version, words: &[u8]) -> Option<Given>
    ensures { result ≡ own_of version (words_in words.now) }
{
    match version {
        Version::One if next_word(words).is_some() => None,
        Version::One => Some(Given::nothing()),
        Version::Two => Given::in_pairs(words),
    }
}

impl<'a> Draft<'a> {
    /// No line behind the header.
    fn new(alloc: Global, text: &'a [u8], version: Version) -> Draft<'a>
        ensures { result ≡ record { text = text.now; draft = no_lines version } }
    {
        Draft {
            version,
            given: Given::nothing(),
            streams: Streams::new(alloc, text),
            weaves: Vec::new(alloc),
        }
    }

    /// Takes a line behind the header, by its words.
    fn take_words(
        &mut self,
        alloc: Global,
        place: LineStart,
        word: &[u8],
        rest: &[u8],
    ) -> Result<(), LineFault>
        requires { words_at self.old.text place ≡ word.now ∷ words_in rest.now }
        ensures line { Answers (λ _. self.new.draft) result (add_words place.number self.old.draft word.now (words_in rest.now)) }
        ensures text { self.new.text ≡ self.old.text }
    {
        match kind_of(word) {
            LineKind::Setting(setting) => self.take_setting(setting, rest),
            LineKind::Stream => self.take_stream(alloc, rest),
            LineKind::Weaves => self.take_weaves(rest),
            LineKind::Event => self.take_event(place, word, rest),
        }
    }

    /// Whether no stream came yet, and no weave.
    fn before_streams(&self) -> bool
        ensures { result ≡ before_streams self.now.draft }
    {
        self.streams.is_empty() && self.weaves.is_empty()
    }

    /// Takes a line that gives a setting of the file.
    fn take_setting(&mut self, setting: Setting, words: &[u8]) -> Result<(), LineFault>
        ensures line { Answers (λ _. self.new.draft) result (add_setting setting self.old.draft (words_in words.now)) }
        ensures text { self.new.text ≡ self.old.text }
    {
        if !self.before_streams() || self.given.number(setting).is_some() {
            return Err(SYNTAX);
        }
        let number = only_number(words).ok_or(SYNTAX)?;
        if !setting.allows(self.version, number) {
            return Err(RANGE);
        }
        self.given = self.given.with(setting, number);
        Ok(())
    }

    /// Takes a line that declares a stream.
    fn take_stream(&mut self, alloc: Global, words: &[u8]) -> Result<(), LineFault>
        ensures line { Answers (λ _. self.new.draft) result (add_stream self.old.draft (words_in words.now)) }
        ensures text { self.new.text ≡ self.old.text }
    {
        if !self.weaves.is_empty() {
            return Err(SYNTAX);
        }
        let new = declaration_of(self.version, words).ok_or(SYNTAX)?;
        if Id::new(new.id).is_none() {
            return Err(LineFault::Bad(BenchWhy::IdRange));
        }
        if self.streams.has(new.id) {
            return Err(LineFault::Bad(BenchWhy::DuplicateId));
        }
        if !new.own.are_allowed(self.version) {
            return Err(RANGE);
        }
        let all = new.own.or(&self.given);
        self.streams
            .declare(alloc, new.id, all.settings(), all.stack())
            .map_err(|_| LineFault::Memory)?;
        Ok(())
    }

    /// Takes an event line of the newest stream: behind a weave there are none.
    fn take_event(&mut self, place: LineStart, word: &[u8], rest: &[u8]) -> Result<(), LineFault>
        requires { words_at self.old.text place ≡ word.now ∷ words_in rest.now }
        ensures line { Answers (λ _. self.new.draft) result (add_event place.number self.old.draft word.now (words_in rest.now)) }
        ensures text { self.new.text ≡ self.old.text }
    {
        if self.weaves.is_empty() {
            self.streams.push_event(place, word, rest)?;
            Ok(())
        } else {
            Err(SYNTAX)
        }
    }

    /// Takes a weave line.
    fn take_weaves(&mut self, words: &[u8]) -> Result<(), LineFault>
        ensures line { Answers (λ _. self.new.draft) result (add_weaves self.old.draft (words_in words.now)) }
        ensures text { self.new.text ≡ self.old.text }
    {
        if next_word(words).is_none() {
            return Err(SYNTAX);
        }
        push_weaves(&self.streams, &mut self.weaves, words)?;
        Ok(())
    }

    /// The parts of a run file.
    pub fn into_bench(self) -> Bench<'a>
        requires { IsBench (parts_of self.draft) }
        ensures { result ≡ parts_of self.entry.draft }
    {
        let Draft {
            streams,
            weaves,
            ..
        } = self;
        Bench::new(streams, weaves)
    }
}
