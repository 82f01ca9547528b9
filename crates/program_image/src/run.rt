//! A run of plain words and what stands behind it, as contracts see it and as the table of an image keeps it.
ghost use Rattle.std.specs.Prelude.{◌≡◌};
ghost use Rattle.program_image.specs.Runs.{class_behind, no_word, run_of};

use a64_branches::Class;
use std::marker::Model;

/// The most bytes that an entry of a table takes.
const MOST_ENTRY: usize = 12;

const _: () = prove!(size_of::<TableEntry>() <= MOST_ENTRY);

/// How many plain words there are from a word on, and the class of the word behind them: none where no word begins there.
#[derive(Clone, Copy, Debug, PartialEq, Eq)]
pub struct PlainRun {
    pub plain: u32,
    pub class: Option<Class>,
}

impl PlainRun {
    /// The run where no word begins.
    pub fn no_word() -> PlainRun
        ensures { result ≡ no_word }
    {
        PlainRun {
            plain: 0,
            class: None,
        }
    }
}

/// The word behind plain words: an `Option<Class>` in 8 bytes, one variant for each that a walk tells apart. Offsets are in bytes.
#[derive(Clone, Copy, Debug, PartialEq, Eq)]
pub enum WordBehind {
    NoWord,
    PlainWord,
    Branch { off: i32 },
    BranchWithLink { off: i32 },
    BranchConditionally { off: i32 },
    Barrier,
    BranchToRegister,
    BranchWithLinkToRegister,
    ExceptionReturn,
    NotRead,
}

impl WordBehind {
    /// The word of a class.
    fn of(class: Option<Class>) -> WordBehind
        ensures { class_behind result ≡ class }
    {
        match class {
            None => WordBehind::NoWord,
            Some(Class::Plain) => WordBehind::PlainWord,
            Some(Class::Jump { off, link: false }) => WordBehind::Branch { off },
            Some(Class::Jump { off, link: true }) => WordBehind::BranchWithLink { off },
            Some(Class::Cond { off }) => WordBehind::BranchConditionally { off },
            Some(Class::Isb) => WordBehind::Barrier,
            Some(Class::Ind { link: false }) => WordBehind::BranchToRegister,
            Some(Class::Ind { link: true }) => WordBehind::BranchWithLinkToRegister,
            Some(Class::Eret) => WordBehind::ExceptionReturn,
            Some(Class::Odd) => WordBehind::NotRead,
        }
    }

    /// Its class, where one begins there.
    #[inline(always)]
    pub fn class(self) -> Option<Class>
        ensures { result ≡ class_behind self }
    {
        match self {
            WordBehind::NoWord => None,
            WordBehind::PlainWord => Some(Class::Plain),
            WordBehind::Branch { off } => Some(Class::Jump { off, link: false }),
            WordBehind::BranchWithLink { off } => Some(Class::Jump { off, link: true }),
            WordBehind::BranchConditionally { off } => Some(Class::Cond { off }),
            WordBehind::Barrier => Some(Class::Isb),
            WordBehind::BranchToRegister => Some(Class::Ind { link: false }),
            WordBehind::BranchWithLinkToRegister => Some(Class::Ind { link: true }),
            WordBehind::ExceptionReturn => Some(Class::Eret),
            WordBehind::NotRead => Some(Class::Odd),
        }
    }
}

/// The plain words from one of an image on, and the word behind them, as the table of the image keeps them: a walk needs no more.
#[derive(Clone, Copy, Debug, PartialEq, Eq)]
pub struct WordRun {
    /// How many plain words there are.
    pub plain: u32,
    pub behind: WordBehind,
}

/// The run from a word on, with the place of that word among all words of the image.
#[derive(Clone, Copy, Debug, PartialEq, Eq)]
pub struct PlacedRun {
    pub place: usize,
    /// The place of the word's part among the parts: what is looked at first for the next word.
    pub part: usize,
    pub run: WordRun,
}

/// A run as the table of an image keeps it. Contracts see the run.
#[derive(Drop)]
pub struct TableEntry {
    plain: u32,
    behind: WordBehind,
}

impl Model for TableEntry {
    ghost use Rattle.program_image.specs.declared.run.PlainRun.{PlainRun};
    ghost use Rattle.program_image.specs.Runs.{class_behind};

    ghost Value = { PlainRun };

    ghost view = { λ entry. record { plain = entry.plain; class = class_behind entry.behind } };
}

impl TableEntry {
    /// The entry of a run.
    pub fn new(run: PlainRun) -> TableEntry
        ensures { result ≡ run }
    {
        TableEntry {
            plain: run.plain,
            behind: WordBehind::of(run.class),
        }
    }

    /// Its run, as it is kept.
    #[inline(always)]
    pub fn kept(&self) -> WordRun
        ensures { run_of result ≡ self.now }
    {
        WordRun {
            plain: self.plain,
            behind: self.behind,
        }
    }

    /// Its run.
    pub fn run(&self) -> PlainRun
        ensures { result ≡ self.now }
    {
        PlainRun {
            plain: self.plain,
            class: self.behind.class(),
        }
    }
}
