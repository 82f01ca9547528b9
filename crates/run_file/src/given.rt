//! The numbers that are given for settings: by the lines of a run file for all streams, or by one line for its stream.
ghost use Rattle.std.specs.Prelude.{◌≡◌};
ghost use Rattle.std.specs.Option.{option_map};
ghost use Rattle.line_words.specs.Line.{words_in};
ghost use Rattle.run_file.specs.GivenSettings.{IsGiven, are_allowed, given_or, give, is_none_or_allowed};
ghost use Rattle.run_file.specs.GivenSettings.{nothing_given, number_given, pairs_in, sizes_of, stack_of, with_number};

use crate::setting::Setting;
use crate::version::Version;
use etm_types::Settings;
use line_words::{decimal, next_word};

/// The depth of return stacks where none is given.
const STACK: usize = 15;

/// The number of each setting, where one is given.
#[derive(Clone, Copy)]
pub struct Given {
    pub depth: Option<u64>,
    pub vmid_bytes: Option<u64>,
    pub cid_bytes: Option<u64>,
    pub stack: Option<u64>,
}

impl Given {
    pub fn nothing() -> Given
        ensures { result ≡ nothing_given }
    {
        Given {
            depth: None,
            vmid_bytes: None,
            cid_bytes: None,
            stack: None,
        }
    }

    /// What pairs of words give, each the name of a setting and its number. None where a word is neither, or a setting
    /// has two numbers.
    pub fn in_pairs(words: &[u8]) -> Option<Given>
        ensures { result ≡ pairs_in nothing_given (words_in words.now) }
    {
        let mut given = Given::nothing();
        let mut rest = words;
        while let Some((name, behind)) = next_word(rest) {
            let setting = Setting::named(name)?;
            let (digits, after) = next_word(behind)?;
            given = given.give(setting, decimal(digits)?)?;
            rest = after;
        }
        Some(given)
    }

    /// The number of a setting.
    pub fn number(&self, setting: Setting) -> Option<u64>
        ensures { result ≡ number_given setting self.now }
    {
        match setting {
            Setting::Depth => self.depth,
            Setting::VmidBytes => self.vmid_bytes,
            Setting::CidBytes => self.cid_bytes,
            Setting::Stack => self.stack,
        }
    }

    /// The same with this number of a setting.
    pub fn with(mut self, setting: Setting, number: u64) -> Given
        ensures { result ≡ with_number setting number self }
    {
        match setting {
            Setting::Depth => self.depth = Some(number),
            Setting::VmidBytes => self.vmid_bytes = Some(number),
            Setting::CidBytes => self.cid_bytes = Some(number),
            Setting::Stack => self.stack = Some(number),
        }
        self
    }

    /// The same with this number of a setting that has none yet.
    fn give(self, setting: Setting, number: u64) -> Option<Given>
        ensures { result ≡ give setting number self }
    {
        match self.number(setting) {
            Some(_) => None,
            None => Some(self.with(setting, number)),
        }
    }

    /// What is given here, and for other settings what is given there.
    pub fn or(self, file: &Given) -> Given
        ensures { result ≡ given_or self file.now }
    {
        Given {
            depth: self.depth.or(file.depth),
            vmid_bytes: self.vmid_bytes.or(file.vmid_bytes),
            cid_bytes: self.cid_bytes.or(file.cid_bytes),
            stack: self.stack.or(file.stack),
        }
    }

    /// Whether run files of a version may give these numbers.
    pub fn are_allowed(&self, version: Version) -> bool
        ensures { result ≡ are_allowed version self.now }
    {
        is_none_or_allowed(version, Setting::Depth, self.depth)
            && is_none_or_allowed(version, Setting::VmidBytes, self.vmid_bytes)
            && is_none_or_allowed(version, Setting::CidBytes, self.cid_bytes)
            && is_none_or_allowed(version, Setting::Stack, self.stack)
    }

    /// The sizes of a trace unit, by their defaults where none is given.
    pub fn settings(&self) -> Settings
        requires { IsGiven self.now }
        ensures { result ≡ sizes_of self.now }
    {
        let default = Settings::default();
        let depth = self.depth.map_or(default.depth(), |n| n as u32);
        let vmid_bytes = self.vmid_bytes.map_or(default.vmid_bytes(), |n| n as u8);
        let cid_bytes = self.cid_bytes.map_or(default.cid_bytes(), |n| n as u8);
        Settings::new(depth, vmid_bytes, cid_bytes).unwrap()
    }

    /// The depth of a trace unit's return stack, by its default where none is given.
    pub fn stack(&self) -> usize
        requires { IsGiven self.now }
        ensures { result ≡ stack_of self.now }
    {
        self.stack.map_or(STACK, |n| n as usize)
    }
}

/// Whether a setting may have the number, where one is given.
fn is_none_or_allowed(version: Version, setting: Setting, number: Option<u64>) -> bool
    ensures { result ≡ is_none_or_allowed version setting number }
{
    match number {
        Some(number) => setting.allows(version, number),
        None => true,
    }
}
