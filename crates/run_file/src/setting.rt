//! The settings of a trace unit, as a run file names them.
ghost use Rattle.std.specs.Prelude.{◌≡◌};
ghost use Rattle.run_file.specs.GivenSettings.{is_allowed, setting_named};

use crate::version::Version;

/// The greatest depth of a return stack.
const MOST_STACK: u64 = 15;

/// A setting of a trace unit.
#[derive(Clone, Copy)]
pub enum Setting {
    /// The depth of speculation.
    Depth,
    /// The size of VMIDs, in bytes.
    VmidBytes,
    /// The size of context IDs, in bytes.
    CidBytes,
    /// The depth of the return stack.
    Stack,
}

impl Setting {
    /// The setting that a word names.
    pub fn named(word: &[u8]) -> Option<Setting>
        ensures { result ≡ setting_named word.now }
    {
        match word {
            b"depth" => Some(Setting::Depth),
            b"vmid" => Some(Setting::VmidBytes),
            b"cid" => Some(Setting::CidBytes),
            b"stack" => Some(Setting::Stack),
            _ => None,
        }
    }

    /// Whether it may have this number in run files of a version.
    pub fn allows(self, version: Version, number: u64) -> bool
        ensures { result ≡ is_allowed version self number }
    {
        match self {
            Setting::Depth => number <= version.most_depth(),
            Setting::VmidBytes => matches!(number, 0 | 1 | 2 | 4),
            Setting::CidBytes => matches!(number, 0 | 4),
            Setting::Stack => number <= MOST_STACK,
        }
    }
}
