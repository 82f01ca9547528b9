//! The versions of run files.
ghost use Rattle.std.specs.Prelude.{◌≡◌};
ghost use Rattle.run_file.specs.GivenSettings.{most_run_depth};

/// The greatest depth of speculation in run files of the first version.
const MOST_DEPTH_OF_ONE: u64 = 4096;

/// The greatest depth of speculation that a trace unit may have.
const MOST_DEPTH: u64 = 16384;

/// The version of a run file, which its header names.
#[derive(Clone, Copy)]
pub enum Version {
    /// `etm 1`: all streams have the settings of the file.
    One,
    /// `etm 2`: a stream may have settings of its own.
    Two,
}

impl Version {
    /// The greatest depth of speculation that a run file of this version may give.
    pub fn most_depth(self) -> u64
        ensures { result ≡ most_run_depth self }
    {
        match self {
            Version::One => MOST_DEPTH_OF_ONE,
            Version::Two => MOST_DEPTH,
        }
    }
}
