//! Which of the P0 elements that are committed have a line.
ghost use Rattle.std.specs.Prelude.{◌≡◌, [], ◌∷◌, ◌++◌};
ghost use Rattle.time_marks.specs.TimeLines.{is_new, mark_line, shown_of};

use crate::time_line::{Stamp, TimeLine};

/// The P0 elements that are committed: how many, modulo 2^64, and the mark of the last of them.
#[derive(Clone, Copy, Debug, PartialEq, Eq)]
pub struct Shown {
    count: u64,
    last: Option<Stamp>,
}

impl Shown {
    ghost use Rattle.std.specs.Prelude.{List};
    ghost use Rattle.time_marks.specs.Stamps.{Stamp};

    /// None is committed yet.
    pub fn nothing() -> Shown
        ensures { result ≡ shown_of [] }
    {
        Shown {
            count: 0,
            last: None,
        }
    }

    /// One more is committed, with this mark. It has a line where it is the first, and where its mark is not that of the one before it.
    #[inline(always)]
    pub fn next(&mut self, mark: Stamp) -> Option<TimeLine>
        ensures line { result ≡ mark_line self.old mark }
        ensures next { (done : List Stamp) → self.old ≡ shown_of done → self.new ≡ shown_of (done ++ mark ∷ []) }
    {
        let number = self.count;
        let new = is_new(self.last, mark);
        self.count = number.wrapping_add(1);
        self.last = Some(mark);
        if new {
            Some(TimeLine::P0 {
                number,
                stamp: mark,
            })
        } else {
            None
        }
    }
}

/// Whether a mark is another one than that before it.
#[inline(always)]
fn is_new(last: Option<Stamp>, mark: Stamp) -> bool
    ensures { result ≡ is_new last mark }
{
    match (last, mark) {
        (None, _) | (Some(None), Some(_)) | (Some(Some(_)), None) => true,
        (Some(None), None) => false,
        (Some(Some(a)), Some(b)) => a != b,
    }
}
