//! What the definitions of what is printed of many streams are as a whole.
ghost use Rattle.std.specs.Prelude.{ℕ};
ghost use Rattle.capture_streams.specs.Demuxed.{raw_pairs};
ghost use Rattle.capture_streams.specs.Laws.{BodiesJoin, BodiesPart, BytesJoin, EachIsALine, FrontsBegin, FrontsOfPathsBegin, OneBody, OneEnding};
ghost use Rattle.capture_streams.specs.Laws.{OneSum, OneText, OneTextOfPaths, OthersDoNotCount, OthersHaveNone, PathIsAlone, RawIsOfNoOther, SumsJoin};
ghost use Rattle.capture_streams.specs.Laws.{RawIsOfOne, SomeBody, SomeEnding, SomeText, SomeTextOfPaths, SourceIsAlone, ZerosAreOfNone};
ghost use Rattle.capture_streams.specs.Texts.{by_sizes};
ghost use Rattle.etm_types.specs.Settings.{Sizes};
ghost use Rattle.formatter_frames.specs.Unframed.{unframed};

use crate::stream::Stream;

/// A stream has its bytes in the order in which they come. The zeros that fill a frame are of no source, and bytes that are not
/// framed are all of one stream.
pub fn bytes_are_parted()
    ensures joined { BytesJoin }
    ensures zeros { ZerosAreOfNone }
    ensures raw { RawIsOfOne }
    ensures other { RawIsOfNoOther }
{}

/// What pairs print before the ends is what the first of them print, and then what the others print behind them. So what is
/// printed of an input, framed or not, begins with what is printed of a front of it. What pairs add to a sum goes on in the same way.
pub fn a_body_grows<S: Stream>()
    ensures join { (shared : S.Shared) (t : ℕ → Sizes) → BodiesJoin (by_sizes (S.listing shared) t) }
    ensures part { (shared : S.Shared) (t : ℕ → Sizes) → BodiesPart (by_sizes (S.listing shared) t) }
    ensures sums { (shared : S.Shared) (t : ℕ → Sizes) → SumsJoin (by_sizes (S.listing shared) t) }
    ensures framed { (shared : S.Shared) (t : ℕ → Sizes) → FrontsBegin unframed (by_sizes (S.listing shared) t) }
    ensures raw { (shared : S.Shared) (t : ℕ → Sizes) → FrontsBegin raw_pairs (by_sizes (S.listing shared) t) }
{}

/// Where a stream gains, adds and ends in one way, pairs have one text at most, and where it always has some way, they have one
/// at least.
pub fn a_text_is_one<S: Stream>()
    ensures body { (shared : S.Shared) (t : ℕ → Sizes) → OneBody (by_sizes (S.listing shared) t) }
    ensures sum { (shared : S.Shared) (t : ℕ → Sizes) → OneSum (by_sizes (S.listing shared) t) }
    ensures ending { (shared : S.Shared) (t : ℕ → Sizes) → OneEnding (by_sizes (S.listing shared) t) }
    ensures text { (shared : S.Shared) (t : ℕ → Sizes) → OneText (by_sizes (S.listing shared) t) }
    ensures some_body { (shared : S.Shared) (t : ℕ → Sizes) → SomeBody (by_sizes (S.listing shared) t) }
    ensures some_ending { (shared : S.Shared) (t : ℕ → Sizes) → SomeEnding (by_sizes (S.listing shared) t) }
    ensures some_text { (shared : S.Shared) (t : ℕ → Sizes) → SomeText (by_sizes (S.listing shared) t) }
{}

/// The lines of a source are those of its own bytes, by its own sizes, whatever else is printed: no byte and no fault of another
/// stream changes one of them, nor do the sizes of another, nor the place of its own bytes among others. An ID of no source has no
/// line.
pub fn a_stream_is_alone<S: Stream>()
    ensures source { (shared : S.Shared) (t : ℕ → Sizes) → SourceIsAlone (by_sizes (S.listing shared) t) }
    ensures none { (shared : S.Shared) (t : ℕ → Sizes) → OthersHaveNone (by_sizes (S.listing shared) t) }
    ensures others { (shared : S.Shared) → OthersDoNotCount (S.listing shared) }
{}

/// The paths of streams, each by its own sizes, have one text and no other. It begins, before the ends, with that of a front of
/// the input. The lines of a source are those of the path of its own bytes, and each line has one LF, which ends it.
pub fn paths_have_one_text()
    ensures one { OneTextOfPaths }
    ensures some { SomeTextOfPaths }
    ensures framed { FrontsOfPathsBegin unframed }
    ensures raw { FrontsOfPathsBegin raw_pairs }
    ensures alone { PathIsAlone }
    ensures lines { EachIsALine }
{}
