//! What the times of streams are, as a whole: laws, as contracts of functions that do nothing.
ghost use Rattle.capture_streams.specs.Demuxed.{raw_pairs};
ghost use Rattle.formatter_frames.specs.Unframed.{unframed};
ghost use Rattle.time_marks.specs.MarkLaws.{MarksAreOwn};
ghost use Rattle.time_marks.specs.TimeLaws.{EachTimeIsALine, FrontsOfTimesBegin, OneTextOfTimes, SomeTextOfTimes, TimesAreAlone, TimesNumberPaths};

/// The times of streams, each by its own sizes, have one text and no other, and before the ends it begins with that of a front of the
/// input. The lines of a source are those of the times of its own bytes, whatever other streams hold, and each line has one LF, which
/// ends it.
pub fn times_have_one_text()
    ensures one { OneTextOfTimes }
    ensures some { SomeTextOfTimes }
    ensures framed { FrontsOfTimesBegin unframed }
    ensures raw { FrontsOfTimesBegin raw_pairs }
    ensures alone { TimesAreAlone }
    ensures lines { EachTimeIsALine }
{}

/// Where elements have no fault, each P0 element that was seen and is committed or held has its own mark: were its number among the P0
/// elements its timestamp, its mark would be that number. So marks stay in order, and there is one for each.
pub fn marks_are_those_of_p0_elements()
    ensures { MarksAreOwn }
{}

/// As long as the walk of a stream's path meets no fault, the P0 elements that have a number are, one for one and in order, those that were
/// seen and from which the items of the path are walked. Each has the timestamp behind the packet of its own P0 element, among those of the
/// stream's packets; an atom may have been flipped since. And both end alike.
pub fn times_number_what_a_path_shows()
    ensures { TimesNumberPaths }
{}
