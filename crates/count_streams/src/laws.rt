//! What the counts of streams are, as a whole: laws, as contracts of functions that do nothing.
ghost use Rattle.count_streams.specs.CountLaws.{AddedItemsStay, AddressesAreLines, CountsAreSums, CountsNeverFall, EachStreamIsCounted};
ghost use Rattle.count_streams.specs.CountLaws.{ExceptionsAreLines, MarksAreLines, OneTextOfCounts, OnlyWordsAreCounted, SomeTextOfCounts};

/// The counts of streams, each by its own sizes, have one text and no other.
pub fn counts_have_one_text()
    ensures one { OneTextOfCounts }
    ensures some { SomeTextOfCounts }
{}

/// The items of a source are those of the path of its own bytes, whatever other streams have, and the counts of an input are the sums
/// of those of its sources.
pub fn each_stream_is_counted()
    ensures path { EachStreamIsCounted }
    ensures sums { CountsAreSums }
{}

/// What was counted stays counted: the items of an input begin with those of a front of it, and no count falls as bytes come.
pub fn counts_never_fall_with_bytes()
    ensures stay { AddedItemsStay }
    ensures never { CountsNeverFall }
{}

/// What is counted is what is printed of the same paths: as many of their lines are an address, whatever their ID, as it was counted
/// there, and as many are `on`, `?`, `gap` or `stop`, or begin with an exception. No other line is one of these.
pub fn addresses_are_counted_by_their_lines()
    ensures addresses { AddressesAreLines }
    ensures marks { MarksAreLines }
    ensures exceptions { ExceptionsAreLines }
{}

/// No instruction is counted that is no word of the image.
pub fn only_words_are_counted()
    ensures { OnlyWordsAreCounted }
{}
