//! What holds of the spellings as a whole, under any settings (Arm IHI 0064, "Descriptions of Trace Packets").
ghost use Rattle.packet_grammar.specs.Laws.{AtMost, BeginsAlike, EachIsAStream, EachSyncIsAPacket, FaultEndsBoth, FaultStays};
ghost use Rattle.packet_grammar.specs.Laws.{GoesOnByAFault, GoesOnByAPacket, LastBytesAreAStream, NoneBeginsAnother, NotBoth, OneOutcome};
ghost use Rattle.packet_grammar.specs.Laws.{OneStream, SpelledOrBegun, StartsWithSync, ValuesFit, longest_packet};

/// A reader that goes from left to right knows a spelling by its last byte, and what it spells.
pub fn spellings_are_told_apart()
    ensures none_begins_another { NoneBeginsAnother }
    ensures one_outcome { OneOutcome }
{}

/// Whatever bytes come, they are one of two things.
pub fn bytes_spell_or_begin()
    ensures either { SpelledOrBegun }
    ensures not_both { NotBoth }
{}

/// A reader has room for each packet, and for the bytes that show a fault, in 22 bytes.
pub fn spellings_are_short()
    ensures { AtMost longest_packet }
{}

/// What the packets of a stream are, and how it ends, is settled by its bytes.
pub fn a_stream_parses_in_one_way()
    ensures each { EachIsAStream }
    ensures one_way { OneStream }
    ensures starts { StartsWithSync }
{}

/// Packets follow one another: after whole packets the next bytes are read as after an A-sync, and nothing
/// is read after a fault.
pub fn a_stream_goes_on_by_one_spelling()
    ensures packet { GoesOnByAPacket }
    ensures fault { GoesOnByAFault }
    ensures stays { FaultStays }
{}

/// A stream and a longer one that begins with its bytes have the same packets as far as the shorter one
/// goes; a fault of the shorter one ends both.
pub fn a_longer_stream_begins_alike()
    ensures packets { BeginsAlike }
    ensures fault { FaultEndsBoth }
{}

/// A reader may begin anywhere in a stream that ends behind a packet, as in a buffer whose oldest bytes were written over:
/// what it finds as an A-sync is one.
pub fn each_sync_is_a_packet()
    ensures packet { EachSyncIsAPacket }
    ensures last_bytes { LastBytesAreAStream }
{}

/// A reader can keep the values of a packet in the fields that a packet has.
pub fn spelled_values_are_in_range()
    ensures { ValuesFit }
{}
