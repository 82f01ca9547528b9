//! What the bytes that are written for packets are, under any settings.
ghost use Rattle.packet_writer.specs.Laws.{ItSpells, OfBytes, NoneIsSet, NoneIsShorter, SpelledWhereFits, WrittenIsRead};

/// Where a packet has a spelling, the bytes that are written for it are one, no spelling has fewer, and each bit that a reader passes
/// over is 0.
pub fn each_packet_has_its_bytes()
    ensures spells { ItSpells }
    ensures of_bytes { OfBytes }
    ensures shortest { NoneIsShorter }
    ensures passed_over { NoneIsSet }
    ensures by_values { SpelledWhereFits }
{}

/// Packets that are written one after the other, an A-sync first, are read as they were written.
pub fn written_packets_are_read()
    ensures { WrittenIsRead }
{}
