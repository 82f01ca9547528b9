//! What the answers of a reader are as a whole.
ghost use Rattle.std.specs.Prelude.{ℕ, List, []};
ghost use Rattle.etm_types.specs.Settings.{Sizes, AreSettings};
ghost use Rattle.packet_reader.specs.Answered.{Answered, AddUp, EachHasItsAnswer};
ghost use Rattle.packet_reader.specs.Told.{EachSpellingIsTold};
ghost use Rattle.packet_reader.specs.declared.step.Step.{Step};

/// Where each byte of a stream has the answer that [`PacketReader::take`](crate::PacketReader::take)
/// promises for it, the packets among the answers are those of the stream, with their offsets, and their
/// fault is the one with which the stream ends.
pub fn the_answers_are_the_parse()
    ensures { (s : Sizes) → AreSettings s → (bytes : List ℕ) (steps : List Step) → Answered s [] bytes steps → AddUp s bytes steps }
{}

/// No other answer than the one of [`PacketReader::take`](crate::PacketReader::take) meets its promise: the
/// stream before a byte and the stream with it settle the answer. It is Skipped exactly where the stream
/// with the byte has no A-sync, More where it is cut, Whole where it ends behind a packet, and with a fault
/// it is Bad, or Stopped where the fault was there before.
pub fn each_byte_has_its_answer()
    ensures { EachHasItsAnswer }
{}

/// Behind whole packets, each byte of a spelling but the last has the answer More, and the last one Whole, with the packet and the
/// offset of its first byte. So what a writer of packets writes is read as it was written.
pub fn each_spelling_is_told()
    ensures { EachSpellingIsTold }
{}
