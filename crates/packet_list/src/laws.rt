//! What a packet list is, as a whole.
ghost use Rattle.std.specs.Prelude.{◌≡◌, ◌<◌, ℕ, List, Bool, All};
ghost use Rattle.capture_streams.specs.Demuxed.{raw_pairs};
ghost use Rattle.etm_types.specs.Settings.{Sizes, AreSettings};
ghost use Rattle.formatter_frames.specs.Unframed.{unframed};
ghost use Rattle.packet_list.specs.PacketLaws.{EachPacketIsALine, FrontsOfPacketsBegin, OneTextOfPackets, PacketsAreAlone, SomeTextOfPackets};
ghost use Rattle.packet_list.specs.PacketList.{PacketEnds, PacketGains};

/// Under given sizes, the lines of the packets that a byte adds to a stream are settled by its bytes, and so are the line
/// of how it ends and whether that is a fault.
pub fn packets_have_one_list()
    ensures one_gain { (s : Sizes) → AreSettings s → (id : ℕ) (bytes : List ℕ) (byte : ℕ) (lines others : List (List ℕ))
        → PacketGains s id bytes byte lines → PacketGains s id bytes byte others → lines ≡ others }
    ensures one_end { (s : Sizes) → AreSettings s → (id : ℕ) (bytes line other : List ℕ) (faulty also : Bool)
        → PacketEnds s id bytes line faulty → PacketEnds s id bytes other also → (line ≡ other) × (faulty ≡ also) }
    ensures some_gain { (s : Sizes) → AreSettings s → (id : ℕ) (bytes : List ℕ) (byte : ℕ) → All (λ b. b < 256) bytes → byte < 256
        → (lines : List (List ℕ)) × PacketGains s id bytes byte lines }
    ensures some_end { (s : Sizes) → AreSettings s → (id : ℕ) (bytes : List ℕ) → All (λ b. b < 256) bytes
        → (line : List ℕ) × (faulty : Bool) × PacketEnds s id bytes line faulty }
{}

/// So the packets of streams, each by its own sizes, have one text and no other, and before the ends it begins with that of a front
/// of the input. The lines of a source are those of the packets of its own bytes, whatever other streams hold, and each line has one
/// LF, which ends it.
pub fn packets_have_one_text()
    ensures one { OneTextOfPackets }
    ensures some { SomeTextOfPackets }
    ensures framed { FrontsOfPacketsBegin unframed }
    ensures raw { FrontsOfPacketsBegin raw_pairs }
    ensures alone { PacketsAreAlone }
    ensures lines { EachPacketIsALine }
{}
