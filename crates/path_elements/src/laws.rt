//! What the elements of a list of packets are.
ghost use Rattle.path_elements.specs.Laws.{EachPacketAdds, NoneAtFirst, NoneBehind, PacketsInRange, PacketsSpelled};

/// The elements of packets come packet by packet: by what the packets before it gave, a packet adds its
/// own elements, or is the first that may not come where it does, and nothing after that one counts.
pub fn elements_come_one_by_one()
    ensures none { NoneAtFirst }
    ensures adds { EachPacketAdds }
    ensures none_behind { NoneBehind }
{}

/// A maker of elements can take every packet that a stream has, under whatever settings.
pub fn spelled_packets_can_be_taken()
    ensures in_range { PacketsInRange }
    ensures spelled { PacketsSpelled }
{}
