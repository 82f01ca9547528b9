//! What the definition of a stream's path is as a whole.
ghost use Rattle.path_elements.specs.PathLaws.{ElementsJoin, FaultIsLast, FaultStays, OffsetsDoNotCount, OnePath, PathGrows, SomePath};

/// Over an image, under given settings, the bytes of a stream have one path and no other: one list of items,
/// one end, and one list of elements that it takes.
pub fn bytes_have_one_path()
    ensures one { OnePath }
    ensures some { SomePath }
{}

/// A longer stream shows what its front shows, and then some. After a fault, whether of a packet, of what is
/// held or of the walk, it shows nothing more.
pub fn a_path_grows()
    ensures items { PathGrows }
    ensures fault { FaultIsLast }
    ensures stays { FaultStays }
{}

/// The elements of joined lists of packets are joined, and do not depend on where the packets stand. What comes
/// after a packet that may not come where it does is told by [`crate::elements_come_one_by_one`].
pub fn joined_packets_have_joined_elements()
    ensures joined { ElementsJoin }
    ensures offsets { OffsetsDoNotCount }
{}
