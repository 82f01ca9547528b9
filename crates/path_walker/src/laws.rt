//! What the definition of a walk is as a whole.
ghost use Rattle.std.specs.Prelude.{◌≡◌, List, All, Result};
ghost use Rattle.program_image.specs.Blocks.{HasGap};
ghost use Rattle.program_image.specs.declared.image.Image.{Image};
ghost use Rattle.etm_types.specs.declared.element.Entry.{Entry};
ghost use Rattle.etm_types.specs.declared.element.Thing.{Thing};
ghost use Rattle.etm_types.specs.declared.item.Item.{Item};
ghost use Rattle.etm_types.specs.declared.walked.Walked.{Walked};
ghost use Rattle.etm_types.specs.declared.walk_fault.WalkFault.{WalkFault};
ghost use Rattle.path_walker.specs.State.{State, IsState};
ghost use Rattle.path_walker.specs.Walk.{HasAlignedAddresses, IsWalk};
ghost use Rattle.path_walker.specs.Things.{IsAlignedThing, Walks};
ghost use Rattle.path_walker.specs.Joined.{FaultStays, EachHasParts, PartsJoin, RestGoesOn};

/// From a state, and over an image that has a word not everywhere, an entry has one walk and no other.
pub fn an_entry_has_one_walk()
    ensures one { (image : Image) (s : State) (entry : Entry) (walk other : Result (Walked × State) WalkFault)
        → IsWalk image s entry walk → IsWalk image s entry other → walk ≡ other }
    ensures some { (image : Image) (s : State) (entry : Entry) → HasGap image → IsState s → HasAlignedAddresses entry
        → (walk : Result (Walked × State) WalkFault) × IsWalk image s entry walk }
{}

/// From a state, and over such an image, the things of a trace have one walk and no other: one list of items,
/// and one state after it or one fault.
pub fn things_have_one_walk()
    ensures one { (image : Image) (s : State) (things : List Thing) (items others : List Item) (end other : Result State WalkFault)
        → Walks image s things items end → Walks image s things others other → (items ≡ others) × (end ≡ other) }
    ensures some { (image : Image) (s : State) (things : List Thing) → HasGap image → IsState s → All IsAlignedThing things
        → (items : List Item) × (end : Result State WalkFault) × Walks image s things items end }
{}

/// The walk of joined lists of things is the joined walks: that of the first list, and that of the second
/// from the state after it; or the first list stops with its fault, and the second is not walked.
pub fn joined_things_have_joined_walks()
    ensures join { PartsJoin }
    ensures parts { EachHasParts }
    ensures rest { RestGoesOn }
    ensures fault { FaultStays }
{}
