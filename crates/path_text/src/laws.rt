//! What the definitions of lines are as a whole.
ghost use Rattle.std.specs.Prelude.{◌≡◌, ◌++◌, ℕ, All, List, Option};
ghost use Rattle.std.specs.List.{concat};
ghost use Rattle.etm_types.specs.declared.context.Ctx.{Ctx};
ghost use Rattle.etm_types.specs.declared.item.Item.{Item};
ghost use Rattle.packet_grammar.specs.declared.end.End.{End};
ghost use Rattle.packet_grammar.specs.declared.packet.Packet.{Packet};
ghost use Rattle.path_text.specs.EndLines.{end_line, frame_cut_line};
ghost use Rattle.path_text.specs.Lines.{IsLine};
ghost use Rattle.path_text.specs.PacketLines.{packet_line};
ghost use Rattle.path_text.specs.PathLines.{line_list, lines_of, shown_after_all};

/// What is printed of items is their lines, one after the other. Items that follow others have the same lines as
/// alone, but that the context is known which was printed last. Each line has one LF, which ends it; so do those of
/// a packet, of an end and of a begun frame.
pub fn lines_stand_one_by_one()
    ensures joined { (id : ℕ) (shown : Option Ctx) (items : List Item) → concat (line_list id shown items) ≡ lines_of id shown items }
    ensures each { (id : ℕ) (shown : Option Ctx) (items : List Item) → All IsLine (line_list id shown items) }
    ensures packet { (id at : ℕ) (packet : Packet) → IsLine (packet_line id at packet) }
    ensures last { (id : ℕ) (last : End) → IsLine (end_line id last) }
    ensures cut { (left : ℕ) → IsLine (frame_cut_line left) }
    ensures list { (id : ℕ) (shown : Option Ctx) (items more : List Item)
        → line_list id shown (items ++ more) ≡ line_list id shown items ++ line_list id (shown_after_all shown items) more }
    ensures lines { (id : ℕ) (shown : Option Ctx) (items more : List Item)
        → lines_of id shown (items ++ more) ≡ lines_of id shown items ++ lines_of id (shown_after_all shown items) more }
    ensures context { (shown : Option Ctx) (items more : List Item)
        → shown_after_all shown (items ++ more) ≡ shown_after_all (shown_after_all shown items) more }
{}
