//! How a stream ends.
ghost use Rattle.std.specs.Prelude.{◌≡◌, ◌==◌, [], List, ℕ, IfOk, true, not, length, if◌then◌else◌};
ghost use Rattle.etm_types.specs.declared.item.Item.{Item};
ghost use Rattle.packet_grammar.specs.Ends.{is_fault};
ghost use Rattle.packet_grammar.specs.declared.end.End.{End};
ghost use Rattle.path_elements.specs.Path.{IsPath};
ghost use Rattle.path_text.specs.EndLines.{end_line};
ghost use Rattle.path_text.specs.Writing.{Writes};
ghost use Rattle.program_image.specs.declared.image.Image.{Image};
ghost use Rattle.stream_decoder.specs.Decoding.{IsDecoding};
ghost use Rattle.stream_decoder.specs.Follows.{CameTo};
ghost use Rattle.trace_io.specs.Calls.{Serves};

use crate::machine::Decoding;
use etm_types::Id;
use packet_grammar::End;
use path_text::write_end;
use trace_io::{Failed, Sink};

/// Writes the line of how a stream ends, and says whether it ends without a fault. Nothing is written of a stream without bytes.
/// What is still held is lost, whether the write fails or not.
pub fn finish<K: Sink>(decoding: Decoding, id: Id, sink: &mut K) -> Result<bool, Failed>
    requires holds { IsDecoding decoding }
    ensures line { (image : Image) (bytes : List ℕ) (items : List Item) (last : End) → CameTo image decoding bytes
        → IsPath image decoding.reader.settings bytes items last
        → Writes (K.state sink.old) (K.state sink.new) result (if length bytes == 0 then [] else end_line id last)
        × IfOk result (λ whole. whole ≡ not (is_fault last)) }
    ensures nothing { decoding.reader.offset ≡ 0 → IfOk result (λ whole. whole ≡ true) }
    ensures serves { Serves (K.state sink.old) (K.state sink.new) result }
{
    let taken = decoding.offset();
    let end = decoding.end();
    decoding.close();
    if taken == 0 {
        return Ok(true);
    }
    write_end(id, &end, sink)?;
    Ok(!is_fault(&end))
}

/// Whether a stream ends with a fault.
fn is_fault(end: &End) -> bool
    ensures { result ≡ is_fault end.now }
{
    matches!(end, End::Fault { .. })
}
