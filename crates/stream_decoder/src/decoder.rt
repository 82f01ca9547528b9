//! One stream, from its bytes to the lines of its path.
ghost use Rattle.std.specs.Prelude.{◌≡◌, ◌≢◌, ◌≤◌, ◌+◌, ◌^◌, ◌==◌, ◌++◌, ◌↔◌, [], List, ℕ, None, Ok};
ghost use Rattle.std.specs.Prelude.{IfOk, IsErr, IsOk, IsTrue, true, false, not, length, if◌then◌else◌};
ghost use Rattle.element_queue.specs.Counting.{Balances, counts_after, entries, no_counts, tally};
ghost use Rattle.element_queue.specs.Pending.{losing};
ghost use Rattle.element_queue.specs.Resolved.{at_first};
ghost use Rattle.etm_types.specs.declared.element.Elem.{Elem};
ghost use Rattle.etm_types.specs.declared.item.Item.{Item};
ghost use Rattle.packet_grammar.specs.Ends.{is_fault};
ghost use Rattle.packet_grammar.specs.declared.end.End.{End};
ghost use Rattle.path_elements.specs.Path.{IsPath, IsPathTaking, unplaced};
ghost use Rattle.path_text.specs.EndLines.{end_line};
ghost use Rattle.path_text.specs.Writing.{Writes};
ghost use Rattle.program_image.specs.declared.image.Image.{Image};
ghost use Rattle.stream_decoder.specs.Decoding.{AtRest, IsDecoding};
ghost use Rattle.stream_decoder.specs.Stands.{GrowsAlong, RunsAlong, StandsAt, shows_walk_fault};
ghost use Rattle.trace_io.specs.Calls.{Serves};

use crate::ending::finish;
use crate::followed::follow_bytes;
use crate::line_follower::LineFollower;
use crate::machine::Decoding;
use element_queue::{Counts, Ledger};
use etm_types::{Ctx, Id, Settings};
use path_text::LineBlock;
use program_image::Image;
use std::alloc::{AllocError, Global};
use std::marker::Model;
use trace_io::{Failed, Sink};

/// Takes the bytes of one stream, and writes the lines of its path as it grows. It has no drop: it ends by
/// `finish` or `abandon`.
///
/// It stands at the bytes that it took, over the image of all calls. The ID is that of the lines of a call.
#[must_use]
pub struct StreamDecoder {
    decoding: Decoding,
    /// The context that was printed last.
    shown: Option<Ctx>,
    /// Whether a write failed.
    broken: bool,
}

impl Model for StreamDecoder {
    ghost use Rattle.stream_decoder.specs.Decoding.{AtRest, Decoder, IsDecoding};

    ghost Value = { Decoder };

    ghost view = { λ d. record { decoding = d.decoding; shown = d.shown; broken = d.broken } };

    ghost invariant = { λ d. IsDecoding d.decoding × AtRest d.decoding };
}

impl StreamDecoder {
    /// A decoder that has taken nothing, with room for as many P0 elements as the maximum speculation depth.
    /// This is the one call that takes memory, and the error means want of it.
    pub fn new(alloc: Global, settings: &Settings) -> Result<StreamDecoder, AllocError>
        ensures stands { IfOk result (λ d. (image : Image) → StandsAt image d []) }
        ensures settings { IfOk result (λ d. d.decoding.reader.settings ≡ settings.now) }
        ensures none { IfOk result (λ d. (d.decoding.counts ≡ no_counts) × (d.decoding.pending.held ≡ [])) }
    {
        Ok(StreamDecoder {
            decoding: Decoding::new(alloc, settings)?,
            shown: None,
            broken: false,
        })
    }

    /// Takes the next bytes, and writes the lines by which the path grows: all of them before it returns. The lines are put together in the
    /// block, of which nothing is kept from call to call. Behind a fault of the stream no line comes any more. The error means that a write
    /// failed; then a front of the lines is written, and the decoder is broken.
    ///
    /// It is for speed: a packet that stands whole in the run, as most addresses and commits do, is read as one.
    pub fn take_run<K: Sink>(
        &mut self,
        image: &Image,
        lines: &mut LineBlock,
        id: Id,
        run: &[u8],
        sink: &mut K,
    ) -> Result<(), Failed>
        requires whole { self.old.broken ≡ false }
        requires few { self.old.decoding.reader.offset + length run.now ≤ 2 ^ 62 }
        ensures stands { IsOk result → (bytes : List ℕ) → StandsAt image.now self.old bytes → StandsAt image.now self.new (bytes ++ run.now) }
        ensures grows { (bytes : List ℕ) → StandsAt image.now self.old bytes
            → GrowsAlong image.now self.old.decoding.reader.settings id bytes run.now self.old.shown (K.state sink.old) (K.state sink.new) result }
        ensures stopped { self.old.decoding.fault ≢ None
            → (result ≡ Ok tt) × (sink.new ≡ sink.old)
            × (self.new ≡ record (self.old) { decoding = record (self.old.decoding) { reader = self.new.decoding.reader } }) }
        ensures serves { Serves (K.state sink.old) (K.state sink.new) result }
        ensures broken { IsTrue self.new.broken ↔ IsErr result }
        ensures offset { self.new.decoding.reader.offset ≡ self.old.decoding.reader.offset + length run.now }
        ensures settings { self.new.decoding.reader.settings ≡ self.old.decoding.reader.settings }
        ensures balanced { Balances self.new.decoding.counts (entries (self.new.decoding.due ++ self.new.decoding.pending.held)) }
        ensures most { length (self.new.decoding.due ++ self.new.decoding.pending.held) ≤ self.new.decoding.reader.settings.depth }
    {
        lines.resume(id, &self.shown);
        let result = write_run(&mut self.decoding, image, lines, id, run, sink);
        self.shown = lines.shown();
        self.broken = result.is_err();
        result
    }

    /// Whether a write failed. Then it takes no more bytes, and is abandoned.
    pub fn broken(&self) -> bool
        ensures { result ≡ self.now.broken }
    {
        self.broken
    }

    /// How many bytes were taken.
    pub fn offset(&self) -> u64
        ensures value { result ≡ self.now.decoding.reader.offset }
        ensures all { (image : Image) (bytes : List ℕ) → StandsAt image self.now bytes → result ≡ length bytes }
    {
        self.decoding.offset()
    }

    /// What became of the P0 elements. All that the path took were made. As long as it met no fault of the walk,
    /// those that its elements committed, cancelled and lost are counted as such. Never more are held than the maximum
    /// speculation depth, whatever the bytes.
    pub fn ledger(&self) -> Counts
        ensures value { result ≡ self.now.decoding.counts }
        ensures made { (image : Image) (bytes : List ℕ) (items : List Item) (last : End) (took : List (ℕ × Elem)) → StandsAt image self.now bytes
            → IsPathTaking image self.now.decoding.reader.settings bytes items last took
            → result.made ≡ (tally self.now.decoding.reader.settings.depth at_first no_counts (unplaced took)).made }
        ensures counts { (image : Image) (bytes : List ℕ) (items : List Item) (last : End) (took : List (ℕ × Elem)) → StandsAt image self.now bytes
            → IsPathTaking image self.now.decoding.reader.settings bytes items last took → shows_walk_fault last ≡ false
            → result ≡ tally self.now.decoding.reader.settings.depth at_first no_counts (unplaced took) }
        ensures balanced { Balances result (entries (self.now.decoding.due ++ self.now.decoding.pending.held)) }
        ensures most { length (self.now.decoding.due ++ self.now.decoding.pending.held) ≤ self.now.decoding.reader.settings.depth }
    {
        self.decoding.ledger()
    }

    /// Writes the line of how the stream ends, and says whether it ends without a fault. Nothing is written of a
    /// stream without bytes. What is still held is lost, whether the write fails or not.
    pub fn finish<K: Sink>(self, id: Id, sink: &mut K) -> Result<bool, Failed>
        requires { self.broken ≡ false }
        ensures line { (image : Image) (bytes : List ℕ) (items : List Item) (last : End) → StandsAt image self bytes
            → IsPath image self.decoding.reader.settings bytes items last
            → Writes (K.state sink.old) (K.state sink.new) result (if length bytes == 0 then [] else end_line id last)
            × IfOk result (λ whole. whole ≡ not (is_fault last)) }
        ensures nothing { self.decoding.reader.offset ≡ 0 → IfOk result (λ whole. whole ≡ true) }
        ensures serves { Serves (K.state sink.old) (K.state sink.new) result }
    {
        let StreamDecoder {
            decoding,
            shown: _,
            broken: _,
        } = self;
        finish(decoding, id, sink)
    }

    /// Ends it without a line. What is still held is lost; the ledger has what became of all.
    pub fn abandon(self) -> Ledger
        ensures value { result ≡ counts_after self.decoding.counts 0 (losing (self.decoding.due ++ self.decoding.pending.held)) }
        ensures balanced { Balances result 0 }
    {
        let StreamDecoder {
            decoding,
            shown: _,
            broken: _,
        } = self;
        decoding.close()
    }
}

/// Takes the next bytes, and writes the lines of what they show, behind what was put into the block before.
fn write_run<K: Sink>(
    decoding: &mut Decoding,
    image: &Image,
    lines: &mut LineBlock,
    id: Id,
    run: &[u8],
    sink: &mut K,
) -> Result<(), Failed>
    requires holds { IsDecoding decoding.old }
    requires rest { AtRest decoding.old }
    requires few { decoding.old.reader.offset + length run.now ≤ 2 ^ 62 }
    requires none { lines.old.put ≡ [] }
    ensures runs { RunsAlong image.now lines.old.id decoding.old lines.old.shown run.now decoding.new lines.new.shown (K.state sink.old) (K.state sink.new) result }
    ensures stopped { decoding.old.fault ≢ None
        → (result ≡ Ok tt) × (decoding.new ≡ record (decoding.old) { reader = decoding.new.reader }) × (lines.new.shown ≡ lines.old.shown) × (sink.new ≡ sink.old) }
    ensures rest { AtRest decoding.new }
    ensures holds { IsDecoding decoding.new }
{
    let mut follower = LineFollower {
        lines,
        sink,
        result: Ok(()),
    };
    follow_to_end(decoding, image, id, run, &mut follower);
    let LineFollower {
        lines: _,
        sink: _,
        result,
    } = follower;
    result
}

/// The same, where the follower writes them, and nothing was put before.
fn follow_to_end<K: Sink>(
    decoding: &mut Decoding,
    image: &Image,
    id: Id,
    run: &[u8],
    follower: &mut LineFollower<'_, K>,
)
    requires holds { IsDecoding decoding.old }
    requires rest { AtRest decoding.old }
    requires few { decoding.old.reader.offset + length run.now ≤ 2 ^ 62 }
    requires none { follower.old.lines.now.put ≡ [] }
    requires whole { follower.old.result ≡ Ok tt }
    ensures same { (follower.new.lines.ghost_name ≡ follower.old.lines.ghost_name) × (follower.new.sink.ghost_name ≡ follower.old.sink.ghost_name) }
    ensures runs { RunsAlong image.now follower.old.lines.now.id decoding.old follower.old.lines.now.shown run.now decoding.new
        follower.new.lines.now.shown (K.state follower.old.sink.now) (K.state follower.new.sink.now) follower.new.result }
    ensures stopped { decoding.old.fault ≢ None
        → (follower.new.result ≡ Ok tt) × (decoding.new ≡ record (decoding.old) { reader = decoding.new.reader })
        × (follower.new.lines.now.shown ≡ follower.old.lines.now.shown) × (follower.new.sink.now ≡ follower.old.sink.now) }
    ensures rest { AtRest decoding.new }
    ensures holds { IsDecoding decoding.new }
{
    follow_bytes(decoding, image, id, run, follower);
    follower.write_put();
}
