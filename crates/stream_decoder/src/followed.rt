//! One stream, from its bytes to the items of its path.
ghost use Rattle.std.specs.Prelude.{◌≡◌, ◌≢◌, ◌<◌, ◌≤◌, ◌+◌, ◌^◌, ◌==◌, ◌++◌, ◌∷◌, [], List, ℕ, None};
ghost use Rattle.std.specs.Prelude.{IfOk, IfSome, true, false, not, length, if◌then◌else◌};
ghost use Rattle.element_queue.specs.Counting.{Balances, counts_after, entries, no_counts, tally};
ghost use Rattle.element_queue.specs.Pending.{losing};
ghost use Rattle.element_queue.specs.Resolved.{at_first};
ghost use Rattle.etm_types.specs.declared.element.Elem.{Elem};
ghost use Rattle.etm_types.specs.declared.item.Item.{Item};
ghost use Rattle.packet_grammar.specs.Ends.{is_fault};
ghost use Rattle.packet_grammar.specs.declared.end.End.{End};
ghost use Rattle.path_elements.specs.Path.{IsPath, IsPathTaking, unplaced};
ghost use Rattle.path_text.specs.EndLines.{end_line};
ghost use Rattle.path_text.specs.Writing.{Writes};
ghost use Rattle.program_image.specs.declared.image.Image.{Image};
ghost use Rattle.stream_decoder.specs.Decoding.{AtRest, IsDecoding};
ghost use Rattle.stream_decoder.specs.Follows.{CameTo, FollowsFront, FollowsRun, GrowsBy, GrowsByEach};
ghost use Rattle.stream_decoder.specs.Stands.{shows_walk_fault};
ghost use Rattle.trace_io.specs.Calls.{Serves};

use crate::ending::finish;
use crate::follower::{Follower, follow_rest};
use crate::machine::Decoding;
use element_queue::{Counts, Ledger};
use etm_types::{Id, Settings};
use program_image::Image;
use std::alloc::{AllocError, Global};
use std::marker::Model;
use trace_io::{Failed, Sink};

/// Takes the bytes of one stream, and gives the items of its path to a follower as it grows. It has no drop: it ends by `finish` or
/// `abandon`.
///
/// It stands at the bytes that it took, over the image of all calls. The follower of a call may be another one.
#[must_use]
pub struct FollowedStream {
    decoding: Decoding,
}

impl Model for FollowedStream {
    ghost use Rattle.stream_decoder.specs.Decoding.{AtRest, Decoding, IsDecoding};

    ghost Value = { Decoding };

    ghost view = { λ s. s.decoding };

    ghost invariant = { λ s. IsDecoding s.decoding × AtRest s.decoding };
}

impl FollowedStream {
    /// A stream of which nothing was taken, with room for as many P0 elements as the maximum speculation depth.
    /// This is the one call that takes memory, and the error means want of it.
    pub fn new(alloc: Global, settings: &Settings) -> Result<FollowedStream, AllocError>
        ensures stands { IfOk result (λ d. (image : Image) → CameTo image d []) }
        ensures settings { IfOk result (λ d. d.reader.settings ≡ settings.now) }
        ensures none { IfOk result (λ d. (d.counts ≡ no_counts) × (d.pending.held ≡ [])) }
    {
        Ok(FollowedStream {
            decoding: Decoding::new(alloc, settings)?,
        })
    }

    /// Takes the next bytes, and gives a follower the items by which the path grows, as those of the stream of an ID. Behind a fault of the
    /// stream none comes any more.
    ///
    /// It is for speed: a packet that stands whole in the run, as most addresses and commits do, is read as one.
    pub fn take_run<F: Follower>(&mut self, image: &Image, id: Id, run: &[u8], follower: &mut F)
        requires few { self.old.reader.offset + length run.now ≤ 2 ^ 62 }
        ensures stands { (bytes : List ℕ) → CameTo image.now self.old bytes → CameTo image.now self.new (bytes ++ run.now) }
        ensures grows { (bytes : List ℕ) → CameTo image.now self.old bytes
            → (more : List Item) × GrowsByEach image.now self.old.reader.settings bytes run.now more
            × F.takes image.now id follower.old more follower.new }
        ensures stopped { self.old.fault ≢ None
            → (follower.new ≡ follower.old) × (self.new ≡ record (self.old) { reader = self.new.reader }) }
        ensures offset { self.new.reader.offset ≡ self.old.reader.offset + length run.now }
        ensures settings { self.new.reader.settings ≡ self.old.reader.settings }
        ensures balanced { Balances self.new.counts (entries (self.new.due ++ self.new.pending.held)) }
        ensures most { length (self.new.due ++ self.new.pending.held) ≤ self.new.reader.settings.depth }
    {
        follow_bytes(&mut self.decoding, image, id, run, follower);
    }

    /// How many bytes were taken.
    pub fn offset(&self) -> u64
        ensures value { result ≡ self.now.reader.offset }
        ensures all { (image : Image) (bytes : List ℕ) → CameTo image self.now bytes → result ≡ length bytes }
    {
        self.decoding.offset()
    }

    /// What became of the P0 elements. All that the path took were made. As long as it met no fault of the walk,
    /// those that its elements committed, cancelled and lost are counted as such. Never more are held than the maximum
    /// speculation depth, whatever the bytes.
    pub fn ledger(&self) -> Counts
        ensures value { result ≡ self.now.counts }
        ensures made { (image : Image) (bytes : List ℕ) (items : List Item) (last : End) (took : List (ℕ × Elem)) → CameTo image self.now bytes
            → IsPathTaking image self.now.reader.settings bytes items last took
            → result.made ≡ (tally self.now.reader.settings.depth at_first no_counts (unplaced took)).made }
        ensures counts { (image : Image) (bytes : List ℕ) (items : List Item) (last : End) (took : List (ℕ × Elem)) → CameTo image self.now bytes
            → IsPathTaking image self.now.reader.settings bytes items last took → shows_walk_fault last ≡ false
            → result ≡ tally self.now.reader.settings.depth at_first no_counts (unplaced took) }
        ensures balanced { Balances result (entries (self.now.due ++ self.now.pending.held)) }
        ensures most { length (self.now.due ++ self.now.pending.held) ≤ self.now.reader.settings.depth }
    {
        self.decoding.ledger()
    }

    /// Writes the line of how the stream ends, and says whether it ends without a fault. Nothing is written of a
    /// stream without bytes. What is still held is lost, whether the write fails or not.
    pub fn finish<K: Sink>(self, id: Id, sink: &mut K) -> Result<bool, Failed>
        ensures line { (image : Image) (bytes : List ℕ) (items : List Item) (last : End) → CameTo image self bytes
            → IsPath image self.reader.settings bytes items last
            → Writes (K.state sink.old) (K.state sink.new) result (if length bytes == 0 then [] else end_line id last)
            × IfOk result (λ whole. whole ≡ not (is_fault last)) }
        ensures nothing { self.reader.offset ≡ 0 → IfOk result (λ whole. whole ≡ true) }
        ensures serves { Serves (K.state sink.old) (K.state sink.new) result }
    {
        let FollowedStream { decoding } = self;
        finish(decoding, id, sink)
    }

    /// Ends it without a line. What is still held is lost; the ledger has what became of all.
    pub fn abandon(self) -> Ledger
        ensures value { result ≡ counts_after self.counts 0 (losing (self.due ++ self.pending.held)) }
        ensures balanced { Balances result 0 }
    {
        let FollowedStream { decoding } = self;
        decoding.close()
    }
}

/// Takes the next bytes, and gives a follower what they show.
pub fn follow_bytes<F: Follower>(
    decoding: &mut Decoding,
    image: &Image,
    id: Id,
    run: &[u8],
    follower: &mut F,
)
    requires holds { IsDecoding decoding.old }
    requires rest { AtRest decoding.old }
    requires few { decoding.old.reader.offset + length run.now ≤ 2 ^ 62 }
    ensures follows { FollowsRun (F.takes image.now id) image.now decoding.old run.now decoding.new follower.old follower.new }
    ensures stopped { decoding.old.fault ≢ None
        → (decoding.new ≡ record (decoding.old) { reader = decoding.new.reader }) × (follower.new ≡ follower.old) }
    ensures rest { AtRest decoding.new }
    ensures holds { IsDecoding decoding.new }
{
    let mut rest = run;
    while let Some(behind) = follow_front(decoding, image, id, rest, follower) {
        rest = behind;
    }
}

/// Takes what stands at the front of the bytes that come next, and gives a follower what it shows: several packets together, where that can be;
/// else a packet, or a byte. It gives the bytes behind it. Nothing means that there is no byte.
#[inline(always)]
fn follow_front<'a, F: Follower>(
    decoding: &mut Decoding,
    image: &Image,
    id: Id,
    bytes: &'a [u8],
    follower: &mut F,
) -> Option<&'a [u8]>
    requires holds { IsDecoding decoding.old }
    requires rest { AtRest decoding.old }
    requires few { decoding.old.reader.offset + length bytes.now ≤ 2 ^ 62 }
    ensures follows { IfSome result (λ behind. FollowsFront (F.takes image.now id) image.now decoding.old bytes.now behind.now decoding.new follower.old
        follower.new) }
    ensures none { result ≡ None → (bytes.now ≡ []) × (decoding.new ≡ decoding.old) × F.takes image.now id follower.old [] follower.new }
    ensures stopped { decoding.old.fault ≢ None
        → (decoding.new ≡ record (decoding.old) { reader = decoding.new.reader }) × (follower.new ≡ follower.old) }
    ensures rest { AtRest decoding.new }
    ensures holds { IsDecoding decoding.new }
{
    let behind = match decoding.run_packets(image, id, bytes, follower) {
        Some(behind) => behind,
        None => decoding.begin_front(bytes)?,
    };
    follow_rest(decoding, image, id, follower);
    Some(behind)
}
