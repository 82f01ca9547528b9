//! The lines of a path, put into a block that is written by one call.
//!
//! Here is a fast way, [`put_near`](LineBlock::put_near).
//!
//! *Together* are put: the lines of a stretch of at most 64 instructions, by stores alone.
//!
//! *Condition:* the stretch is in the page of 64 KiB of the line before and within 4 KiB of it, from address 4096 on and at a multiple of 4; its
//! context was printed last; and no more than 2,816 of the 4,096 bytes of the block are used.
//!
//! *Left to [`put_far`](LineBlock::put_far):* all else. `put_near` answers `false` then, and nothing changes. `put_far` writes the block where more than
//! 2,816 bytes of it are used, before the line of a context, and before lines of addresses below 4096 or not at a multiple of 4, which are written
//! one by one; then it moves to the page of the next line.
//!
//! *Cost:* some tests a stretch and eight machine instructions a line.
ghost use Rattle.std.specs.Prelude.{◌≡◌, ◌+◌, ◌*◌, ◌%◌, ◌<◌, ◌≤◌, ◌++◌, ℕ, [], length, take, IfOk, IsOk, IsTrue, Bool, Ok, Some, None, codes, false, true};
ghost use Rattle.etm_types.specs.Walked.{instructions, items_of};
ghost use Rattle.path_text.specs.Blocks.{Puts};
ghost use Rattle.path_text.specs.Lines.{line_of};
ghost use Rattle.path_text.specs.PathLines.{context_line, instruction_lines, lines_of, shown_after_all, whole_context_text};
ghost use Rattle.path_text.specs.Writing.{Writes};

use crate::address_line::AddressLine;
use crate::page_lines::{PLACES, head_of, move_head, page_of, put_lines, table_of_ends};
use crate::path_lines::{
    write_bytes, write_context, write_gap, write_instructions, write_stop, write_walked_on,
};
use etm_types::{Ctx, Id, Walked};
use std::marker::Model;
use trace_io::{Failed, Sink};

/// How many bytes of lines a block has.
const BLOCK: usize = 4096;

/// The most lines that one call puts.
const MOST: u64 = 64;

/// Up to so many bytes of the block are used there is room for the lines of one call, of at most 20 bytes each.
const ROOMY: usize = 2816;

/// No page begins there.
const NO_PAGE: u64 = 65535;

/// The lines of a stream that are not written yet. The fields are one struct, so that they are known to be apart where a line is copied.
#[derive(Drop)]
pub struct LineBlock {
    id: Id,
    shown: Option<Ctx>,
    /// The ID, a space, and all digits of an address of the page but the last four.
    head: [u8; 16],
    head_len: usize,
    /// The first address of the page of 64 KiB. There is none where lines of its addresses may not follow.
    page: u64,
    block: [u8; BLOCK],
    at: usize,
    /// The last three digits of the instructions of 4096 bytes, and LF.
    ends: [u8; 4096],
}

impl Model for LineBlock {
    ghost use Rattle.std.specs.Prelude.{◌%◌, ◌==◌, take};
    ghost use Rattle.path_text.specs.Blocks.{Block, HoldsLines};

    ghost Value = { Block };

    ghost view = { λ b. record { id = b.id; put = take b.at b.block; shown = b.shown; near = b.page % 65536 == 0 } };

    ghost invariant = { λ b. HoldsLines b.id b.page b.head_len b.at b.head b.ends };
}

impl LineBlock {
    /// No line.
    pub fn new() -> LineBlock
        ensures empty { result.put ≡ [] }
        ensures shown { result.shown ≡ None }
        ensures near { result.near ≡ false }
    {
        let id = Id::new(1).unwrap();
        LineBlock {
            id,
            shown: None,
            head: head_of(id),
            head_len: 3,
            page: NO_PAGE,
            block: [0; BLOCK],
            at: 0,
            ends: table_of_ends(),
        }
    }

    /// The lines that come next are of the stream of this ID, of which this context was printed last. What was put and not written is forgotten.
    #[inline(always)]
    pub fn resume(&mut self, id: Id, shown: &Option<Ctx>)
        ensures id { self.new.id ≡ id }
        ensures empty { self.new.put ≡ [] }
        ensures shown { self.new.shown ≡ shown.now }
    {
        self.shown = *shown;
        self.at = 0;
        if self.id != id {
            self.id = id;
            self.head = head_of(id);
            self.head_len = 3;
            self.page = NO_PAGE;
        }
    }

    /// The context that was printed last.
    #[inline(always)]
    pub fn shown(&self) -> Option<Ctx>
        ensures { result ≡ self.now.shown }
    {
        self.shown
    }

    /// The lines that come next are of this context: unless it was printed last, none may follow without a line of it.
    #[inline(always)]
    pub fn begin(&mut self, ctx: &Ctx)
        ensures others { self.new ≡ record (self.old) { near = self.new.near } }
        ensures near { IsTrue self.new.near → self.new.shown ≡ Some ctx.now }
    {
        match &self.shown {
            Some(last) if *last == *ctx => {}
            _ => self.page = NO_PAGE,
        }
    }

    /// Puts the lines of so many instructions in the context that was printed last, where they are near the line before and there is room. Says
    /// whether it did; else nothing changes.
    #[inline(always)]
    pub fn put_near(&mut self, start: u64, count: u64) -> bool
        ensures put { IsTrue result → self.new ≡ record (self.old) { put = self.old.put ++ instruction_lines self.old.id start count } }
        ensures near { IsTrue result → IsTrue self.old.near }
        ensures unchanged { result ≡ false → self.new ≡ self.old }
    {
        if page_of(start) != self.page
            || start < 4096
            || count > MOST
            || self.at > ROOMY
            || start / 4 % PLACES + count > PLACES
        {
            return false;
        }
        self.at = put_lines(
            &mut self.block,
            self.at,
            &self.head,
            self.head_len,
            &self.ends,
            start,
            count,
        );
        true
    }

    /// Puts the lines of so many instructions in a context, behind the line of it where it was not printed last, and writes what there is no
    /// room for. Behind an error nothing may be put.
    #[inline(never)]
    pub fn put_far<K: Sink>(
        &mut self,
        ctx: &Ctx,
        start: u64,
        count: u64,
        sink: &mut K,
    ) -> Result<(), Failed>
        ensures id { self.new.id ≡ self.old.id }
        ensures puts { (took : Bool) → Puts (K.state sink.old) (K.state sink.new) self.old.put self.new.put result
            (lines_of self.old.id self.old.shown (instructions ctx.now start count took)) }
        ensures shown { IfOk result (λ _. (took : Bool) → self.new.shown ≡ shown_after_all self.old.shown (instructions ctx.now start count took)) }
        ensures near { IsOk result → IsTrue self.new.near → self.new.shown ≡ Some ctx.now }
    {
        if count == 0 {
            self.begin(ctx);
            return Ok(());
        }
        self.put_context(ctx, sink)?;
        self.put_instructions(start, count, sink)
    }

    /// Puts the line of a context, unless it was printed last.
    fn put_context<K: Sink>(&mut self, ctx: &Ctx, sink: &mut K) -> Result<(), Failed>
        ensures id { self.new.id ≡ self.old.id }
        ensures puts { Puts (K.state sink.old) (K.state sink.new) self.old.put self.new.put result (context_line self.old.id self.old.shown ctx.now) }
        ensures shown { IfOk result (λ _. self.new.shown ≡ Some ctx.now) }
    {
        match &self.shown {
            Some(last) if *last == *ctx => Ok(()),
            _ => self.put_context_line(ctx, sink),
        }
    }

    /// Puts the line of a context.
    fn put_context_line<K: Sink>(&mut self, ctx: &Ctx, sink: &mut K) -> Result<(), Failed>
        ensures id { self.new.id ≡ self.old.id }
        ensures puts { Puts (K.state sink.old) (K.state sink.new) self.old.put self.new.put result
            (line_of self.old.id (whole_context_text ctx.now)) }
        ensures shown { IfOk result (λ _. self.new.shown ≡ Some ctx.now) }
    {
        self.flush(sink)?;
        self.shown = Some(*ctx);
        write_context(self.id, ctx, sink)
    }

    /// Puts the lines of so many instructions in the context that was printed last.
    fn put_instructions<K: Sink>(
        &mut self,
        start: u64,
        count: u64,
        sink: &mut K,
    ) -> Result<(), Failed>
        ensures id { self.new.id ≡ self.old.id }
        ensures puts { Puts (K.state sink.old) (K.state sink.new) self.old.put self.new.put result (instruction_lines self.old.id start count) }
        ensures shown { self.new.shown ≡ self.old.shown }
    {
        let mut address = start;
        let mut left = count;
        while left > 0 {
            if address < 4096 || address % 4 != 0 {
                return self.put_one_by_one(address, left, sink);
            }
            self.make_room(sink)?;
            let done = self.put_some(address, left);
            address = address.wrapping_add(4 * done);
            left -= done;
        }
        Ok(())
    }

    /// Puts the lines of so many instructions by a line that moves, also from an address of fewer than four digits or one that is no instruction's.
    fn put_one_by_one<K: Sink>(
        &mut self,
        start: u64,
        count: u64,
        sink: &mut K,
    ) -> Result<(), Failed>
        ensures id { self.new.id ≡ self.old.id }
        ensures puts { Puts (K.state sink.old) (K.state sink.new) self.old.put self.new.put result (instruction_lines self.old.id start count) }
        ensures shown { self.new.shown ≡ self.old.shown }
    {
        self.flush(sink)?;
        write_instructions(&mut AddressLine::new(self.id), start, count, sink)
    }

    /// Writes what was put, unless there is room.
    fn make_room<K: Sink>(&mut self, sink: &mut K) -> Result<(), Failed>
        ensures others { self.new ≡ record (self.old) { put = self.new.put } }
        ensures puts { Puts (K.state sink.old) (K.state sink.new) self.old.put self.new.put result [] }
        ensures room { IfOk result (λ _. length self.new.put ≤ 2816) }
    {
        if self.at > ROOMY {
            self.flush(sink)
        } else {
            Ok(())
        }
    }

    /// Puts the lines of the first of so many instructions, as many as one call puts, and says how many.
    fn put_some(&mut self, start: u64, left: u64) -> u64
        requires some { 0 < left }
        requires start { (4096 ≤ start) × (start % 4 ≡ 0) }
        requires room { length self.old.put ≤ 2816 }
        ensures some { 0 < result }
        ensures most { (result ≤ left) × (result ≤ 64) }
        ensures put { self.new ≡ record (self.old) { put = self.old.put ++ instruction_lines self.old.id start result; near = true } }
    {
        self.head_len = move_head(&mut self.head, start);
        self.page = page_of(start);
        let count = left.min(PLACES - start / 4 % PLACES).min(MOST);
        self.at = put_lines(
            &mut self.block,
            self.at,
            &self.head,
            self.head_len,
            &self.ends,
            start,
            count,
        );
        count
    }

    /// Puts the lines of what the walk of one P0 element shows.
    pub fn put_walked<K: Sink>(&mut self, walked: &Walked, sink: &mut K) -> Result<(), Failed>
        ensures id { self.new.id ≡ self.old.id }
        ensures puts { Puts (K.state sink.old) (K.state sink.new) self.old.put self.new.put result
            (lines_of self.old.id self.old.shown (items_of walked.now)) }
        ensures shown { IfOk result (λ _. self.new.shown ≡ shown_after_all self.old.shown (items_of walked.now)) }
    {
        self.flush(sink)?;
        self.page = NO_PAGE;
        write_walked_on(
            &mut AddressLine::new(self.id),
            walked,
            &mut self.shown,
            sink,
        )
    }

    /// Puts the line of trace that was lost by an overflow.
    pub fn put_gap<K: Sink>(&mut self, sink: &mut K) -> Result<(), Failed>
        ensures id { self.new.id ≡ self.old.id }
        ensures puts { Puts (K.state sink.old) (K.state sink.new) self.old.put self.new.put result (line_of self.old.id (codes "gap")) }
        ensures shown { self.new.shown ≡ self.old.shown }
    {
        self.flush(sink)?;
        write_gap(self.id, sink)
    }

    /// Puts the line of a stop of tracing.
    pub fn put_stop<K: Sink>(&mut self, sink: &mut K) -> Result<(), Failed>
        ensures id { self.new.id ≡ self.old.id }
        ensures puts { Puts (K.state sink.old) (K.state sink.new) self.old.put self.new.put result (line_of self.old.id (codes "stop")) }
        ensures shown { self.new.shown ≡ self.old.shown }
    {
        self.flush(sink)?;
        write_stop(self.id, sink)
    }

    /// Writes what was put. Then nothing is put, whether a write failed or not.
    pub fn flush<K: Sink>(&mut self, sink: &mut K) -> Result<(), Failed>
        ensures writes { Writes (K.state sink.old) (K.state sink.new) result self.old.put }
        ensures others { self.new ≡ record (self.old) { put = [] } }
        ensures nothing { self.old.put ≡ [] → (result ≡ Ok tt) × (sink.new ≡ sink.old) }
    {
        if self.at == 0 {
            return Ok(());
        }
        let at = self.at;
        self.at = 0;
        write_bytes(&self.block[..at], sink)
    }
}
