//! The reading of the input by pieces. The lines of each piece are written and flushed before the next is read.
ghost use Rattle.std.specs.Prelude.{◌≡◌, ◌⊎◌, ◌<◌, ◌≤◌, ◌+◌, ◌^◌, ◌++◌, [], ℕ, List, false, length, Ok, Err, IsErr, IsOk};
ghost use Rattle.capture_streams.specs.Demuxed.{Gains};
ghost use Rattle.etm_types.specs.Settings.{Sizes};
ghost use Rattle.input_pieces.specs.Listed.{Listed, most_input};
ghost use Rattle.input_pieces.specs.Reading.{Closes, GivesBytes, StopsSo, Took};
ghost use Rattle.trace_io.specs.Causes.{KeepsFaults};
ghost use Rattle.trace_io.specs.Calls.{Serves, Lasts};

use answer_lines::Status;
use capture_streams::Printer;
use trace_io::{Failed, Sink, Source};

/// The most bytes of input.
pub const MOST_INPUT: usize = 1 << 30;

/// The most bytes that are taken at a time.
const MOST_AT_ONCE: usize = 4096;

/// Why no more of an input is taken.
#[derive(Clone, Copy, Debug)]
pub enum InputEnd {
    /// It is at its end.
    End,
    /// It has more bytes than are taken.
    TooLong,
    /// A read failed.
    ReadFault,
}

/// What a read gave.
#[derive(Clone, Copy, Debug)]
pub enum Piece {
    /// So many bytes, at the front of the buffer.
    Bytes(usize),
    /// No bytes to take.
    Ended(InputEnd),
}

/// Reads the next piece of an input of which `taken` bytes were taken. Once no more are taken, one byte more tells that
/// the input is too long.
fn read_piece<J: Source>(input: &mut J, taken: usize, buffer: &mut [u8; MOST_AT_ONCE]) -> Piece
    requires { taken ≤ most_input }
    ensures bytes { (count : ℕ) → result ≡ Piece.Bytes count → GivesBytes (J.state input.old) (J.state input.new) taken count buffer.new }
    ensures stop { (stop : InputEnd) → result ≡ Piece.Ended stop → StopsSo (J.state input.old) (J.state input.new) taken stop }
    ensures lasts { Lasts (J.state input.old) (J.state input.new) }
{
    let left = MOST_INPUT - taken;
    let room = left.clamp(1, MOST_AT_ONCE);
    match input.read(&mut buffer[..room]) {
        Ok(0) => Piece::Ended(InputEnd::End),
        Ok(_) if left == 0 => Piece::Ended(InputEnd::TooLong),
        Ok(count) => Piece::Bytes(count),
        Err(_) => Piece::Ended(InputEnd::ReadFault),
    }
}

/// Takes an input to its end, or up to what stops that. The error means that a write failed.
fn take_input<P: Printer, J: Source, K: Sink>(
    printer: &mut P,
    shared: &P::Shared,
    input: &mut J,
    out: &mut K,
) -> Result<InputEnd, Failed>
    requires fresh { (P.broken printer.old ≡ false) × (P.offset printer.old ≡ 0) }
    ensures took { (t : ℕ → Sizes) → P.stands shared.now t printer.old []
        → Took (P.stands shared.now t printer.new) (P.laid (P.frames printer.old)) (P.listing shared.now t)
        (J.state input.old) (J.state input.new) (K.state out.old) (K.state out.new) result }
    ensures whole { (stop : InputEnd) → result ≡ Ok stop → (P.broken printer.new ≡ false) × (P.offset printer.new ≤ most_input) }
    ensures frames { P.frames printer.new ≡ P.frames printer.old }
    ensures kept { (result ≡ Ok InputEnd.ReadFault) ⊎ KeepsFaults (J.state input.old) (J.state input.new) }
    ensures serves { Serves (K.state out.old) (K.state out.new) result }
    ensures input_lasts { Lasts (J.state input.old) (J.state input.new) }
{
    let mut buffer = [0; MOST_AT_ONCE];
    let mut taken = 0;
    loop {
        match read_piece(input, taken, &mut buffer) {
            Piece::Bytes(count) => {
                print_piece(printer, shared, &buffer[..count], out)?;
                taken += count;
            }
            Piece::Ended(stop) => return Ok(stop),
        }
    }
}

/// Prints an input by pieces, and says how that ended. The error means that a write failed.
pub fn print_input<P: Printer, J: Source, K: Sink>(
    mut printer: P,
    shared: &P::Shared,
    input: &mut J,
    out: &mut K,
) -> Result<Status, Failed>
    requires fresh { (P.broken printer ≡ false) × (P.offset printer ≡ 0) }
    ensures answer { (t : ℕ → Sizes) → P.stands shared.now t printer [] → Listed (P.laid (P.frames printer)) (P.listing shared.now t)
        (J.state input.old) (J.state input.new) (K.state out.old) (K.state out.new) result }
    ensures kept { (result ≡ Ok Status.ReadFault) ⊎ IsErr result ⊎ KeepsFaults (J.state input.old) (J.state input.new) }
    ensures serves { Serves (K.state out.old) (K.state out.new) result }
    ensures input_lasts { Lasts (J.state input.old) (J.state input.new) }
{
    match take_input(&mut printer, shared, input, out) {
        Ok(InputEnd::End) => print_end(printer, shared, out),
        Ok(InputEnd::TooLong) => {
            printer.close(shared, out)?;
            Ok(Status::InputTooLong)
        }
        Ok(InputEnd::ReadFault) => {
            printer.close(shared, out)?;
            Ok(Status::ReadFault)
        }
        Err(failed) => {
            printer.abandon();
            Err(failed)
        }
    }
}

/// Prints what an input shows at its end, and says how its streams end. The error means that a write failed.
fn print_end<P: Printer, K: Sink>(
    mut printer: P,
    shared: &P::Shared,
    out: &mut K,
) -> Result<Status, Failed>
    requires whole { P.broken printer ≡ false }
    requires few { P.offset printer ≤ 2 ^ 30 }
    ensures closes { (t : ℕ → Sizes) (bytes : List ℕ) → P.stands shared.now t printer bytes
        → Closes (P.laid (P.frames printer)) (P.listing shared.now t) bytes (K.state out.old) (K.state out.new) result }
    ensures serves { Serves (K.state out.old) (K.state out.new) result }
{
    if let Err(failed) = printer.take_rest(shared, out) {
        printer.abandon();
        return Err(failed);
    }
    if printer.finish(shared, out)? {
        Ok(Status::Done)
    } else {
        Ok(Status::Faulted)
    }
}

/// Prints what a piece adds, and flushes it.
fn print_piece<P: Printer, K: Sink>(
    printer: &mut P,
    shared: &P::Shared,
    piece: &[u8],
    out: &mut K,
) -> Result<(), Failed>
    requires whole { P.broken printer.old ≡ false }
    requires few { P.offset printer.old + length piece.now ≤ 2 ^ 30 }
    ensures stands { (t : ℕ → Sizes) (bytes : List ℕ) → P.stands shared.now t printer.old bytes → IsOk result
        → P.stands shared.now t printer.new (bytes ++ piece.now) }
    ensures gains { (t : ℕ → Sizes) (bytes : List ℕ) → P.stands shared.now t printer.old bytes
        → Gains (P.laid (P.frames printer.old)).carried (P.listing shared.now t) bytes piece.now (K.state out.old) (K.state out.new) result }
    ensures serves { Serves (K.state out.old) (K.state out.new) result }
    ensures whole { IsOk result → P.broken printer.new ≡ false }
    ensures offset { IsOk result → P.offset printer.new ≡ P.offset printer.old + length piece.now }
    ensures frames { P.frames printer.new ≡ P.frames printer.old }
{
    printer.take_piece(shared, piece, out)?;
    out.flush()
}
