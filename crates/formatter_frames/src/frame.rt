//! The sixteen bytes of a frame: eight mixed-use bytes and seven data bytes in turn, and the auxiliary
//! byte, whose bit n belongs to the mixed-use byte n.
ghost use Rattle.std.specs.Prelude.{◌≡◌, ◌<◌};
ghost use Rattle.formatter_frames.specs.Frame.{mixed_symbol, pair_symbols, mixed_byte, auxiliary_bit, data_byte, pair_of, frame_of};

use crate::symbol::{FrameId, Symbol};

/// The bytes of a frame.
pub const FRAME_BYTES: usize = 16;

/// The symbols that a frame carries, one for each byte before the auxiliary byte.
pub const SYMBOLS: usize = 15;

/// The pairs of a mixed-use byte and the data byte after it.
pub const PAIRS: usize = 7;

/// The place of the mixed-use byte that no data byte follows.
pub const LAST: usize = 14;

/// The place of the auxiliary byte.
pub const AUXILIARY: usize = 15;

/// The bit of a mixed-use byte that makes it an ID byte.
const ID_BIT: u8 = 1;

/// A mixed-use byte, the data byte after it, and the bit of the auxiliary byte that belongs to them.
#[derive(Clone, Copy)]
pub struct BytePair {
    pub mixed: u8,
    pub data: u8,
    pub bit: u8,
}

/// What a mixed-use byte carries by itself.
pub fn mixed_symbol(mixed: u8, bit: u8) -> Symbol
    requires { bit < 2 }
    ensures { result ≡ mixed_symbol mixed bit }
{
    if mixed & ID_BIT == 0 {
        Symbol::Data(mixed + bit)
    } else {
        Symbol::NewId(FrameId::new(mixed >> 1))
    }
}

/// What a pair of bytes carries.
pub fn pair_symbols(pair: BytePair) -> (Symbol, Symbol)
    requires { pair.bit < 2 }
    ensures { result ≡ pair_symbols pair }
{
    let first = mixed_symbol(pair.mixed, pair.bit);
    let second = Symbol::Data(pair.data);
    match first {
        Symbol::NewId(_) if pair.bit != 0 => (second, first),
        _ => (first, second),
    }
}

/// A symbol as a mixed-use byte.
pub fn mixed_byte(symbol: &Symbol) -> u8
    ensures { result ≡ mixed_byte symbol.now }
{
    match *symbol {
        Symbol::NewId(id) => id.get() << 1 | ID_BIT,
        Symbol::Data(byte) => byte & !ID_BIT,
    }
}

/// The auxiliary bit of a symbol that stands as a mixed-use byte.
pub fn auxiliary_bit(symbol: &Symbol) -> u8
    ensures value { result ≡ auxiliary_bit symbol.now }
    ensures within { result < 2 }
{
    match *symbol {
        Symbol::NewId(_) => 0,
        Symbol::Data(byte) => byte & 1,
    }
}

/// A symbol as a data byte. An ID is none.
fn data_byte(symbol: &Symbol) -> u8
    ensures { result ≡ data_byte symbol.now }
{
    match *symbol {
        Symbol::NewId(_) => 0,
        Symbol::Data(byte) => byte,
    }
}

/// Two symbols as a pair of bytes. An ID never follows an ID directly.
pub fn pair_of(first: &Symbol, second: &Symbol) -> BytePair
    ensures value { result ≡ pair_of first.now second.now }
    ensures within { result.bit < 2 }
{
    match *second {
        Symbol::Data(data) => BytePair {
            mixed: mixed_byte(first),
            data,
            bit: auxiliary_bit(first),
        },
        Symbol::NewId(_) => BytePair {
            mixed: mixed_byte(second),
            data: data_byte(first),
            bit: 1,
        },
    }
}

/// The frame of fifteen symbols.
pub fn frame_of(symbols: &[Symbol; SYMBOLS]) -> [u8; FRAME_BYTES]
    ensures { result ≡ frame_of symbols.now }
{
    let mut frame = [0; FRAME_BYTES];
    frame[LAST] = mixed_byte(&symbols[LAST]);
    let mut auxiliary = auxiliary_bit(&symbols[LAST]);
    for n in (0..PAIRS).rev() {
        let pair = pair_of(&symbols[2 * n], &symbols[2 * n + 1]);
        frame[2 * n] = pair.mixed;
        frame[2 * n + 1] = pair.data;
        auxiliary = 2 * auxiliary + pair.bit;
    }
    frame[AUXILIARY] = auxiliary;
    frame
}
