//! Lines, and the digits of IDs in them.
ghost use Rattle.std.specs.Prelude.{◌≡◌, [], ◌∷◌, ◌++◌, OnOk};
ghost use Rattle.bench_gen.specs.Texts.{id, text};

use std::alloc::AllocError;

/// The hex digits.
const DIGITS: [u8; 16] = *b"0123456789abcdef";

/// Adds a line.
pub fn push_line(out: &mut Vec<u8>, line: &[u8]) -> Result<(), AllocError>
    ensures { OnOk result (out.new.items ≡ out.old.items ++ text (line.now ∷ [])) }
{
    out.extend_from_slice(line)?;
    out.extend_from_slice(b"\n")
}

/// The digits of an ID.
pub fn id(i: u8) -> [u8; 2]
    ensures { result ≡ id i }
{
    [DIGITS[usize::from(i / 16)], DIGITS[usize::from(i % 16)]]
}
