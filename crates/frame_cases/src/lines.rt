//! The lines of one record.
ghost use Rattle.std.specs.Prelude.{◌≤◌, IfSome};

use formatter_frames::{FRAME_BYTES, unpack};
use std::alloc::Global;
use std::fmt::{self, Write};

/// A sum over bytes in their order (FNV-1a, 32 bits).
#[derive(Drop)]
struct Digest(u32);

impl Digest {
    fn new() -> Self {
        Digest(0x811c_9dc5)
    }

    fn add(&mut self, byte: u8) {
        self.0 = (self.0 ^ u32::from(byte)).wrapping_mul(0x0100_0193);
    }
}

/// The byte that stands in a digest for no ID.
const NO_ID: u8 = 0x80;

/// How many data bytes the frame has with each of the 256 auxiliary bytes, and their digest.
pub fn all_auxiliary_bytes(
    alloc: Global,
    frame: &mut [u8; FRAME_BYTES],
    before: Option<u8>,
) -> Result<String, fmt::Error>
    requires { IfSome before (λ id. id ≤ 127) }
{
    let mut count = 0;
    let mut digest = Digest::new();
    for auxiliary in 0..=255 {
        frame[FRAME_BYTES - 1] = auxiliary;
        count += digest_frame(frame, before, &mut digest);
    }
    let mut line = String::new(alloc);
    write!(line, "{count} {:08x}", digest.0)?;
    Ok(line)
}

fn digest_frame(frame: &[u8; FRAME_BYTES], before: Option<u8>, digest: &mut Digest) -> usize
    requires { IfSome before (λ id. id ≤ 127) }
    ensures { result ≤ 15 }
{
    let mut current = before;
    let bytes = unpack(frame, &mut current);
    for i in 0..bytes.len() {
        if let Some((id, byte)) = bytes.get(i) {
            digest.add(id);
            digest.add(byte);
        }
    }
    digest.add(current.unwrap_or(NO_ID));
    bytes.len()
}

/// Each data byte of the frame behind its ID, and the ID that holds then.
pub fn data_bytes(
    alloc: Global,
    frame: &[u8; FRAME_BYTES],
    current: &mut Option<u8>,
) -> Result<String, fmt::Error>
    requires { IfSome current.old (λ id. id ≤ 127) }
    ensures { IfSome current.new (λ id. id ≤ 127) }
{
    let bytes = unpack(frame, current);
    let mut line = String::new(alloc);
    for i in 0..bytes.len() {
        if let Some((id, byte)) = bytes.get(i) {
            write!(line, "{id:02x}:{byte:02x} ")?;
        }
    }
    match *current {
        Some(id) => write!(line, "then {id:02x}")?,
        None => write!(line, "then none")?,
    }
    Ok(line)
}
