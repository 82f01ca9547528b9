//! All of a list of bytes written, and all that a source has left read.
ghost use Rattle.std.specs.Prelude.{◌≡◌, ◌⊎◌, ◌+◌, ◌^◌, ◌<◌, ◌≤◌, [], vec_len, OnOk, OnErr, IfOk, IsErrOf};
ghost use Rattle.trace_io.specs.Causes.{KeepsFaults, Rose};
ghost use Rattle.trace_io.specs.Bytes.{AppendsAll, AppendsShorter, TakesAll, TakesCount, TakesAtMost};
ghost use Rattle.trace_io.specs.Calls.{Serves, Lasts};

use crate::{Failed, Sink, Source};
use std::alloc::Global;
use thiserror::Error;

/// Writes all of `bytes`, in as many writes as the sink wants. Where it fails, the sink has taken a
/// front of `bytes` that is shorter. No write is made of an empty `bytes`.
#[inline(always)]
pub fn write_all<K: Sink>(sink: &mut K, bytes: &[u8]) -> Result<(), Failed>
    ensures ok { OnOk result (AppendsAll (K.state sink.old) (K.state sink.new) bytes.now) }
    ensures failed { OnErr result
        (AppendsShorter (K.state sink.old) (K.state sink.new) bytes.now) }
    ensures empty { bytes.now ≡ [] → sink.new ≡ sink.old }
    ensures serves { Serves (K.state sink.old) (K.state sink.new) result }
{
    if bytes.is_empty() {
        return Ok(());
    }
    let count = sink.write(bytes)?;
    if count == bytes.len() {
        return Ok(());
    }
    write_rest(sink, &bytes[count..])
}

/// Writes what the first write left.
#[cold]
#[inline(never)]
fn write_rest<K: Sink>(sink: &mut K, bytes: &[u8]) -> Result<(), Failed>
    ensures ok { OnOk result (AppendsAll (K.state sink.old) (K.state sink.new) bytes.now) }
    ensures failed { OnErr result
        (AppendsShorter (K.state sink.old) (K.state sink.new) bytes.now) }
    ensures empty { bytes.now ≡ [] → sink.new ≡ sink.old }
    ensures serves { Serves (K.state sink.old) (K.state sink.new) result }
{
    let mut done = 0;
    while done < bytes.len() {
        done += sink.write(&bytes[done..])?;
    }
    Ok(())
}

/// Why `read_all` gave no bytes.
#[derive(Clone, Copy, Debug, PartialEq, Eq, Error)]
pub enum ReadAllFault {
    #[error("a read failed")]
    Failed,
    #[error("there are more bytes than the limit allows")]
    TooLong,
    #[error("out of memory")]
    Memory,
}

/// The most bytes that `read_all` asks for in one read.
const MOST_AT_ONCE: usize = 4096;

/// Reads all that is left, at most `limit` bytes. It takes at most `limit + 1` bytes off the
/// source, and `TooLong` means that it took so many.
pub fn read_all<S: Source>(
    alloc: Global,
    source: &mut S,
    limit: usize,
) -> Result<Vec<u8>, ReadAllFault>
    requires { limit < 2 ^ 31 }
    ensures whole { IfOk result (λ v. TakesAll (S.state source.old) (S.state source.new) v.items) }
    ensures limit { IfOk result (λ v. vec_len v ≤ limit) }
    ensures too_long { IsErrOf result ReadAllFault.TooLong
        → TakesCount (S.state source.old) (S.state source.new) (limit + 1) }
    ensures few { IsErrOf result ReadAllFault.Failed
        → TakesAtMost (S.state source.old) (S.state source.new) limit }
    ensures taken { TakesAtMost (S.state source.old) (S.state source.new) (limit + 1) }
    ensures lasts { Lasts (S.state source.old) (S.state source.new) }
    ensures kept { IsErrOf result ReadAllFault.Failed
        ⊎ KeepsFaults (S.state source.old) (S.state source.new) }
    ensures failed { IsErrOf result ReadAllFault.Failed
        → Rose (S.state source.old) (S.state source.new) }
{
    let mut all = Vec::new(alloc);
    let mut buf = [0u8; MOST_AT_ONCE];
    while all.len() <= limit {
        let room = (limit + 1 - all.len()).min(MOST_AT_ONCE);
        let count = match source.read(&mut buf[..room]) {
            Ok(count) => count,
            Err(_) => return Err(ReadAllFault::Failed),
        };
        if count == 0 {
            return Ok(all);
        }
        if all.extend_from_slice(&buf[..count]).is_err() {
            return Err(ReadAllFault::Memory);
        }
    }
    Err(ReadAllFault::TooLong)
}
