//! What no clause says: errors of std's readers and writers, and each call once on its way.
ghost use Rattle.std.specs.Prelude.{◌≤◌, IfOk};

use std::io;
use std::io::{Cursor, ErrorKind, Read, Write};
use std::test::Fail;
use trace_io::*;

/// A reader and writer of which the second call fails and the third moves nothing.
#[derive(Drop)]
struct Stutter {
    calls: u8,
}

impl Stutter {
    /// How many of `len` bytes the next call moves: one, if there is room.
    fn next_count(&mut self, len: usize) -> io::Result<usize>
        ensures { IfOk result (λ n. n ≤ len) }
    {
        self.calls = self.calls.saturating_add(1);
        match self.calls {
            2 => Err(io::Error::from(ErrorKind::Interrupted)),
            3 => Ok(0),
            _ => Ok(len.min(1)),
        }
    }
}

impl Read for Stutter {
    fn read(&mut self, buf: &mut [u8]) -> io::Result<usize> {
        self.next_count(buf.len())
    }
}

impl Write for Stutter {
    fn write(&mut self, buf: &[u8]) -> io::Result<usize> {
        self.next_count(buf.len())
    }

    fn flush(&mut self) -> io::Result<()> {
        self.next_count(0)?;
        Ok(())
    }
}

#[test]
fn a_reader_of_std_is_a_source(rt: HostRuntime) -> Result<(), Fail> {
    let bytes = b"hello".to_vec(rt.alloc())?;
    let mut source = StdSource::new(Cursor::new(bytes));
    let mut buf = *b"....";
    assert_eq!(rt; source.read(&mut buf), Ok(4));
    assert_eq!(rt; buf, *b"hell");
    assert_eq!(rt; source.read(&mut buf), Ok(1));
    assert_eq!(rt; buf, *b"oell");
    assert_eq!(rt; source.read(&mut buf), Ok(0));

    let mut failing = StdSource::new(Stutter { calls: 0 });
    for expected in [Ok(1), Err(Failed), Ok(0), Ok(1)] {
        assert_eq!(rt; failing.read(&mut buf), expected);
    }
    Ok(())
}

#[test]
fn a_writer_of_std_is_a_sink(rt: HostRuntime) -> Result<(), Fail> {
    let alloc = rt.alloc();
    let long = vec![in alloc; b'x'; 65_537]?;
    let mut taken = Vec::new(alloc);
    let mut sink = BufferedSink::new(alloc, &mut taken)?;
    assert_eq!(rt; write_all(&mut sink, b"hello"), Ok(()));
    assert_eq!(rt; write_all(&mut sink, &long), Ok(()));
    assert_eq!(rt; sink.flush(), Ok(()));
    drop(sink);
    assert_eq!(rt; taken.len(), 65_542);
    assert_eq!(rt; taken.get(..6), Some(b"hellox".as_slice()));

    let mut failing = BufferedSink::new(alloc, Stutter { calls: 0 })?;
    assert_eq!(rt; failing.write(b"hello"), Ok(5));
    for expected in [Err(Failed), Ok(())] {
        assert_eq!(rt; failing.flush(), expected);
    }
    let mut unflushed = BufferedSink::new(alloc, Stutter { calls: 1 })?;
    for expected in [Err(Failed), Ok(())] {
        assert_eq!(rt; unflushed.flush(), expected);
    }
    Ok(())
}

#[test]
fn a_source_over_memory_follows_its_script(rt: HostRuntime) -> Result<(), Fail> {
    let alloc = rt.alloc();
    let mut safe = SafeSource::new(b"hello".to_vec(alloc)?, 2);
    let all = read_all(alloc, &mut safe, 5)
        .ok()
        .ok_or("five bytes are too many")?;
    assert_eq!(rt; all.as_slice(), b"hello".as_slice());

    let mut long = SafeSource::new(b"hello".to_vec(alloc)?, 2);
    let too_long = read_all(alloc, &mut long, 4).err();
    assert_eq!(rt; too_long, Some(ReadAllFault::TooLong));

    let script = vec![in alloc; false, true]?;
    let mut failing = MemSource::new(b"hello".to_vec(alloc)?, 2, script);
    let failed = read_all(alloc, &mut failing, 5).err();
    assert_eq!(rt; failed, Some(ReadAllFault::Failed));
    let rest = read_all(alloc, &mut failing, 5)
        .ok()
        .ok_or("the script has ended")?;
    assert_eq!(rt; rest.as_slice(), b"llo".as_slice());
    assert_eq!(rt; NoSource::new().read(&mut [0]), Err(Failed));
    Ok(())
}

#[test]
fn a_sink_over_memory_follows_its_script(rt: HostRuntime) -> Result<(), Fail> {
    let alloc = rt.alloc();
    let mut sink = MemSink::new(alloc, vec![in alloc; false, true]?);
    assert_eq!(rt; write_all(&mut sink, b"one"), Ok(()));
    assert_eq!(rt; write_all(&mut sink, b"two"), Err(Failed));
    assert_eq!(rt; write_all(&mut sink, b"three"), Ok(()));
    assert_eq!(rt; sink.flush(), Ok(()));
    assert_eq!(rt; sink.written(), b"onethree".as_slice());
    assert!(rt; !sink.out_of_memory());
    assert_eq!(rt; NullSink::new().write(b"four"), Ok(4));
    Ok(())
}
