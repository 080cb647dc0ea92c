// Sources and sinks over std's readers and writers.
use hm_pipe::{Sink, Source, StdSink, StdSource};
use hm_types::Counted;
use std::io;
use std::io::{ErrorKind, Read, Write};
use std::test::Fail;

// Gives one byte a call, and an error of this kind at each second call.
#[derive(Drop)]
struct Uneven {
    left: u8,
    kind: ErrorKind,
    is_due: bool,
}

impl Read for Uneven {
    fn read(&mut self, buf: &mut [u8]) -> io::Result<usize> {
        self.is_due = !self.is_due;
        if !self.is_due {
            return Err(io::Error::from(self.kind));
        }
        if self.left == 0 || buf.is_empty() {
            return Ok(0);
        }
        self.left -= 1;
        buf[0] = b'x';
        Ok(1)
    }
}

#[test]
fn reads_to_the_end(rt: HostRuntime) -> Result<(), Fail> {
    let mut source = StdSource::new(b"hello".as_slice());
    let mut given = Vec::new(rt.alloc());
    for want in [2, 2, 1, 0, 0] {
        let mut buf = [0; 2];
        let count = source.take(&mut buf).expect(&rt, "a slice is read");
        assert_eq!(rt; count, want);
        given.extend_from_slice(&buf[..count])?;
    }
    assert_eq!(rt; given.as_slice(), b"hello".as_slice());
    assert_eq!(rt; source.faults(), 0);
    Ok(())
}

#[test]
fn counts_each_error_but_an_interruption(rt: HostRuntime) {
    let cases = [
        (ErrorKind::Interrupted, [Some(1), Some(1), Some(0)], 0),
        (ErrorKind::Other, [Some(1), None, Some(1)], 1),
    ];
    for (kind, answers, faults) in cases {
        let mut source = StdSource::new(Uneven {
            left: 2,
            kind,
            is_due: false,
        });
        for want in answers {
            assert_eq!(rt; source.take(&mut [0; 4]).ok(), want, "{kind:?}");
        }
        assert_eq!(rt; source.faults(), faults, "{kind:?}");
        let last = match source.last_error() {
            Some(error) => Some(error.kind()),
            None => None,
        };
        assert_eq!(rt; last, if faults == 0 { None } else { Some(kind) });
    }
}

// Takes so many bytes, one a call, and then fails.
#[derive(Drop)]
struct Narrow {
    room: u8,
}

impl Write for Narrow {
    fn write(&mut self, buf: &[u8]) -> io::Result<usize> {
        if buf.is_empty() {
            return Ok(0);
        }
        if self.room == 0 {
            return Err(io::Error::from(io::ErrorKind::StorageFull));
        }
        self.room -= 1;
        Ok(1)
    }

    fn flush(&mut self) -> io::Result<()> {
        Ok(())
    }
}

#[test]
fn writes_whole_pieces(rt: HostRuntime) -> Result<(), Fail> {
    let mut written = Vec::new(rt.alloc());
    {
        let mut sink = StdSink::new(&mut written);
        for piece in ["one", "", "three"] {
            assert!(rt; sink.put(piece.as_bytes()).is_ok(), "{piece}");
        }
        assert_eq!(rt; sink.faults(), 0);
    }
    assert_eq!(rt; written.as_slice(), b"onethree".as_slice());
    Ok(())
}

#[test]
fn counts_each_failure(rt: HostRuntime) {
    let mut sink = StdSink::new(Narrow { room: 4 });
    for (piece, want, faults) in [("one", true, 0), ("two", false, 1), ("three", false, 2)] {
        assert_eq!(rt; sink.put(piece.as_bytes()).is_ok(), want, "{piece}");
        assert_eq!(rt; sink.faults(), faults, "{piece}");
        let last = match sink.last_error() {
            Some(error) => Some(error.kind()),
            None => None,
        };
        let full = io::ErrorKind::StorageFull;
        assert_eq!(rt; last, if want { None } else { Some(full) }, "{piece}");
    }
}
