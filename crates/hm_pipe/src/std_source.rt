// A source over a reader of std.
ghost use Rattle.std.specs.Prelude.{◌≡◌, ◌≤◌, None, IfOk, length};
ghost use Rattle.std.specs.Io.KnownBytes.{ReadConsumes};
ghost use Rattle.hm_types.specs.Faults.{HasCause};

use crate::source::Source;
use hm_types::Failed;
use std::io;
use std::io::{ErrorKind, Read};
use std::marker::Model;

/// The bytes of a reader of std, such as standard input or a slice.
///
/// As a source it tells nothing. At a reader whose bytes are known, the clauses of `take` say that it
/// gives these.
#[derive(Drop)]
pub struct StdSource<R> {
    inner: R,
    faults: u64,
    error: Option<io::Error>,
}

impl<R> Model for StdSource<R> {
    ghost use Rattle.hm_pipe.specs.Counted.{Counted};

    ghost Value = { Counted R };

    ghost view = { λ s. record { inner = s.inner; faults = s.faults } };
}

impl<R: Read> StdSource<R> {
    /// A source that has met no fault yet.
    pub fn new(inner: R) -> StdSource<R>
        ensures { result ≡ record { inner = inner; faults = 0 } }
    {
        StdSource {
            inner,
            faults: 0,
            error: None,
        }
    }

    /// Why the call failed that failed last.
    pub fn last_error(&self) -> Option<io::Error> {
        self.error
    }
}

impl<R: Read> Source for StdSource<R> {
    ghost left = { λ _. None };

    ghost faults = { λ s. s.faults };

    /// Reads once, and again where the read was interrupted. Any other error is `Failed`.
    fn take(&mut self, buf: &mut [u8]) -> Result<usize, Failed>
        ensures within { IfOk result (λ n. n ≤ length buf.new) }
        ensures bytes { ReadConsumes (R.remaining self.old.inner) (R.remaining self.new.inner)
            result buf.new }
        ensures cause { HasCause self.old.faults self.new.faults result }
    {
        for _ in 0..u64::MAX {
            match self.inner.read(buf) {
                Ok(count) => return Ok(count),
                Err(error) => {
                    if error.kind() != ErrorKind::Interrupted {
                        self.error = Some(error);
                        break;
                    }
                }
            }
        }
        self.faults = self.faults.saturating_add(1);
        Err(Failed)
    }

    fn faults(&self) -> u64 {
        self.faults
    }
}
