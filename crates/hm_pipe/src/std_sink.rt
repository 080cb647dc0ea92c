// A sink over a writer of std.
ghost use Rattle.std.specs.Prelude.{◌≡◌, None, OnOk};
ghost use Rattle.std.specs.Io.KnownBytes.{Appends};
ghost use Rattle.hm_types.specs.Faults.{HasCause};

use crate::sink::Sink;
use hm_types::Failed;
use std::io;
use std::io::Write;
use std::marker::Model;

/// A writer of std, such as standard output or a vector.
///
/// As a sink it tells nothing. At a writer whose bytes are known, the clauses of `put` say that it
/// gains each piece. No call flushes the writer.
#[derive(Drop)]
pub struct StdSink<W> {
    inner: W,
    faults: u64,
    error: Option<io::Error>,
}

impl<W> Model for StdSink<W> {
    ghost use Rattle.hm_pipe.specs.Counted.{Counted};

    ghost Value = { Counted W };

    ghost view = { λ s. record { inner = s.inner; faults = s.faults } };
}

impl<W: Write> StdSink<W> {
    /// A sink that has met no fault yet.
    pub fn new(inner: W) -> StdSink<W>
        ensures { result ≡ record { inner = inner; faults = 0 } }
    {
        StdSink {
            inner,
            faults: 0,
            error: None,
        }
    }

    /// Why the call failed that failed last.
    pub fn last_error(&self) -> Option<io::Error> {
        self.error
    }
}

impl<W: Write> Sink for StdSink<W> {
    ghost held = { λ _. None };

    ghost faults = { λ s. s.faults };

    /// Writes the whole piece, on past interruptions. An error is `Failed`; how much of the piece was
    /// written before it is not known.
    fn put(&mut self, piece: &[u8]) -> Result<(), Failed>
        ensures bytes { OnOk result
            (Appends (W.contents self.old.inner) (W.contents self.new.inner) piece.now) }
        ensures cause { HasCause self.old.faults self.new.faults result }
    {
        match self.inner.write_all(piece) {
            Ok(()) => Ok(()),
            Err(error) => {
                self.faults = self.faults.saturating_add(1);
                self.error = Some(error);
                Err(Failed)
            }
        }
    }

    fn faults(&self) -> u64 {
        self.faults
    }
}
