// A sink in memory.
ghost use Rattle.std.specs.Prelude.{◌≡◌, [], Some};
ghost use Rattle.hm_types.specs.Calls.{no_calls};
ghost use Rattle.hm_types.specs.Faults.{HasCause};
ghost use Rattle.hm_pipe.specs.MemSink.{SinkState, PutChange};

use crate::sink::Sink;
use hm_types::{Calls, Failed};
use std::alloc::Global;
use std::marker::Model;

/// Bytes in memory that pieces are appended to. It tells what it holds.
#[derive(Drop)]
pub struct MemSink {
    bytes: Vec<u8>,
    calls: Calls,
}

impl Model for MemSink {
    ghost Value = { SinkState };

    ghost view = { λ s. record { held = s.bytes.items; calls = s.calls } };
}

impl MemSink {
    /// A sink that holds nothing. `fails` lists the calls of `put` that fail, by their numbers from 1 on,
    /// in any order.
    pub fn new(alloc: Global, fails: Vec<u64>) -> MemSink
        ensures { result ≡ record { held = []; calls = no_calls fails.items } }
    {
        MemSink {
            bytes: Vec::new(alloc),
            calls: Calls::new(fails),
        }
    }

    /// All that it holds, from its first piece on.
    pub fn bytes(&self) -> &[u8]
        ensures { result.now ≡ self.now.held }
    {
        &self.bytes
    }
}

impl Sink for MemSink {
    ghost held = { λ s. Some s.held };

    ghost faults = { λ s. s.calls.faults };

    /// Appends the whole piece. A listed call is `Failed`, and appends the first half, rounded down. For
    /// want of memory a call is `Failed` too, and appends nothing.
    fn put(&mut self, piece: &[u8]) -> Result<(), Failed>
        ensures cause { HasCause self.old.calls.faults self.new.calls.faults result }
        ensures change { PutChange self.old self.new piece.now result }
    {
        if self.calls.begin().is_err() {
            // The call has failed already, so a refused growth is no second fault.
            let _ = self.bytes.extend_from_slice(&piece[..piece.len() / 2]);
            return Err(Failed);
        }
        match self.bytes.extend_from_slice(piece) {
            Ok(()) => Ok(()),
            Err(_) => Err(self.calls.fail()),
        }
    }

    fn faults(&self) -> u64 {
        self.calls.faults()
    }
}
