// A source in memory.
ghost use Rattle.std.specs.Prelude.{◌≡◌, ◌≤◌, Some, IfOk, length, drop, vec_len};
ghost use Rattle.hm_types.specs.Calls.{no_calls};
ghost use Rattle.hm_types.specs.Faults.{HasCause};
ghost use Rattle.hm_pipe.specs.MemSource.{SourceState, TakeChange};

use crate::source::Source;
use hm_types::{Calls, Failed};
use std::marker::Model;

/// Bytes in memory. It tells what is left of them, and takes no memory.
#[derive(Drop)]
pub struct MemSource {
    bytes: Vec<u8>,
    // Where the bytes begin that are left: none is moved as they are given.
    at: usize,
    calls: Calls,
}

impl Model for MemSource {
    ghost Value = { SourceState };

    ghost view = { λ s. record { rest = drop s.at s.bytes.items; calls = s.calls } };

    ghost invariant = { λ s. s.at ≤ vec_len s.bytes };
}

impl MemSource {
    /// A source of these bytes. `fails` lists the calls of `take` that fail, by their numbers from 1 on,
    /// in any order.
    pub fn new(bytes: Vec<u8>, fails: Vec<u64>) -> MemSource
        ensures { result ≡ record { rest = bytes.items; calls = no_calls fails.items } }
    {
        MemSource {
            bytes,
            at: 0,
            calls: Calls::new(fails),
        }
    }
}

impl Source for MemSource {
    ghost left = { λ s. Some s.rest };

    ghost faults = { λ s. s.calls.faults };

    /// Gives as many bytes as fit `buf` or are left. A listed call is `Failed`, and gives none.
    fn take(&mut self, buf: &mut [u8]) -> Result<usize, Failed>
        ensures within { IfOk result (λ n. n ≤ length buf.new) }
        ensures cause { HasCause self.old.calls.faults self.new.calls.faults result }
        ensures change { TakeChange self.old self.new buf.old buf.new result }
    {
        self.calls.begin()?;
        let count = buf.len().min(self.bytes.len() - self.at);
        buf[..count].copy_from_slice(&self.bytes[self.at..self.at + count]);
        self.at += count;
        Ok(count)
    }

    fn faults(&self) -> u64 {
        self.calls.faults()
    }
}
