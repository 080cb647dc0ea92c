// A sink over a named file.
ghost use Rattle.std.specs.Prelude.{◌≡◌, None, IsErr, option_map, string_bytes};
ghost use Rattle.hm_types.specs.Faults.{HasCause};

use crate::sink::Sink;
use crate::std_sink::StdSink;
use hm_types::Failed;
use std::fs::OpenOptions;
use std::marker::Model;
use std::rt::Files;

/// A file that pieces are appended to. It tells nothing of what it holds: a contract sees its name and
/// its count of faults.
///
/// The first call opens the file, which is made where it is missing and emptied where it is not. A
/// failure to open is a failed call, after which the next call tries again. A sink without a name fails
/// each call.
#[derive(Drop)]
pub struct FileSink<R: Files> {
    rt: R,
    name: Option<String>,
    file: Option<StdSink<R::File>>,
    faults: u64,
}

impl<R: Files> Model for FileSink<R> {
    ghost use Rattle.std.specs.Prelude.{ℕ, List, Option, option_map, string_bytes};
    ghost use Rattle.hm_pipe.specs.Counted.{Counted};

    ghost Value = { Counted (Option (List ℕ)) };

    ghost view = { λ s. record { inner = option_map string_bytes s.name; faults = s.faults } };
}

impl<R: Files> FileSink<R> {
    /// The file of this name, which is not opened yet.
    pub fn named(rt: R, name: Option<String>) -> FileSink<R>
        ensures { result ≡ record { inner = option_map string_bytes name; faults = 0 } }
    {
        FileSink {
            rt,
            name,
            file: None,
            faults: 0,
        }
    }

    fn try_put(&mut self, piece: &[u8]) -> Result<(), Failed>
        ensures nameless { self.old.inner ≡ None → IsErr result }
        ensures uncounted { self.new ≡ self.old }
    {
        let Some(name) = &self.name else {
            return Err(Failed);
        };
        let mut file = match self.file.take() {
            Some(file) => file,
            None => open(&self.rt, name.as_str())?,
        };
        let answer = file.put(piece);
        self.file = Some(file);
        answer
    }
}

fn open<R: Files>(rt: &R, name: &str) -> Result<StdSink<R::File>, Failed> {
    let mut options = OpenOptions::new();
    options.write(true).create(true).truncate(true);
    match options.open(rt, name) {
        Ok(file) => Ok(StdSink::new(file)),
        Err(_) => Err(Failed),
    }
}

impl<R: Files> Sink for FileSink<R> {
    ghost held = { λ _. None };

    ghost faults = { λ s. s.faults };

    /// Writes the whole piece, on past interruptions. An error is `Failed`, as is one of opening the
    /// file; how much of the piece was written before it is not known.
    fn put(&mut self, piece: &[u8]) -> Result<(), Failed>
        ensures nameless { self.old.inner ≡ None → IsErr result }
        ensures name { self.new.inner ≡ self.old.inner }
        ensures cause { HasCause self.old.faults self.new.faults result }
    {
        let answer = self.try_put(piece);
        if answer.is_err() {
            self.faults = self.faults.saturating_add(1);
        }
        answer
    }

    fn faults(&self) -> u64 {
        self.faults
    }
}
