// A source over a named file.
ghost use Rattle.std.specs.Prelude.{◌≡◌, ◌<◌, ◌≤◌, None, Ok, IfOk, length, option_map, string_bytes};
ghost use Rattle.hm_types.specs.Faults.{HasCause};

use crate::source::Source;
use crate::std_source::StdSource;
use hm_types::Failed;
use std::fs::OpenOptions;
use std::marker::Model;
use std::rt::Files;

/// The bytes of a file. It tells nothing of them: a contract sees its name and its count of
/// faults.
///
/// The first call opens the file, and a failure to open is a failed call, after which the next call
/// tries again. A source without a name is at its end.
#[derive(Drop)]
pub struct FileSource<R: Files> {
    rt: R,
    name: Option<String>,
    file: Option<StdSource<R::File>>,
    faults: u64,
}

impl<R: Files> Model for FileSource<R> {
    ghost use Rattle.std.specs.Prelude.{ℕ, List, Option, option_map, string_bytes};
    ghost use Rattle.hm_pipe.specs.Counted.{Counted};

    ghost Value = { Counted (Option (List ℕ)) };

    ghost view = { λ s. record { inner = option_map string_bytes s.name; faults = s.faults } };
}

impl<R: Files> FileSource<R> {
    /// The file of this name, which is not opened yet.
    pub fn named(rt: R, name: Option<String>) -> FileSource<R>
        ensures { result ≡ record { inner = option_map string_bytes name; faults = 0 } }
    {
        FileSource {
            rt,
            name,
            file: None,
            faults: 0,
        }
    }

    fn try_take(&mut self, buf: &mut [u8]) -> Result<usize, Failed>
        requires { 0 < length buf.old }
        ensures within { IfOk result (λ n. n ≤ length buf.new) }
        ensures nameless { self.old.inner ≡ None → result ≡ Ok 0 }
        ensures uncounted { self.new ≡ self.old }
    {
        let Some(name) = &self.name else {
            return Ok(0);
        };
        let mut file = match self.file.take() {
            Some(file) => file,
            None => open(&self.rt, name.as_str())?,
        };
        let answer = file.take(buf);
        self.file = Some(file);
        answer
    }
}

fn open<R: Files>(rt: &R, name: &str) -> Result<StdSource<R::File>, Failed> {
    match OpenOptions::new().read(true).open(rt, name) {
        Ok(file) => Ok(StdSource::new(file)),
        Err(_) => Err(Failed),
    }
}

impl<R: Files> Source for FileSource<R> {
    ghost left = { λ _. None };

    ghost faults = { λ s. s.faults };

    /// Reads once, and again where the read was interrupted. Any other error is `Failed`, as is one of
    /// opening the file.
    fn take(&mut self, buf: &mut [u8]) -> Result<usize, Failed>
        requires { 0 < length buf.old }
        ensures within { IfOk result (λ n. n ≤ length buf.new) }
        ensures nameless { self.old.inner ≡ None → result ≡ Ok 0 }
        ensures name { self.new.inner ≡ self.old.inner }
        ensures cause { HasCause self.old.faults self.new.faults result }
    {
        let answer = self.try_take(buf);
        if answer.is_err() {
            self.faults = self.faults.saturating_add(1);
        }
        answer
    }

    fn faults(&self) -> u64 {
        self.faults
    }
}
