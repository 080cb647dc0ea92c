// A disk over a file.
ghost use Rattle.std.specs.Prelude.{◌≡◌, None, string_bytes};
ghost use Rattle.hm_types.specs.Faults.{HasCause};

use hm_disk::Disk;
use hm_types::{BIGBLOCK_BYTES, Failed};
use std::fs::{File, OpenFile, OpenOptions, TryLockError};
use std::io;
use std::io::ErrorKind;
use std::marker::Model;
use std::os::unix::fs::FileExt;
use std::rt::Files;

/// An open file that can be had by one opening of it alone.
pub trait LockFile {
    /// Takes the file for this opening alone, until it is closed. It never waits: where another opening
    /// has the file, it fails at once.
    fn try_lock(&self) -> Result<(), TryLockError>;
}

impl LockFile for File {
    fn try_lock(&self) -> Result<(), TryLockError> {
        File::try_lock(self)
    }
}

/// A file as a disk. It tells nothing of what it holds: a contract sees what it was made from and its
/// count of faults.
///
/// The first call opens the file and locks it, so that no other `FileDisk` has it until this one is
/// dropped. A failure to open or to lock is a failed call, after which the next call tries again. A call
/// whose range does not lie inside the file fails.
#[derive(Drop)]
pub struct FileDisk<R: Files> {
    rt: R,
    name: String,
    bigblocks: Option<u32>,
    file: Option<Opened<R::File>>,
    faults: u64,
    error: Option<io::Error>,
}

// An open file, with its size in bytes as it was opened.
#[derive(Drop)]
struct Opened<F> {
    file: F,
    size: u64,
}

impl<R: Files> Model for FileDisk<R> {
    ghost use Rattle.std.specs.Prelude.{string_bytes};
    ghost use Rattle.hm_disk_forms.specs.FileDisk.{FileState};

    ghost Value = { FileState };

    ghost view = { λ d. record {
      name = string_bytes d.name;
      bigblocks = d.bigblocks;
      faults = d.faults;
    } };
}

impl<R: Files> FileDisk<R> {
    /// The file of this name, which is not opened yet. With a number of big-blocks of 8,388,608 bytes
    /// it is made where it is missing, and gets exactly that size as it is opened. Without one it must
    /// exist, and keeps its size. The empty name fails to open.
    pub fn named(rt: R, name: String, bigblocks: Option<u32>) -> FileDisk<R>
        ensures { result ≡ record { name = string_bytes name; bigblocks = bigblocks; faults = 0 } }
    {
        FileDisk {
            rt,
            name,
            bigblocks,
            file: None,
            faults: 0,
            error: None,
        }
    }

    /// The name of the file.
    pub fn name(&self) -> &str
        ensures { result.now ≡ self.now.name }
    {
        &self.name
    }

    /// Why the call failed that failed last.
    pub fn last_error(&self) -> Option<io::Error> {
        self.error
    }
}

impl<R: Files> FileDisk<R>
where
    R::File: FileExt + LockFile,
{
    // The open file, which the caller puts back.
    fn take_file(&mut self) -> io::Result<Opened<R::File>>
        ensures { self.new ≡ self.old }
    {
        match self.file.take() {
            Some(file) => Ok(file),
            None => open(&self.rt, self.name.as_str(), self.bigblocks),
        }
    }

    fn try_size(&mut self) -> io::Result<u64>
        ensures { self.new ≡ self.old }
    {
        let file = self.take_file()?;
        let size = file.size;
        self.file = Some(file);
        Ok(size)
    }

    fn try_read(&mut self, place: u64, buf: &mut [u8]) -> io::Result<()>
        ensures { self.new ≡ self.old }
    {
        let file = self.take_file()?;
        let answer = file.read(place, buf);
        self.file = Some(file);
        answer
    }

    fn try_write(&mut self, place: u64, bytes: &[u8]) -> io::Result<()>
        ensures { self.new ≡ self.old }
    {
        let file = self.take_file()?;
        let answer = file.write(place, bytes);
        self.file = Some(file);
        answer
    }

    fn try_sync(&mut self) -> io::Result<()>
        ensures { self.new ≡ self.old }
    {
        let file = self.take_file()?;
        let answer = file.file.sync_all();
        self.file = Some(file);
        answer
    }

    // The answer of a call, which is counted where it is a fault.
    fn counted<T>(&mut self, answer: io::Result<T>) -> Result<T, Failed>
        ensures { HasCause self.old.faults self.new.faults result }
    {
        match answer {
            Ok(value) => Ok(value),
            Err(error) => {
                self.faults = self.faults.saturating_add(1);
                self.error = Some(error);
                Err(Failed)
            }
        }
    }
}

// Nothing of the file is changed before it is locked.
fn open<R: Files>(rt: &R, name: &str, bigblocks: Option<u32>) -> io::Result<Opened<R::File>>
where
    R::File: FileExt + LockFile,
{
    let mut options = OpenOptions::new();
    options.read(true).write(true).create(bigblocks.is_some());
    let file = options.open(rt, name)?;
    if let Err(refusal) = file.try_lock() {
        return Err(lock_error(refusal));
    }
    if let Some(count) = bigblocks {
        file.set_len(u64::from(count) * BIGBLOCK_BYTES)?;
    }
    let size = file.metadata()?.len();
    Ok(Opened { file, size })
}

fn lock_error(refusal: TryLockError) -> io::Error {
    match refusal {
        TryLockError::WouldBlock => {
            io::Error::new(ErrorKind::WouldBlock, "another run has the volume")
        }
        TryLockError::Error(error) => error,
    }
}

impl<F: FileExt> Opened<F> {
    // A range must lie inside the file.
    fn check(&self, place: u64, len: usize) -> io::Result<()> {
        match place.checked_add(len as u64) {
            Some(end) if end <= self.size => Ok(()),
            _ => Err(io::Error::new(ErrorKind::InvalidInput, "a range past the end of the file")),
        }
    }

    fn read(&self, place: u64, buf: &mut [u8]) -> io::Result<()> {
        self.check(place, buf.len())?;
        self.file.read_exact_at(buf, place)
    }

    fn write(&self, place: u64, bytes: &[u8]) -> io::Result<()> {
        self.check(place, bytes.len())?;
        self.file.write_all_at(bytes, place)
    }
}

impl<R: Files> Disk for FileDisk<R>
where
    R::File: FileExt + LockFile,
{
    ghost use Rattle.std.proofs.Common.{inl};

    ghost told = { λ _. None };

    ghost left_since = { λ _ _ _. Unit {0} };

    ghost Past = { Unit {0} };

    ghost past = { λ _. tt };

    ghost left_before = { λ _ _ _. Unit {0} };

    ghost faults = { λ d. d.faults };

    ghost counts_now = { λ d moment image. tt };

    ghost only_now = { λ d image. tt };

    ghost since_earlier = { λ d earlier moment image. tt };

    ghost splits = { λ d moment image left. inl tt };

    ghost joins = { λ d moment image left. tt };

    fn size(&mut self) -> Result<u64, Failed> {
        let answer = self.try_size();
        self.counted(answer)
    }

    fn read_at(&mut self, place: u64, buf: &mut [u8]) -> Result<(), Failed> {
        let answer = self.try_read(place, buf);
        self.counted(answer)
    }

    fn write_at(&mut self, place: u64, bytes: &[u8]) -> Result<(), Failed> {
        let answer = self.try_write(place, bytes);
        self.counted(answer)
    }

    /// Waits until the file and its size are on the device.
    fn sync(&mut self) -> Result<(), Failed> {
        let answer = self.try_sync();
        self.counted(answer)
    }

    fn faults(&self) -> u64 {
        self.faults
    }
}
