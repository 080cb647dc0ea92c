// Disks over real files, and over files that move a few bytes at a time.

use hm_disk::Disk;
use hm_disk_forms::{FileDisk, LockFile};
use hm_types::{BIGBLOCK_BYTES, Failed};
use std::alloc::{Allocator, Global};
use std::cell::Cell;
use std::fs::{File, Metadata, OpenFile, OpenOptions, TryLockError};
use std::io::{ErrorKind, Read, Seek, SeekFrom, Write};
use std::os::unix::fs::FileExt;
use std::rt::Files;
use std::test::Fail;
use std::{fs, io};

// The system's files, of which a read or a write moves three bytes at most. Their syncs are counted,
// and fail from this number on. A lock fails where there are none.
#[derive(Clone, Copy)]
struct Narrow<'a> {
    rt: HostRuntime,
    syncs: &'a Cell<u32>,
    fails_from: u32,
    has_locks: bool,
}

#[derive(Drop)]
struct NarrowFile<'a> {
    file: File,
    syncs: &'a Cell<u32>,
    fails_from: u32,
    has_locks: bool,
}

impl<'a> FileExt for NarrowFile<'a> {
    fn read_at(&self, buf: &mut [u8], offset: u64) -> io::Result<usize> {
        let most = buf.len().min(3);
        self.file.read_at(&mut buf[..most], offset)
    }

    fn write_at(&self, buf: &[u8], offset: u64) -> io::Result<usize> {
        let most = buf.len().min(3);
        self.file.write_at(&buf[..most], offset)
    }
}

impl<'a> Read for NarrowFile<'a> {
    fn read(&mut self, buf: &mut [u8]) -> io::Result<usize> {
        self.file.read(buf)
    }
}

impl<'a> Write for NarrowFile<'a> {
    fn write(&mut self, buf: &[u8]) -> io::Result<usize> {
        self.file.write(buf)
    }

    fn flush(&mut self) -> io::Result<()> {
        Ok(())
    }
}

impl<'a> Seek for NarrowFile<'a> {
    fn seek(&mut self, to: SeekFrom) -> io::Result<u64> {
        self.file.seek(to)
    }
}

impl<'a> OpenFile for NarrowFile<'a> {
    fn metadata(&self) -> io::Result<Metadata> {
        self.file.metadata()
    }

    fn set_len(&self, size: u64) -> io::Result<()> {
        self.file.set_len(size)
    }

    fn sync_all(&self) -> io::Result<()> {
        let made = self.syncs.get().saturating_add(1);
        self.syncs.set(made);
        if made >= self.fails_from {
            return Err(io::Error::from(ErrorKind::StorageFull));
        }
        self.file.sync_all()
    }

    fn sync_data(&self) -> io::Result<()> {
        Err(io::Error::from(ErrorKind::Unsupported))
    }
}

impl<'a> LockFile for NarrowFile<'a> {
    fn try_lock(&self) -> Result<(), TryLockError> {
        if !self.has_locks {
            return Err(TryLockError::Error(io::Error::from(ErrorKind::Unsupported)));
        }
        File::try_lock(&self.file)
    }
}

impl<'a> Files for Narrow<'a> {
    type File = NarrowFile<'a>;

    type Dir = <HostRuntime as Files>::Dir;

    fn open_file(&self, how: &OpenOptions, path: &str) -> io::Result<NarrowFile<'a>> {
        Ok(NarrowFile {
            file: self.rt.open_file(how, path)?,
            syncs: self.syncs,
            fails_from: self.fails_from,
            has_locks: self.has_locks,
        })
    }

    fn open_dir(&self, path: &str) -> io::Result<<HostRuntime as Files>::Dir> {
        self.rt.open_dir(path)
    }

    fn metadata(&self, path: &str) -> io::Result<Metadata> {
        Files::metadata(&self.rt, path)
    }

    fn symlink_metadata(&self, path: &str) -> io::Result<Metadata> {
        self.rt.symlink_metadata(path)
    }

    fn copy(&self, from: &str, to: &str) -> io::Result<u64> {
        self.rt.copy(from, to)
    }

    fn rename(&self, from: &str, to: &str) -> io::Result<()> {
        self.rt.rename(from, to)
    }

    fn remove_file(&self, path: &str) -> io::Result<()> {
        self.rt.remove_file(path)
    }

    fn create_dir(&self, path: &str) -> io::Result<()> {
        self.rt.create_dir(path)
    }

    fn remove_dir(&self, path: &str) -> io::Result<()> {
        self.rt.remove_dir(path)
    }

    fn remove_dir_all<B: Allocator>(&self, alloc: B, path: &str) -> io::Result<()> {
        self.rt.remove_dir_all(alloc, path)
    }
}

const SIZE: u64 = 24 * BIGBLOCK_BYTES;

fn disk<R: Files + Drop>(
    rt: HostRuntime,
    files: R,
    name: &str,
    bigblocks: Option<u32>,
) -> Result<FileDisk<R>, Fail> {
    let name = String::from_str(rt.alloc(), name)?;
    Ok(FileDisk::named(files, name, bigblocks))
}

// The kind of a disk's last error.
fn kind<R: Files>(disk: &FileDisk<R>) -> Option<ErrorKind> {
    match disk.last_error() {
        Some(error) => Some(error.kind()),
        None => None,
    }
}

// The words of a disk's last error, or none.
fn words<R: Files>(alloc: Global, disk: &FileDisk<R>) -> Result<String, Fail> {
    match disk.last_error() {
        Some(error) => Ok(error.to_string(alloc)?),
        None => Ok(String::new(alloc)),
    }
}

#[test]
fn a_file_of_24_bigblocks_is_a_disk(rt: HostRuntime) -> Result<(), Fail> {
    {
        let mut disk = disk(rt, rt, "made", Some(24))?;
        assert_eq!(rt; disk.size(), Ok(SIZE));
        assert_eq!(rt; disk.write_at(SIZE - 8, b"the end."), Ok(()));
        assert_eq!(rt; disk.sync(), Ok(()));
        let mut buf = [0xFF; 10];
        assert_eq!(rt; disk.read_at(SIZE - 10, &mut buf), Ok(()));
        assert_eq!(rt; buf.as_slice(), b"\0\0the end.".as_slice());
        assert_eq!(rt; kind(&disk), None);
        // A range that does not lie inside the file.
        assert_eq!(rt; disk.read_at(SIZE - 9, &mut buf), Err(Failed));
        assert_eq!(rt; disk.write_at(SIZE - 7, b"the end."), Err(Failed));
        assert_eq!(rt; disk.write_at(u64::MAX, b"x"), Err(Failed));
        assert_eq!(rt; disk.faults(), 3);
        assert_eq!(rt; kind(&disk), Some(ErrorKind::InvalidInput));
    }
    // Without a number the file keeps its size.
    let mut again = disk(rt, rt, "made", None)?;
    let mut end = [0xFF; 8];
    assert_eq!(rt; again.read_at(SIZE - 8, &mut end), Ok(()));
    assert_eq!(rt; end.as_slice(), b"the end.".as_slice());
    assert_eq!(rt; again.size(), Ok(SIZE));
    assert_eq!(rt; again.faults(), 0);
    fs::remove_file(&rt, "made")?;
    Ok(())
}

#[test]
fn a_file_gets_exactly_the_size_that_is_asked_for(rt: HostRuntime) -> Result<(), Fail> {
    for (bigblocks, size) in [
        (Some(25), SIZE + BIGBLOCK_BYTES),
        (None, SIZE + BIGBLOCK_BYTES),
        (Some(24), SIZE),
        (None, SIZE),
        (Some(26), SIZE + 2 * BIGBLOCK_BYTES),
    ] {
        let mut disk = disk(rt, rt, "sized", bigblocks)?;
        assert_eq!(rt; disk.size(), Ok(size), "{size}");
        assert_eq!(rt; fs::metadata(&rt, "sized")?.len(), size, "{size}");
    }
    fs::remove_file(&rt, "sized")?;
    Ok(())
}

#[test]
fn no_file_is_made_without_a_number_nor_of_the_empty_name(rt: HostRuntime) -> Result<(), Fail> {
    for (name, bigblocks) in [
        ("missing", None),
        ("missing", None),
        ("", None),
        ("", Some(24)),
    ] {
        let mut none = FileDisk::named(rt, String::from_str(rt.alloc(), name)?, bigblocks);
        assert_eq!(rt; none.size(), Err(Failed), "{name}");
        assert_eq!(rt; none.sync(), Err(Failed), "{name}");
        assert_eq!(rt; none.faults(), 2, "{name}");
        assert_eq!(rt; kind(&none), Some(ErrorKind::NotFound), "{name}");
    }
    Ok(())
}

#[test]
fn one_disk_at_a_time_has_a_file(rt: HostRuntime) -> Result<(), Fail> {
    {
        let mut first = disk(rt, rt, "locked", Some(24))?;
        assert_eq!(rt; first.write_at(0, b"first"), Ok(()));
        for bigblocks in [None, Some(24), Some(25)] {
            let mut second = disk(rt, rt, "locked", bigblocks)?;
            assert_eq!(rt; second.size(), Err(Failed));
            assert_eq!(rt; second.write_at(0, b"other"), Err(Failed));
            assert_eq!(rt; second.faults(), 2);
            assert_eq!(rt; kind(&second), Some(ErrorKind::WouldBlock));
            assert_eq!(rt;
                words(rt.alloc(), &second)?.as_str(),
                "another run has the volume"
            );
        }
        // The refused disks changed nothing, and took the lock from nobody.
        let mut buf = [0; 5];
        assert_eq!(rt; first.read_at(0, &mut buf), Ok(()));
        assert_eq!(rt; buf.as_slice(), b"first".as_slice());
        assert_eq!(rt; fs::metadata(&rt, "locked")?.len(), SIZE);
        assert_eq!(rt; first.faults(), 0);
    }
    let mut later = disk(rt, rt, "locked", None)?;
    assert_eq!(rt; later.size(), Ok(SIZE));
    fs::remove_file(&rt, "locked")?;
    Ok(())
}

#[test]
fn goes_on_after_short_reads_and_writes(rt: HostRuntime) -> Result<(), Fail> {
    let syncs = Cell::new(0);
    let files = Narrow {
        rt,
        syncs: &syncs,
        fails_from: u32::MAX,
        has_locks: true,
    };
    {
        let mut narrow = disk(rt, files, "narrow", Some(24))?;
        assert_eq!(rt; narrow.write_at(SIZE - 20, b"twenty bytes in all."), Ok(()));
        let mut buf = [0; 12];
        assert_eq!(rt; narrow.read_at(SIZE - 20, &mut buf), Ok(()));
        assert_eq!(rt; buf.as_slice(), b"twenty bytes".as_slice());
    }
    let mut whole = disk(rt, rt, "narrow", None)?;
    let mut buf = [0; 20];
    assert_eq!(rt; whole.read_at(SIZE - 20, &mut buf), Ok(()));
    assert_eq!(rt; buf.as_slice(), b"twenty bytes in all.".as_slice());
    fs::remove_file(&rt, "narrow")?;
    Ok(())
}

#[test]
fn each_sync_is_one_of_the_file(rt: HostRuntime) -> Result<(), Fail> {
    let syncs = Cell::new(0);
    let files = Narrow {
        rt,
        syncs: &syncs,
        fails_from: 3,
        has_locks: true,
    };
    let mut disk = disk(rt, files, "synced", Some(24))?;
    assert_eq!(rt; disk.write_at(0, b"some"), Ok(()));
    assert_eq!(rt; syncs.get(), 0);
    for (made, want, faults) in [(1, Ok(()), 0), (2, Ok(()), 0), (3, Err(Failed), 1)] {
        assert_eq!(rt; disk.sync(), want, "{made}");
        assert_eq!(rt; syncs.get(), made);
        assert_eq!(rt; disk.faults(), faults, "{made}");
    }
    assert_eq!(rt; kind(&disk), Some(ErrorKind::StorageFull));
    // Of two failures the last is told, and a call that succeeds leaves it.
    assert_eq!(rt; disk.write_at(SIZE, b"x"), Err(Failed));
    assert_eq!(rt; kind(&disk), Some(ErrorKind::InvalidInput));
    assert_eq!(rt; disk.write_at(0, b"x"), Ok(()));
    assert_eq!(rt; kind(&disk), Some(ErrorKind::InvalidInput));
    assert_eq!(rt; disk.sync(), Err(Failed));
    assert_eq!(rt; kind(&disk), Some(ErrorKind::StorageFull));
    fs::remove_file(&rt, "synced")?;
    Ok(())
}

#[test]
fn a_file_stays_locked_after_a_call_that_fails(rt: HostRuntime) -> Result<(), Fail> {
    let syncs = Cell::new(0);
    let files = Narrow {
        rt,
        syncs: &syncs,
        fails_from: 1,
        has_locks: true,
    };
    {
        let mut first = disk(rt, files, "kept", Some(24))?;
        let mut buf = [0; 2];
        for failing in 0..3 {
            let answer = match failing {
                0 => first.write_at(SIZE, b"x"),
                1 => first.read_at(SIZE - 1, &mut buf),
                _ => first.sync(),
            };
            assert_eq!(rt; answer, Err(Failed), "{failing}");
            let mut second = disk(rt, rt, "kept", None)?;
            assert_eq!(rt; second.size(), Err(Failed), "{failing}");
            assert_eq!(rt; kind(&second), Some(ErrorKind::WouldBlock), "{failing}");
        }
    }
    let mut later = disk(rt, rt, "kept", None)?;
    assert_eq!(rt; later.size(), Ok(SIZE));
    fs::remove_file(&rt, "kept")?;
    Ok(())
}

#[test]
fn a_lock_that_fails_is_told_as_it_failed(rt: HostRuntime) -> Result<(), Fail> {
    let syncs = Cell::new(0);
    let files = Narrow {
        rt,
        syncs: &syncs,
        fails_from: u32::MAX,
        has_locks: false,
    };
    let mut unlocked = disk(rt, files, "unlocked", Some(24))?;
    assert_eq!(rt; unlocked.size(), Err(Failed));
    assert_eq!(rt; kind(&unlocked), Some(ErrorKind::Unsupported));
    // Its size was not set, since it was not locked.
    assert_eq!(rt; fs::metadata(&rt, "unlocked")?.len(), 0);
    fs::remove_file(&rt, "unlocked")?;
    Ok(())
}
