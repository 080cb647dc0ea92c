// Disks by tables of calls, with each call failing in turn.
ghost use Rattle.std.specs.Prelude.{◌≡◌, ◌≤◌, IfSome, IfOk, OnOk, length, vec_len};
ghost use Rattle.hm_disk.specs.Disk.{moment_of};
ghost use Rattle.hm_disk_forms.specs.MemDisk.{told_of};

use hm_disk::{
    Disk, Property, a_byte_is_outside_where_the_test_says_so, a_property_holds_now,
    a_property_holds_over_a_read, a_property_holds_over_a_sync, a_property_holds_over_a_write,
    a_settled_disk_alone_is_left, a_write_only_adds, left_since_now_is_what_a_crash_now_may_leave,
    read_all_at, the_disk_as_it_reads_may_be_left, what_is_left_was_so_before_or_may_be_left_now,
    write_synced,
};
use hm_disk_forms::{Crash, MemDisk};
use hm_types::{BIGBLOCK_BYTES, Failed};
use std::alloc::Global;
use std::test::Fail;

const SIZE: u64 = 24 * BIGBLOCK_BYTES;

// A disk in memory of 24 big-blocks.
fn mem_disk(alloc: Global, fails: &[u64]) -> Result<MemDisk, Fail>
    ensures { IfOk result (λ d. length (told_of d).bytes ≡ 201326592) }
{
    Ok(MemDisk::new(alloc, 24, fails.to_vec(alloc)?))
}

// Writes where the range lies inside the disk.
fn put(disk: &mut MemDisk, place: u64, bytes: &[u8]) -> Result<(), Failed>
    requires { length (told_of disk.old).bytes ≡ 201326592 }
    ensures { length (told_of disk.new).bytes ≡ 201326592 }
{
    if bytes.len() as u64 > SIZE || place > SIZE - bytes.len() as u64 {
        return Err(Failed);
    }
    disk.write_at(place, bytes)
}

// Reads where the range lies inside the disk.
fn get(disk: &mut MemDisk, place: u64, buf: &mut [u8]) -> Result<(), Failed>
    requires { length (told_of disk.old).bytes ≡ 201326592 }
    ensures { length (told_of disk.new).bytes ≡ 201326592 }
{
    if buf.len() as u64 > SIZE || place > SIZE - buf.len() as u64 {
        return Err(Failed);
    }
    disk.read_at(place, buf)
}

#[test]
fn reads_what_was_written_and_zeros_elsewhere(rt: HostRuntime) -> Result<(), Fail> {
    let mut disk = mem_disk(rt.alloc(), &[])?;
    assert_eq!(rt; disk.size(), Ok(201_326_592));
    for (place, text) in [
        (0, "start"),
        (4_090, "over the end of a page"),
        (4_092, "ER"),
        (201_326_589, "end"),
        (8_388_608, ""),
    ] {
        assert_eq!(rt; put(&mut disk, place, text.as_bytes()), Ok(()), "{text}");
    }
    for (place, want) in [
        (0, "start\0\0"),
        (4_088, "\0\0ovER the end of a page\0"),
        (4_096, "he en"),
        (8_388_606, "\0\0\0\0"),
        (201_326_586, "\0\0\0end"),
        (201_326_592, ""),
    ] {
        let mut buf = [0xFF; 32];
        let part = &mut buf[..want.len().min(32)];
        assert_eq!(rt; get(&mut disk, place, part), Ok(()), "{place}");
        assert_eq!(rt; &*part, want.as_bytes(), "{place}");
    }
    assert_eq!(rt; disk.faults(), 0);
    Ok(())
}

#[test]
fn fails_at_each_listed_call_and_goes_on(rt: HostRuntime) -> Result<(), Fail> {
    // The call that fails, and what the disk then holds from 4,092 on. No call has the number 0.
    for (fails, held, faults) in [
        (0, "\0abcdeXY", 0),
        (1, "\0abcdeXY", 1),
        (2, "\0abc\0\0XY", 1),
        (3, "\0abcdeXY", 1),
        (4, "\0abcdeX\0", 1),
        (5, "--------", 1),
        (6, "\0abcdeXY", 0),
    ] {
        let mut disk = mem_disk(rt.alloc(), &[fails])?;
        let mut buf = [b'-'; 8];
        assert_eq!(rt; disk.size().is_ok(), fails != 1, "{fails}");
        assert_eq!(rt;
            put(&mut disk, 4_093, b"abcdef").is_ok(),
            fails != 2,
            "{fails}"
        );
        assert_eq!(rt; disk.sync().is_ok(), fails != 3, "{fails}");
        assert_eq!(rt; put(&mut disk, 4_098, b"XY").is_ok(), fails != 4, "{fails}");
        assert_eq!(rt;
            get(&mut disk, 4_092, &mut buf).is_ok(),
            fails != 5,
            "{fails}"
        );
        assert_eq!(rt; buf.as_slice(), held.as_bytes(), "{fails}");
        assert_eq!(rt; disk.faults(), faults, "{fails}");
    }
    Ok(())
}

#[test]
fn counts_its_calls_anew(rt: HostRuntime) -> Result<(), Fail> {
    let mut disk = mem_disk(rt.alloc(), &[1, 2])?;
    assert_eq!(rt; put(&mut disk, 0, b"ab"), Err(Failed));
    assert_eq!(rt; disk.faults(), 1);
    let mut disk = disk.failing([2].to_vec(rt.alloc())?);
    let mut buf = [0; 2];
    for want in [Ok(()), Err(Failed), Ok(())] {
        assert_eq!(rt; get(&mut disk, 0, &mut buf), want);
    }
    assert_eq!(rt; buf.as_slice(), b"a\0".as_slice());
    assert_eq!(rt; disk.faults(), 1);
    Ok(())
}

// The disk as it was after so many changes.
fn after(disk: &MemDisk, count: usize) -> Result<MemDisk, Fail>
    requires { count ≤ length disk.now.changes }
    ensures { IfOk result (λ d. length (told_of d).bytes ≡ length (told_of disk.now).bytes) }
{
    Ok(disk.after_changes(count)?)
}

#[test]
fn a_disk_is_had_as_after_each_of_its_changes(rt: HostRuntime) -> Result<(), Fail> {
    let mut disk = mem_disk(rt.alloc(), &[4, 5])?;
    assert_eq!(rt; put(&mut disk, 4_092, b"abcdef"), Ok(()));
    assert_eq!(rt; disk.sync(), Ok(()));
    assert_eq!(rt; put(&mut disk, 4_094, b"CD"), Ok(()));
    // It puts the first half, and the sync after it settles nothing.
    assert_eq!(rt; put(&mut disk, 4_095, b"1234"), Err(Failed));
    assert_eq!(rt; disk.sync(), Err(Failed));
    assert_eq!(rt; put(&mut disk, 4_099, b"z"), Ok(()));
    assert_eq!(rt; disk.sync(), Ok(()));
    for (count, held) in [
        (0, "\0\0\0\0\0\0\0\0"),
        (1, "abcdef\0\0"),
        (2, "abcdef\0\0"),
        (3, "abCDef\0\0"),
        (4, "abC12f\0\0"),
        (5, "abC12f\0z"),
        (6, "abC12f\0z"),
    ] {
        assert!(rt; count <= disk.changes(), "{count}");
        let mut then = after(&disk, count)?;
        let mut buf = [b'-'; 8];
        assert_eq!(rt; get(&mut then, 4_092, &mut buf), Ok(()), "{count}");
        assert_eq!(rt; buf.as_slice(), held.as_bytes(), "{count}");
        assert_eq!(rt; then.changes(), count, "{count}");
        assert_eq!(rt; (then.sync(), then.faults()), (Ok(()), 0), "{count}");
    }
    assert_eq!(rt; (disk.changes(), disk.faults()), (6, 2));
    Ok(())
}

// The disk as a crash after so many changes may have left it.
fn crashed(disk: &MemDisk, count: usize, crash: Crash<'_>) -> Result<MemDisk, Fail>
    requires { count ≤ length disk.now.changes }
    ensures { IfOk result (λ d. length (told_of d).bytes ≡ length (told_of disk.now).bytes) }
{
    Ok(disk.crashed(count, crash)?)
}

#[test]
fn a_crash_takes_of_the_writes_since_the_last_sync_alone(rt: HostRuntime) -> Result<(), Fail> {
    let mut disk = mem_disk(rt.alloc(), &[5])?;
    assert_eq!(rt; put(&mut disk, 4_092, b"abcdef"), Ok(()));
    assert_eq!(rt; disk.sync(), Ok(()));
    assert_eq!(rt; put(&mut disk, 4_094, b"CD"), Ok(()));
    assert_eq!(rt; put(&mut disk, 4_096, b"EF"), Ok(()));
    // It puts the first half.
    assert_eq!(rt; put(&mut disk, 4_093, b"1234"), Err(Failed));
    for (count, crash, held) in [
        (5, Crash::Lost(&[]), "a12DEF\0\0"),
        (5, Crash::Lost(&[0]), "a12dEF\0\0"),
        (5, Crash::Lost(&[2, 0]), "abcdEF\0\0"),
        (5, Crash::Lost(&[0, 1, 2]), "abcdef\0\0"),
        (5, Crash::Lost(&[3]), "a12DEF\0\0"),
        (5, Crash::Torn { write: 1, front: 1 }, "a12DEf\0\0"),
        (5, Crash::Torn { write: 2, front: 1 }, "a1CDEF\0\0"),
        (5, Crash::Torn { write: 2, front: 9 }, "a12DEF\0\0"),
        (5, Crash::Torn { write: 3, front: 0 }, "a12DEF\0\0"),
        (4, Crash::Lost(&[1]), "abCDef\0\0"),
        (3, Crash::Torn { write: 0, front: 1 }, "abCdef\0\0"),
        (2, Crash::Lost(&[0]), "abcdef\0\0"),
        (1, Crash::Lost(&[0]), "\0\0\0\0\0\0\0\0"),
        (1, Crash::Torn { write: 0, front: 3 }, "abc\0\0\0\0\0"),
        (0, Crash::Lost(&[0]), "\0\0\0\0\0\0\0\0"),
    ] {
        assert!(rt; count <= disk.changes(), "{count}");
        let mut left = crashed(&disk, count, crash)?;
        let mut buf = [b'-'; 8];
        assert_eq!(rt; get(&mut left, 4_092, &mut buf), Ok(()), "{count} {held}");
        assert_eq!(rt; buf.as_slice(), held.as_bytes(), "{count} {held}");
        assert_eq!(rt; (left.sync(), left.faults()), (Ok(()), 0), "{count} {held}");
    }
    assert_eq!(rt; (disk.changes(), disk.faults()), (5, 1));
    Ok(())
}

// Generic code that writes keeps the moment, wherever it ends: the clauses go from call to call.
fn write_between_sizes<D: Disk>(disk: &mut D) -> Result<u64, Failed>
    requires { IfSome (D.told disk.old) (λ t. 3 ≤ length t.bytes) }
    ensures { moment_of (D.told disk.new) ≡ moment_of (D.told disk.old) }
{
    disk.size()?;
    disk.write_at(0, b"abc")?;
    disk.size()
}

#[test]
fn writes_keep_the_moment_of_any_disk(rt: HostRuntime) -> Result<(), Fail> {
    for (fails, want) in [(0, Ok(201_326_592)), (2, Err(Failed)), (3, Err(Failed))] {
        let mut disk = mem_disk(rt.alloc(), &[fails])?;
        assert_eq!(rt; write_between_sizes(&mut disk), want, "{fails}");
    }
    Ok(())
}

// So many bytes, none of them 0 and no two neighbours equal.
fn pattern(alloc: Global, count: usize) -> Result<Vec<u8>, Fail>
    ensures { IfOk result (λ bytes. vec_len bytes ≡ count) }
{
    let mut bytes = Vec::new(alloc);
    for index in 0..count {
        bytes.push((index % 251) as u8 + 1)?;
    }
    Ok(bytes)
}

#[test]
fn moves_long_ranges_in_pieces(rt: HostRuntime) -> Result<(), Fail> {
    let alloc = rt.alloc();
    let bytes = pattern(alloc, 300_000)?;
    // The call that fails, and how many of the bytes are then on the disk: the pieces have 131,072
    // bytes, 131,072 and 37,856, and the fourth call is the sync.
    for (fails, written) in [
        (0, 300_000),
        (1, 65_536),
        (2, 196_608),
        (3, 281_072),
        (4, 300_000),
        (5, 300_000),
    ] {
        let mut disk = mem_disk(alloc, &[fails])?;
        let answer = write_synced(&mut disk, 100, &bytes);
        assert_eq!(rt; answer.is_ok(), fails == 0 || fails == 5, "{fails}");
        let mut disk = disk.failing(Vec::new(alloc));
        let mut read = Vec::from_elem(alloc, 0xFF, 300_000)?;
        assert_eq!(rt; read_all_at(&mut disk, 100, &mut read), Ok(()), "{fails}");
        let front = read
            .iter()
            .zip(bytes.iter())
            .take_while(|(read, put)| read == put)
            .count();
        assert_eq!(rt; front, written, "{fails}");
        assert_eq!(rt;
            read.iter().filter(|byte| **byte != 0).count(),
            written,
            "{fails}"
        );
    }
    Ok(())
}

#[test]
fn a_long_read_ends_where_a_piece_fails(rt: HostRuntime) -> Result<(), Fail> {
    let alloc = rt.alloc();
    for (fails, faults) in [(0, 0), (1, 1), (2, 1), (3, 0)] {
        let mut disk = mem_disk(alloc, &[fails])?;
        let mut read = Vec::from_elem(alloc, 0xFF, 131_073)?;
        assert_eq!(rt;
            read_all_at(&mut disk, 0, &mut read).is_ok(),
            faults == 0,
            "{fails}"
        );
        assert_eq!(rt; disk.faults(), faults, "{fails}");
    }
    Ok(())
}

// Any image.
struct Any;

impl Property for Any {
    ghost has = { λ _. Unit {0} };
}

#[test]
fn laws_can_be_called() {
    a_byte_is_outside_where_the_test_says_so();
    the_disk_as_it_reads_may_be_left();
    a_settled_disk_alone_is_left();
    left_since_now_is_what_a_crash_now_may_leave::<MemDisk>();
    what_is_left_was_so_before_or_may_be_left_now::<MemDisk>();
    a_write_only_adds();
    a_property_holds_now::<MemDisk, Any>();
    a_property_holds_over_a_write::<MemDisk, Any>();
    a_property_holds_over_a_sync::<MemDisk, Any>();
    a_property_holds_over_a_read::<MemDisk, Any>();
}
