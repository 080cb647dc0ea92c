// Calls on the bytes of files over a store in memory, on rows worked out by hand. The first id is 3.
use crate::testing::{FRESH, first_other};
use hm_dirs::Fnv;
use std::test::Fail;

#[test]
fn files_are_read_and_kinds_are_told_apart(rt: HostRuntime) -> Result<(), Fail> {
    let rows = [
        ("mkdir /d", "ok"),
        ("symlink t /l", "ok"),
        ("touch /f", "ok"),
        ("cat /d 0 1", "is a directory"),
        ("cat / 0 1", "is a directory"),
        ("cat /l 0 1", "not a file"),
        ("cat /none 0 1", "not found"),
        ("cat /f/x 0 1", "not a directory"),
        ("cat f 0 1", "bad path 0"),
        ("cat /f 0 16384", "ok 0"),
        ("cat /f 18446744073709551615 1", "ok 0"),
        ("cat /f@@0x0000000000000005 0 1", "ok 0"),
        ("cat /@@0x0000000000000004/f 0 1", "not found"),
        (
            "cat /f@@0x0000000000000010 0 1",
            "future 0x000000000000000f",
        ),
        ("rm /f", "ok"),
        ("cat /f 0 1", "not found"),
        ("cat /@@0x0000000000000005/f 0 1", "ok 0"),
        ("cat /@@0x0000000000000000/f 0 1", "not retained"),
    ];
    let other = first_other(rt.alloc(), &Fnv, &FRESH, &rows)?;
    assert_eq!(rt; other, None);
    Ok(())
}

#[test]
fn reads_of_the_past_give_what_was(rt: HostRuntime) -> Result<(), Fail> {
    let rows = [
        ("touch /f", "ok"),
        ("write /f 0 6161", "ok"),
        ("write /f 0 6262", "ok"),
        ("cat /@@0x0000000000000004/f 0 10", "ok 2 6161"),
        ("cat /@@0x0000000000000005/f 0 10", "ok 2 6262"),
        ("cat /f 0 10", "ok 2 6262"),
        ("cat /@@0x0000000000000003/f 0 10", "ok 0"),
        ("stat /f@@0x0000000000000003", "ok f 0x0000000000000003 0 1"),
        ("stat /f@@0x0000000000000004", "ok f 0x0000000000000003 2 1"),
        ("rm /f", "ok"),
        ("cat /@@0x000000000000000c/f 0 9", "not found"),
        ("cat /@@0x0000000000000005/f 0 9", "ok 2 6262"),
        ("cat /@@0x0000000000000004/f 1 9", "ok 1 61"),
    ];
    let other = first_other(rt.alloc(), &Fnv, &FRESH, &rows)?;
    assert_eq!(rt; other, None);
    Ok(())
}

#[test]
fn what_was_never_written_is_zero(rt: HostRuntime) -> Result<(), Fail> {
    let rows = [
        ("touch /f", "ok"),
        ("fill /f 40000 3 78", "ok"),
        ("cat /f 16380 8", "ok 8 0000000000000000"),
        ("cat /f 39998 10", "ok 5 0000787878"),
        ("stat /f", "ok f 0x0000000000000003 40003 1"),
        ("cat /f 40003 1", "ok 0"),
    ];
    let other = first_other(rt.alloc(), &Fnv, &FRESH, &rows)?;
    assert_eq!(rt; other, None);
    Ok(())
}

#[test]
fn bytes_that_were_cut_do_not_come_back(rt: HostRuntime) -> Result<(), Fail> {
    let rows = [
        ("touch /f", "ok"),
        ("fill /f 0 20 61", "ok"),
        ("truncate /f 10", "ok"),
        ("truncate /f 20", "ok"),
        (
            "cat /f 0 20",
            "ok 20 6161616161616161616100000000000000000000",
        ),
        (
            "cat /@@0x0000000000000004/f 0 20",
            "ok 20 6161616161616161616161616161616161616161",
        ),
        ("truncate /f 5", "ok"),
        ("write /f 12 62", "ok"),
        ("cat /f 0 20", "ok 13 61616161610000000000000062"),
        ("truncate /f 13", "ok"),
        ("truncate /f 0", "ok"),
        ("cat /f 0 20", "ok 0"),
    ];
    let other = first_other(rt.alloc(), &Fnv, &FRESH, &rows)?;
    assert_eq!(rt; other, None);
    Ok(())
}

#[test]
fn a_file_has_at_most_15_728_640_bytes(rt: HostRuntime) -> Result<(), Fail> {
    let rows = [
        ("touch /f", "ok"),
        ("truncate /f 15728640", "ok"),
        ("truncate /f 15728641", "too big"),
        ("fill /f 15728639 2 61", "too big"),
        ("fill /f 15728639 1 61", "ok"),
        ("stat /f", "ok f 0x0000000000000003 15728640 1"),
        ("write /f 15728639 6161", "too big"),
        ("write /f 18446744073709551615 61", "too big"),
        ("fill /f 18446744073709551615 65536 61", "too big"),
        ("truncate /f 18446744073709551615", "too big"),
        ("cat /f 15728638 9", "ok 2 0061"),
    ];
    let other = first_other(rt.alloc(), &Fnv, &FRESH, &rows)?;
    assert_eq!(rt; other, None);
    Ok(())
}

#[test]
fn a_file_has_its_bytes_under_each_name(rt: HostRuntime) -> Result<(), Fail> {
    let rows = [
        ("touch /a", "ok"),
        ("ln /a /b", "ok"),
        ("write /b 0 31", "ok"),
        ("rm /a", "ok"),
        ("cat /b 0 9", "ok 1 31"),
        ("stat /b", "ok f 0x0000000000000003 1 1"),
        ("touch /c", "ok"),
        ("write /c 0 3232", "ok"),
        ("mv /c /b", "ok"),
        ("cat /b 0 9", "ok 2 3232"),
        ("cat /b@@0x000000000000000a 0 9", "ok 1 31"),
        ("mv /b /d", "ok"),
        ("cat /d 0 9", "ok 2 3232"),
    ];
    let other = first_other(rt.alloc(), &Fnv, &FRESH, &rows)?;
    assert_eq!(rt; other, None);
    Ok(())
}

#[test]
fn bytes_are_of_files_alone(rt: HostRuntime) -> Result<(), Fail> {
    let rows = [
        ("mkdir /d", "ok"),
        ("symlink t /l", "ok"),
        ("touch /f", "ok"),
        ("write / 0 61", "is a directory"),
        ("fill /d 0 1 61", "is a directory"),
        ("truncate /d 0", "is a directory"),
        ("write /l 0 61", "not a file"),
        ("fill /l 15728640 1 61", "not a file"),
        ("truncate /l 15728641", "not a file"),
        ("write /none 0 61", "not found"),
        ("fill /f/x 0 1 61", "not a directory"),
        ("truncate f 0", "bad path 0"),
        ("write /f@@0x0000000000000005 0 61", "read only"),
        ("fill /@@0x0000000000000005/f 0 1 61", "read only"),
        (
            "truncate /f@@0x0000000000000011 0",
            "future 0x0000000000000010",
        ),
        ("stat /f", "ok f 0x0000000000000005 0 1"),
    ];
    let other = first_other(rt.alloc(), &Fnv, &FRESH, &rows)?;
    assert_eq!(rt; other, None);
    Ok(())
}
