// Calls on names of which as many have one hash as may.
ghost use Rattle.std.specs.Prelude.{IfOk};
ghost use Rattle.hm_calls_tests.specs.Tests.{IsMade, IsReady};

use crate::testing::{
    FRESH, Item, Volume, Zero, entry_as_bytes, fill_meta_zone, first_other, first_other_of, forge,
    forge_all, nothing, opened,
};
use hm_cursor::entry_base;
use hm_key::{HasElements, HasRoom, MemStore};
use hm_records::FILE;
use hm_types::{Obj, Pfs};
use std::alloc::Global;
use std::test::Fail;

// How many names of a directory may have one hash.
const MOST: u64 = 1_024;

// The object of the forged names, a file with that many links.
const OBJECT: Item = Item::Object(0, 3, FILE, 1_024);

// Adds entries of the root, side by side, with names from `n0000` on, but for some in front that
// have the name `n0000` too.
fn forge_names(alloc: Global, volume: &mut Volume<MemStore>, alike: u64) -> Result<(), Fail>
    requires { IsMade (⟦<MemStore as HasElements>⟧.elements volume.old.store)
        (⟦<MemStore as HasRoom>⟧.extents volume.old.store) volume.old.next }
    ensures { IfOk result (λ _. IsMade (⟦<MemStore as HasElements>⟧.elements volume.new.store)
        (⟦<MemStore as HasRoom>⟧.extents volume.new.store) volume.new.next) }
{
    for key in 0..MOST {
        let name = format!(in alloc; "n{:04}", key.saturating_sub(alike))?;
        let bytes = entry_as_bytes(alloc, &name, 3)?;
        forge(volume, &entry_base(Pfs(0), Obj(1), key), &bytes)?;
    }
    Ok(())
}

// A directory with 1,024 entries of one hash, of which some in front have one name.
fn full_directory(alloc: Global, alike: u64) -> Result<Volume<MemStore>, Fail>
    ensures { IfOk result (λ volume. IsMade (⟦<MemStore as HasElements>⟧.elements volume.store)
        (⟦<MemStore as HasRoom>⟧.extents volume.store) volume.next) }
{
    let mut volume = nothing(alloc, 0);
    forge_all(alloc, &mut volume, &Zero, &FRESH)?;
    forge_all(alloc, &mut volume, &Zero, &[OBJECT])?;
    forge_names(alloc, &mut volume, alike)?;
    Ok(volume)
}

// The first line with another answer in such a directory.
fn first_other_in<'a>(
    alloc: Global,
    alike: u64,
    rows: &[(&'a str, &'a str)],
) -> Result<Option<(&'a str, Vec<u8>)>, Fail> {
    let mut volume = opened(full_directory(alloc, alike)?);
    first_other_of(alloc, &mut volume, &Zero, rows)
}

#[test]
fn two_names_of_one_hash_come_and_go_apart(rt: HostRuntime) -> Result<(), Fail> {
    let rows = [
        ("mkdir /a", "ok"),
        ("touch /b", "ok"),
        ("ls /", "ok 2 d:a f:b"),
        ("rmdir /a", "ok"),
        ("stat /a", "not found"),
        ("stat /b", "ok f 0x0000000000000004 0 1"),
    ];
    let other = first_other(rt.alloc(), &Zero, &FRESH, &rows)?;
    assert_eq!(rt; other, None);
    Ok(())
}

#[test]
fn the_name_after_1024_of_its_hash_is_refused_before_space(rt: HostRuntime) -> Result<(), Fail> {
    let mut volume = full_directory(rt.alloc(), 0)?;
    fill_meta_zone(rt.alloc(), &mut volume)?;
    let mut volume = opened(volume);
    let rows = [("mkdir /x", "hash full"), ("mkdir /n1023", "exists")];
    let other = first_other_of(rt.alloc(), &mut volume, &Zero, &rows)?;
    assert_eq!(rt; other, None);
    Ok(())
}

#[test]
fn a_name_of_1024_that_goes_leaves_the_others_and_room_for_one(
    rt: HostRuntime,
) -> Result<(), Fail> {
    let rows = [
        ("rm /n0500", "ok"),
        ("stat /n0500", "not found"),
        ("stat /n0000", "ok f 0x0000000000000003 0 1023"),
        ("stat /n0501", "ok f 0x0000000000000003 0 1023"),
        ("stat /n1023", "ok f 0x0000000000000003 0 1023"),
        ("mkdir /x", "ok"),
        ("stat /x", "ok d 0x0000000000000409 0 1"),
    ];
    let other = first_other_in(rt.alloc(), 0, &rows)?;
    assert_eq!(rt; other, None);
    Ok(())
}

#[test]
fn of_1024_entries_one_that_is_hidden_gives_way(rt: HostRuntime) -> Result<(), Fail> {
    let rows = [
        ("mkdir /x", "ok"),
        ("stat /x", "ok d 0x0000000000000404 0 1"),
        ("stat /n0000", "ok f 0x0000000000000003 0 1024"),
        ("stat /n1022", "ok f 0x0000000000000003 0 1024"),
        ("rm /n0000", "ok"),
        ("stat /n0000", "not found"),
    ];
    let other = first_other_in(rt.alloc(), 1, &rows)?;
    assert_eq!(rt; other, None);
    Ok(())
}
