// How many calls of a store the calls on names and on file bytes make.
ghost use Rattle.std.specs.Prelude.{IfOk};
ghost use Rattle.hm_calls_tests.specs.Tests.{IsReady};

use crate::metered::{Counts, Metered};
use crate::testing::{FRESH, Item, Volume, ask, forge_all, nothing, opened, volume_of};
use hm_dirs::Fnv;
use hm_key::{HasElements, HasRoom, MemStore};
use hm_records::FILE;
use std::alloc::Global;
use std::test::Fail;

// The counts of one more call.
fn counts_of(
    alloc: Global,
    volume: Volume<MemStore>,
    line: &str,
) -> Result<(Volume<MemStore>, Counts), Fail>
    requires { IsReady (⟦<MemStore as HasElements>⟧.elements volume.store)
        (⟦<MemStore as HasRoom>⟧.extents volume.store) volume.next }
    ensures { IfOk result (λ pair. IsReady (⟦<MemStore as HasElements>⟧.elements pair.0.store)
        (⟦<MemStore as HasRoom>⟧.extents pair.0.store) pair.0.next) }
{
    let mut metered = Volume {
        store: Metered::new(volume.store, u64::MAX, false),
        next: volume.next,
    };
    ask(alloc, &mut metered, &Fnv, line)?;
    let counts = metered.store.counts;
    let volume = Volume {
        store: metered.store.store,
        next: metered.next,
    };
    Ok((volume, counts))
}

// The counts of a call after others.
fn counts_after(alloc: Global, lines: &[&str], line: &str) -> Result<Counts, Fail> {
    let mut volume = volume_of(alloc, &Fnv, &FRESH)?;
    for before in lines {
        ask(alloc, &mut volume, &Fnv, before)?;
    }
    let (_, counts) = counts_of(alloc, volume, line)?;
    Ok(counts)
}

#[test]
fn a_call_that_makes_a_name_writes_four_times(rt: HostRuntime) -> Result<(), Fail> {
    for (line, writes) in [
        ("mkdir /x", 4),
        ("touch /d/x", 4),
        ("symlink t /x", 6),
        ("mkdir /d", 0),
        ("stat /d/f", 0),
        ("ls /", 0),
    ] {
        let counts = counts_after(rt.alloc(), &["mkdir /d", "touch /d/f"], line)?;
        assert_eq!(rt; counts.writes, writes, "{line}");
        assert_eq!(rt; counts.admits, u64::from(writes > 0), "{line}");
    }
    Ok(())
}

// The record and the root of PFS 0, and of each component its entry and its inode.
#[test]
fn a_walk_takes_two_searches_and_two_for_each_component(rt: HostRuntime) -> Result<(), Fail> {
    let lines = [
        "mkdir /d",
        "mkdir /d/e",
        "touch /f",
        "touch /d/f",
        "touch /d/e/f",
    ];
    for (line, searches) in [("stat /f", 4), ("stat /d/f", 6), ("stat /d/e/f", 8)] {
        let counts = counts_after(rt.alloc(), &lines, line)?;
        assert_eq!(rt; counts.searches, searches, "{line}");
    }
    Ok(())
}

// The counts of `stat` of a name of which there are so many versions.
fn counts_of_versions(alloc: Global, versions: u64) -> Result<Counts, Fail> {
    let mut volume = nothing(alloc, 0);
    forge_all(alloc, &mut volume, &Fnv, &FRESH)?;
    forge_all(alloc, &mut volume, &Fnv, &[Item::Object(0, 3, FILE, 1)])?;
    for _ in 0..versions {
        forge_all(alloc, &mut volume, &Fnv, &[Item::Entry(0, 1, "a", 0, 3)])?;
    }
    let (_, counts) = counts_of(alloc, opened(volume), "stat /a")?;
    Ok(counts)
}

#[test]
fn a_name_of_1000_versions_takes_no_search_more(rt: HostRuntime) -> Result<(), Fail> {
    for versions in [1, 2, 1_000] {
        let counts = counts_of_versions(rt.alloc(), versions)?;
        assert_eq!(rt; counts.searches, 4, "{versions}");
    }
    Ok(())
}

// The counts of a call after a name came, as a line makes it, and went so many times.
fn counts_of_gone(alloc: Global, made: &str, times: u64, line: &str) -> Result<Counts, Fail> {
    let mut lines = Vec::new(alloc);
    for _ in 0..times {
        lines.push(made)?;
        lines.push("rm /a")?;
    }
    counts_after(alloc, &lines, line)
}

#[test]
fn a_name_that_came_and_went_2000_times_takes_no_search_more(rt: HostRuntime) -> Result<(), Fail> {
    for (made, line) in [
        ("touch /a", "stat /a"),
        ("touch /a", "touch /a"),
        ("touch /a", "mkdir /a"),
        ("symlink t /a", "readlink /a"),
        ("symlink t /a", "symlink t /a"),
    ] {
        let few = counts_of_gone(rt.alloc(), made, 1, line)?;
        let many = counts_of_gone(rt.alloc(), made, 2_000, line)?;
        assert_eq!(rt; many.searches, few.searches, "{made}, {line}");
    }
    Ok(())
}

// The counts of `ls` of a directory with as many names.
fn counts_of_listing(alloc: Global, names: u64) -> Result<Counts, Fail> {
    let mut volume = volume_of(alloc, &Fnv, &FRESH)?;
    for name in 0..names {
        let line = format!(in alloc; "touch /f{name}")?;
        ask(alloc, &mut volume, &Fnv, &line)?;
    }
    let (_, counts) = counts_of(alloc, volume, "ls /")?;
    Ok(counts)
}

#[test]
fn a_listing_takes_two_searches_for_each_name(rt: HostRuntime) -> Result<(), Fail> {
    for (names, searches) in [(0, 3), (1, 5), (100, 203)] {
        let counts = counts_of_listing(rt.alloc(), names)?;
        assert!(rt; counts.searches <= searches, "{names}");
    }
    Ok(())
}

#[test]
fn file_bytes_take_a_few_searches_for_each_block(rt: HostRuntime) -> Result<(), Fail> {
    let lines = ["touch /f", "fill /f 0 65536 61", "touch /g"];
    for (line, searches, writes) in [
        ("cat /f 0 16384", 6, 0),
        ("write /f 0 61", 9, 3),
        ("fill /f 0 65536 61", 14, 12),
        ("rm /f", 26, 6),
    ] {
        let counts = counts_after(rt.alloc(), &lines, line)?;
        assert!(rt; counts.searches <= searches, "{line}");
        assert_eq!(rt; counts.writes, writes, "{line}");
    }
    Ok(())
}
