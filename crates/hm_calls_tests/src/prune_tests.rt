// The openings of `prune` and `prune-everything` on rows worked out by hand: which pseudo file system
// they lead to, what it keeps from then on, and which refusal comes first.
ghost use Rattle.std.specs.Prelude.{IfOk};
ghost use Rattle.hm_key.specs.Balance.{Balanced};
ghost use Rattle.hm_calls_tests.specs.Tests.{IsReady};

use crate::testing::{
    Item, Volume, ask, fill_meta_zone, forge, forge_all, keeping_bytes, nothing, opened, volume_of,
};
use hm_calls::{Led, Opened, Pruning, open_prune};
use hm_cursor::{find_record, record_base};
use hm_dirs::Fnv;
use hm_key::{ElementStore, Extents, HasElements, HasRoom, MemStore};
use hm_model::{Command, Reply, push_answer};
use hm_records::{DIRECTORY, FILE, SOFTLINK};
use hm_retain::Retention;
use hm_types::{Counted, GREATEST_ID, Id, Pfs, Text};
use std::alloc::Global;
use std::test::Fail;

// The last id of an interval with an open end.
const OPEN_END: u64 = u64::MAX;

// Adds the intervals of a retention to a text.
fn push_kept(alloc: Global, text: &mut Vec<u8>, kept: &Retention) -> Result<(), Fail> {
    for (first, last) in kept.pairs() {
        let interval = if last.0 == OPEN_END {
            format!(in alloc; " {}-", first.0)?
        } else {
            format!(in alloc; " {}-{}", first.0, last.0)?
        };
        text.extend_from_slice(interval.as_bytes())?;
    }
    Ok(())
}

// Whether the record of a pseudo file system tells that it keeps these ids, with its other words as
// they were forged.
fn record_tells(alloc: Global, store: &mut MemStore, led: &Led) -> Result<bool, Fail>
    requires { Balanced (⟦<MemStore as HasElements>⟧.elements store.old)
        (⟦<MemStore as HasRoom>⟧.extents store.old) }
{
    Ok(match find_record(alloc, store, led.pfs)? {
        Some(record) => record.shared == 7 && record.retention.pairs() == led.kept.pairs(),
        None => led.kept.pairs().is_empty(),
    })
}

// The text of what an opening led to by an id: the number of a pseudo file system, and what it keeps
// as its record tells.
fn opening_text(
    alloc: Global,
    volume: &mut Volume<MemStore>,
    pruning: Pruning,
    path: &str,
) -> Result<Vec<u8>, Fail>
    requires { Balanced (⟦<MemStore as HasElements>⟧.elements volume.old.store)
        (⟦<MemStore as HasRoom>⟧.extents volume.old.store) }
{
    if volume.next == 0 || volume.next > GREATEST_ID {
        return Err("no id")?;
    }
    let path = Text::of(Vec::from_slice(alloc, path.as_bytes())?);
    let mut text = Vec::new(alloc);
    match open_prune(
        alloc,
        &mut volume.store,
        &Fnv,
        pruning,
        &path,
        Id(volume.next),
    )? {
        // The texts of refusals are the same for both commands.
        Opened::Refused(reply) => push_answer(alloc, &mut text, &Command::Prune { path }, &reply)?,
        Opened::Led(led) => {
            text.extend_from_slice(format!(in alloc; "ok {}", led.pfs.0)?.as_bytes())?;
            push_kept(alloc, &mut text, &led.kept)?;
            if !record_tells(alloc, &mut volume.store, &led)? {
                text.extend_from_slice(b" and its record tells otherwise")?;
            }
        }
    }
    Ok(text)
}

// A store with some elements, after some lines, each of which was accepted.
fn volume_after(alloc: Global, items: &[Item], lines: &[&str]) -> Result<Volume<MemStore>, Fail>
    ensures { IfOk result (λ volume. IsReady (⟦<MemStore as HasElements>⟧.elements volume.store)
        (⟦<MemStore as HasRoom>⟧.extents volume.store) volume.next) }
{
    let mut volume = volume_of(alloc, &Fnv, items)?;
    for line in lines {
        if ask(alloc, &mut volume, &Fnv, line)?.as_slice() != "ok".as_bytes() {
            return Err("a line was refused")?;
        }
    }
    Ok(volume)
}

// The first path whose opening over such a store tells another text, and that text, if there is one.
fn first_other<'a>(
    alloc: Global,
    items: &[Item],
    lines: &[&str],
    rows: &[(Pruning, &'a str, &'a str)],
) -> Result<Option<(&'a str, Vec<u8>)>, Fail> {
    for (pruning, path, want) in rows {
        let mut volume = volume_after(alloc, items, lines)?;
        let got = opening_text(alloc, &mut volume, *pruning, path)?;
        if got.as_slice() != want.as_bytes() {
            return Ok(Some((*path, got)));
        }
    }
    Ok(None)
}

// PFS 0 with gaps in what it keeps: before the first id, inside, and before the last interval. The
// next id is 3.
const GAPS: [Item; 2] = [
    Item::Keeping(0, None, &[(3, 5), (9, 9), (14, OPEN_END)]),
    Item::Object(0, 1, DIRECTORY, 1),
];

// Directories with softlinks. The next id is then 17.
const LINKS: [&str; 14] = [
    "mkdir /a",
    "mkdir /b",
    "mkdir /c",
    "mkdir /e",
    "mkdir /o",
    "mkdir /p",
    "touch /f",
    "symlink x@@0x0000000000000004 /a/one",
    "symlink @@0x0000000000000009@@0x0000000000000003 /a/two",
    "symlink @@0x0000000000000007 /b/one",
    "symlink @@0x@@0x000000000000000Az /c/one",
    "symlink @@0x000000000000005 /e/short",
    "symlink @@0x0000000000000011 /o/own",
    "symlink @@0x0000000000000012 /p/later",
];

#[test]
fn a_prune_keeps_what_softlinks_name_and_all_from_the_greatest_on(
    rt: HostRuntime,
) -> Result<(), Fail> {
    let rows = [
        // Of a target that holds two ids the first counts.
        (Pruning::Snapshots, "/a", "ok 0 4-4 9-9 14-"),
        // An id that is not kept is not kept afterwards.
        (Pruning::Snapshots, "/b", "ok 0 9-9 14-"),
        // Digits may be upper case, and what comes before the id does not count.
        (Pruning::Snapshots, "/c", "ok 0 14-"),
        // The call's own id counts, and none above it.
        (Pruning::Snapshots, "/o", "ok 0 17-"),
        (Pruning::Snapshots, "/p", "no snapshots"),
        // Fifteen digits are no id.
        (Pruning::Snapshots, "/e", "no snapshots"),
        (Pruning::Snapshots, "/", "no snapshots"),
    ];
    let other = first_other(rt.alloc(), &GAPS, &LINKS, &rows)?;
    assert_eq!(rt; other, None);
    Ok(())
}

#[test]
fn prune_everything_keeps_the_present_alone(rt: HostRuntime) -> Result<(), Fail> {
    let rows = [
        (Pruning::Present, "/", "ok 0 17-"),
        (Pruning::Present, "/f", "ok 0 17-"),
        (Pruning::Present, "/a/one", "ok 0 17-"),
    ];
    let other = first_other(rt.alloc(), &GAPS, &LINKS, &rows)?;
    assert_eq!(rt; other, None);
    Ok(())
}

#[test]
fn refusals_of_openings_come_in_their_order(rt: HostRuntime) -> Result<(), Fail> {
    let rows = [
        (Pruning::Snapshots, "a", "bad path 0"),
        (Pruning::Present, "a", "bad path 0"),
        (
            Pruning::Snapshots,
            "/a//x@@0x00000000000000ff",
            "bad path 3",
        ),
        (
            Pruning::Snapshots,
            "/none@@0x0000000000000011",
            "future 0x0000000000000010",
        ),
        (
            Pruning::Present,
            "/none@@0x0000000000000011",
            "future 0x0000000000000010",
        ),
        // A path with an id is of the past, wherever it leads.
        (Pruning::Snapshots, "/none@@0x0000000000000010", "read only"),
        (Pruning::Present, "/none@@0x0000000000000010", "read only"),
        (Pruning::Snapshots, "/a@@0x000000000000000a", "read only"),
        (Pruning::Snapshots, "/none", "not found"),
        (Pruning::Present, "/none", "not found"),
        (Pruning::Snapshots, "/f/x", "not a directory"),
        (Pruning::Present, "/f/x", "not a directory"),
        (Pruning::Snapshots, "/f", "not a directory"),
        (Pruning::Snapshots, "/a/one", "not a directory"),
    ];
    let other = first_other(rt.alloc(), &GAPS, &LINKS, &rows)?;
    assert_eq!(rt; other, None);
    Ok(())
}

// PFS 0 with links `s` to PFS 1, a slave with sync end 20 whose softlinks name 5, its sync end and a
// later id, `m` to PFS 3, a master with a softlink that names 23 and a link `n` to PFS 4, and `q` to
// PFS 9, which is not there. In the slave a link `n` leads to PFS 4 too, a slave that has no root and
// does not keep its sync end. The next id is 32.
const SYSTEMS: [Item; 31] = [
    Item::Master(0),
    Item::Object(0, 1, DIRECTORY, 1),
    Item::Keeping(1, Some(20), &[(2, 3), (5, 20)]),
    Item::Object(1, 1, DIRECTORY, 1),
    Item::Object(1, 5, DIRECTORY, 1),
    Item::Entry(1, 1, "d", 0, 5),
    Item::Object(1, 7, SOFTLINK, 1),
    Item::Target(1, 7, "@@0x0000000000000005"),
    Item::Entry(1, 5, "five", 0, 7),
    Item::Object(1, 10, SOFTLINK, 1),
    Item::Target(1, 10, "@@0x0000000000000014"),
    Item::Entry(1, 1, "end", 0, 10),
    Item::Object(1, 13, SOFTLINK, 1),
    Item::Target(1, 13, "@@0x0000000000000015"),
    Item::Entry(1, 5, "later", 0, 13),
    Item::LinkIn(1, 16, 4),
    Item::Entry(1, 1, "n", 0, 16),
    Item::Link(18, 1),
    Item::Entry(0, 1, "s", 0, 18),
    Item::Master(3),
    Item::Object(3, 1, DIRECTORY, 1),
    Item::Link(22, 3),
    Item::Entry(0, 1, "m", 0, 22),
    Item::Object(3, 24, SOFTLINK, 1),
    Item::Target(3, 24, "@@0x0000000000000017"),
    Item::Entry(3, 1, "one", 0, 24),
    Item::LinkIn(3, 27, 4),
    Item::Entry(3, 1, "n", 0, 27),
    Item::Keeping(4, Some(7), &[(3, 6)]),
    Item::Link(30, 9),
    Item::Entry(0, 1, "q", 0, 30),
];

#[test]
fn an_opening_leads_to_the_system_in_which_its_path_ends(rt: HostRuntime) -> Result<(), Fail> {
    let rows = [
        // A slave is pruned too. The ids that it names count up to its sync end.
        (Pruning::Snapshots, "/s/d", "ok 1 5-20"),
        (Pruning::Snapshots, "/s", "ok 1 20-20"),
        (Pruning::Present, "/s", "ok 1 20-20"),
        (Pruning::Present, "/s/d/five", "ok 1 20-20"),
        (Pruning::Snapshots, "/m", "ok 3 23-"),
        (Pruning::Present, "/m", "ok 3 32-"),
        (Pruning::Snapshots, "/", "no snapshots"),
        (Pruning::Present, "/", "ok 0 32-"),
        (Pruning::Snapshots, "/q", "not found"),
        (Pruning::Present, "/q", "not found"),
        // The root of a linked system is not looked at by `prune-everything`.
        (Pruning::Snapshots, "/m/n", "not found"),
        (Pruning::Present, "/m/n", "ok 4"),
        (Pruning::Snapshots, "/s/n", "not found"),
        (Pruning::Present, "/s/n", "ok 4"),
        (Pruning::Present, "/m/@@0x000000000000001c/n", "read only"),
        (Pruning::Present, "/@@0x0000000000000017/m", "read only"),
    ];
    let other = first_other(rt.alloc(), &SYSTEMS, &[], &rows)?;
    assert_eq!(rt; other, None);
    Ok(())
}

#[test]
fn a_system_without_a_record_keeps_nothing(rt: HostRuntime) -> Result<(), Fail> {
    let rootless = [Item::Object(0, 1, DIRECTORY, 1)];
    let rows = [
        // What is not there shows no object.
        (Pruning::Snapshots, "/", "not a directory"),
        (Pruning::Present, "/", "ok 0"),
    ];
    let other = first_other(rt.alloc(), &rootless, &[], &rows)?;
    assert_eq!(rt; other, None);
    Ok(())
}

// PFS 0 with 4,096 intervals: one of the ids 1 to 9, single ids, and one with an open end. Softlinks
// in two directories name ids of the first interval.
fn many_intervals(alloc: Global) -> Result<Volume<MemStore>, Fail>
    ensures { IfOk result (λ volume. IsReady (⟦<MemStore as HasElements>⟧.elements volume.store)
        (⟦<MemStore as HasRoom>⟧.extents volume.store) volume.next) }
{
    let mut kept = vec![in alloc; (1, 9)]?;
    for i in 0..4_094 {
        kept.push((11 + 2 * i, 11 + 2 * i))?;
    }
    kept.push((9_000, OPEN_END))?;
    let mut volume = nothing(alloc, 0);
    forge(
        &mut volume,
        &record_base(Pfs(0)),
        &keeping_bytes(alloc, None, &kept)?,
    )?;
    forge_all(alloc, &mut volume, &Fnv, &NAMED)?;
    Ok(opened(volume))
}

const NAMED: [Item; 15] = [
    Item::Object(0, 1, DIRECTORY, 1),
    Item::Object(0, 3, DIRECTORY, 1),
    Item::Entry(0, 1, "a", 0, 3),
    Item::Object(0, 5, SOFTLINK, 1),
    Item::Target(0, 5, "@@0x0000000000000003"),
    Item::Entry(0, 3, "one", 0, 5),
    Item::Object(0, 8, DIRECTORY, 1),
    Item::Entry(0, 1, "b", 0, 8),
    Item::Entry(0, 8, "one", 0, 5),
    Item::Object(0, 11, SOFTLINK, 1),
    Item::Target(0, 11, "@@0x0000000000000005"),
    Item::Entry(0, 8, "two", 0, 11),
    Item::Object(0, 14, SOFTLINK, 1),
    Item::Target(0, 14, "@@0x0000000000000008"),
    Item::Entry(0, 8, "last", 0, 14),
];

#[test]
fn more_than_4096_intervals_are_refused(rt: HostRuntime) -> Result<(), Fail> {
    let alloc = rt.alloc();
    let mut volume = many_intervals(alloc)?;
    // The ids 3, 5, 8 and 9, and the 4,095 intervals behind them.
    let got = opening_text(alloc, &mut volume, Pruning::Snapshots, "/b")?;
    assert_eq!(rt; got.as_slice(), "too many intervals 4098".as_bytes());
    // The ids 3 to 9, and the 4,095 intervals behind them.
    let mut volume = many_intervals(alloc)?;
    let got = opening_text(alloc, &mut volume, Pruning::Snapshots, "/a")?;
    assert_eq!(rt; got.starts_with(b"ok 0 3-9 11-11 13-13"), true);
    assert_eq!(rt; got.ends_with(b" 8197-8197 9000-"), true);
    Ok(())
}

// PFS 0, with less room for payloads than the reserve, a softlink in its root, and as many free
// big-blocks.
fn full_volume(alloc: Global, free: u32) -> Result<Volume<MemStore>, Fail>
    ensures { IfOk result (λ volume. IsReady (⟦<MemStore as HasElements>⟧.elements volume.store)
        (⟦<MemStore as HasRoom>⟧.extents volume.store) volume.next) }
{
    let mut volume = nothing(alloc, free);
    forge_all(alloc, &mut volume, &Fnv, &FULL)?;
    fill_meta_zone(alloc, &mut volume)?;
    Ok(opened(volume))
}

const FULL: [Item; 5] = [
    Item::Master(0),
    Item::Object(0, 1, DIRECTORY, 1),
    Item::Object(0, 3, SOFTLINK, 1),
    Item::Target(0, 3, "@@0x0000000000000004"),
    Item::Entry(0, 1, "one", 0, 3),
];

#[test]
fn a_volume_on_which_each_change_is_refused_is_pruned(rt: HostRuntime) -> Result<(), Fail> {
    let alloc = rt.alloc();
    let mut volume = full_volume(alloc, 1)?;
    assert_eq!(rt;
        ask(alloc, &mut volume, &Fnv, "touch /x")?.as_slice(),
        "no space 1 1".as_bytes()
    );
    let got = opening_text(alloc, &mut volume, Pruning::Snapshots, "/")?;
    assert_eq!(rt; got.as_slice(), "ok 0 4-".as_bytes());
    let mut volume = full_volume(alloc, 1)?;
    let got = opening_text(alloc, &mut volume, Pruning::Present, "/")?;
    assert_eq!(rt; got.as_slice(), "ok 0 133-".as_bytes());
    // Want of space is the last check.
    let mut volume = full_volume(alloc, 0)?;
    let got = opening_text(alloc, &mut volume, Pruning::Snapshots, "/one")?;
    assert_eq!(rt; got.as_slice(), "not a directory".as_bytes());
    let mut volume = full_volume(alloc, 0)?;
    let got = opening_text(alloc, &mut volume, Pruning::Snapshots, "/")?;
    assert_eq!(rt; got.as_slice(), "no space 0 1".as_bytes());
    let mut volume = full_volume(alloc, 0)?;
    let got = opening_text(alloc, &mut volume, Pruning::Present, "/")?;
    assert_eq!(rt; got.as_slice(), "no space 0 1".as_bytes());
    Ok(())
}
