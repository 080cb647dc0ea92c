// The plain program on calls one after another, each with the reply that its rule gives, as it prints.
use hm_model::{Command, Entry, Reply, Tree, apply, look, push_answer};
use hm_types::{Bytes, GREATEST_ID, HOff, Id, Name, Names, NoMemory, Obj, Pfs, Text};
use std::alloc::Global;
use std::test::Fail;

fn text(alloc: Global, word: &str) -> Result<Text, NoMemory> {
    Ok(Text::of(word.as_bytes().to_vec(alloc)?))
}

// The command with this verb and these values, as far as it has them.
fn command(
    alloc: Global,
    verb: &str,
    path: &str,
    other: &str,
    at: u64,
    count: u32,
) -> Result<Command, NoMemory> {
    let path = text(alloc, path)?;
    let word = text(alloc, other)?;
    let bytes = Bytes::of(other.as_bytes().to_vec(alloc)?);
    Ok(match verb {
        "mkdir" => Command::Mkdir { path },
        "touch" => Command::Touch { path },
        "symlink" => Command::Symlink { target: word, path },
        "snapshot" => Command::Snapshot { path },
        "ln" => Command::Ln {
            old: path,
            new: word,
        },
        "mv" => Command::Mv {
            old: path,
            new: word,
        },
        "write" => Command::Write {
            path,
            offset: at,
            bytes,
        },
        "fill" => Command::Fill {
            path,
            offset: at,
            count,
            byte: b'a',
        },
        "truncate" => Command::Truncate { path, size: at },
        "rm" => Command::Rm { path },
        "rmdir" => Command::Rmdir { path },
        "ls" => Command::Ls { path },
        "cat" => Command::Cat {
            path,
            offset: at,
            count,
        },
        "stat" => Command::Stat { path },
        "readlink" => Command::Readlink { path },
        _ => Command::Df,
    })
}

// The reply to a call with this id, as it prints, and the tree after it.
fn answered(
    alloc: Global,
    tree: Tree,
    call: &Command,
    id: u64,
) -> Result<(Vec<u8>, Tree), NoMemory> {
    let mut line = Vec::new(alloc);
    if id == 0 || id > GREATEST_ID {
        return Ok((line, tree));
    }
    let looks = matches!(
        call,
        Command::Ls { .. } | Command::Cat { .. } | Command::Stat { .. } | Command::Readlink { .. }
    );
    if looks {
        let reply = look(alloc, &tree, call)?;
        push_answer(alloc, &mut line, call, &reply)?;
        return Ok((line, tree));
    }
    let (reply, after) = apply(alloc, &tree, call, Id(id))?;
    push_answer(alloc, &mut line, call, &reply)?;
    Ok((line, after))
}

// One call of a table: verb, path, second word, offset or size, count, and the reply.
type Row = (
    &'static str,
    &'static str,
    &'static str,
    u64,
    u32,
    &'static str,
);

// Runs calls from id 2 on, on a new tree. The number of the first one that is answered otherwise.
fn first_wrong(alloc: Global, rows: &[Row]) -> Result<Option<u64>, NoMemory> {
    let mut tree = Tree::root(alloc)?;
    let mut id = 1u64;
    for row in rows {
        id = id.saturating_add(1);
        let call = command(alloc, row.0, row.1, row.2, row.3, row.4)?;
        let (line, after) = answered(alloc, tree, &call, id)?;
        tree = after;
        if line.as_slice() != row.5.as_bytes() {
            return Ok(Some(id));
        }
    }
    Ok(None)
}

#[test]
fn bytes_that_were_never_written_are_zero(rt: HostRuntime) -> Result<(), Fail> {
    let wrong = first_wrong(
        rt.alloc(),
        &[
            ("touch", "/f", "", 0, 0, "ok"),
            ("fill", "/f", "", 40_000, 3, "ok"),
            ("cat", "/f", "", 16_380, 8, "ok 8 0000000000000000"),
            ("cat", "/f", "", 39_998, 10, "ok 5 0000616161"),
            ("cat", "/f", "", 40_003, 10, "ok 0"),
        ],
    )?;
    assert_eq!(rt; wrong, None);
    Ok(())
}

#[test]
fn bytes_that_were_cut_off_never_show_again(rt: HostRuntime) -> Result<(), Fail> {
    let wrong = first_wrong(
        rt.alloc(),
        &[
            ("touch", "/f", "", 0, 0, "ok"),
            ("fill", "/f", "", 0, 20, "ok"),
            ("truncate", "/f", "", 10, 0, "ok"),
            ("truncate", "/f", "", 20, 0, "ok"),
            (
                "cat",
                "/f",
                "",
                0,
                20,
                "ok 20 6161616161616161616100000000000000000000",
            ),
        ],
    )?;
    assert_eq!(rt; wrong, None);
    Ok(())
}

#[test]
fn an_overwrite_keeps_the_bytes_around_it(rt: HostRuntime) -> Result<(), Fail> {
    let wrong = first_wrong(
        rt.alloc(),
        &[
            ("touch", "/f", "", 0, 0, "ok"),
            ("write", "/f", "abcdef", 0, 0, "ok"),
            ("write", "/f", "XY", 2, 0, "ok"),
            ("cat", "/f", "", 0, 10, "ok 6 616258596566"),
            ("write", "/f", "Z", 5, 0, "ok"),
            ("cat", "/f", "", 4, 1, "ok 1 65"),
            ("stat", "/f", "", 0, 0, "ok f 0x0000000000000002 6 1"),
        ],
    )?;
    assert_eq!(rt; wrong, None);
    Ok(())
}

#[test]
fn a_file_has_15728640_bytes_at_most(rt: HostRuntime) -> Result<(), Fail> {
    let wrong = first_wrong(
        rt.alloc(),
        &[
            ("touch", "/f", "", 0, 0, "ok"),
            ("truncate", "/f", "", 15_728_640, 0, "ok"),
            ("truncate", "/f", "", 15_728_641, 0, "too big"),
            ("fill", "/f", "", 15_728_639, 2, "too big"),
            ("fill", "/f", "", 15_728_639, 1, "ok"),
            ("stat", "/f", "", 0, 0, "ok f 0x0000000000000002 15728640 1"),
            ("fill", "/f", "", 18_446_744_073_709_551_615, 1, "too big"),
        ],
    )?;
    assert_eq!(rt; wrong, None);
    Ok(())
}

#[test]
fn each_kind_of_object_has_calls_of_its_own(rt: HostRuntime) -> Result<(), Fail> {
    let wrong = first_wrong(
        rt.alloc(),
        &[
            ("mkdir", "/d", "", 0, 0, "ok"),
            ("touch", "/d/f", "", 0, 0, "ok"),
            ("rmdir", "/d", "", 0, 0, "not empty"),
            ("rm", "/d", "", 0, 0, "is a directory"),
            ("ls", "/d/f", "", 0, 0, "not a directory"),
            ("symlink", "/l", "t", 0, 0, "ok"),
            ("cat", "/l", "", 0, 1, "not a file"),
            ("readlink", "/d", "", 0, 0, "not a link"),
            ("cat", "/d", "", 0, 1, "is a directory"),
            ("readlink", "/l", "", 0, 0, "ok t"),
            ("rm", "/d/f", "", 0, 0, "ok"),
            ("rmdir", "/d", "", 0, 0, "ok"),
            ("ls", "/", "", 0, 0, "ok 1 l:l"),
            ("mkdir", "/l", "", 0, 0, "exists"),
            ("touch", "/l/x", "", 0, 0, "not a directory"),
            ("touch", "/none/x", "", 0, 0, "not found"),
        ],
    )?;
    assert_eq!(rt; wrong, None);
    Ok(())
}

#[test]
fn a_file_stays_while_it_has_a_name(rt: HostRuntime) -> Result<(), Fail> {
    let wrong = first_wrong(
        rt.alloc(),
        &[
            ("touch", "/a", "", 0, 0, "ok"),
            ("ln", "/a", "/b", 0, 0, "ok"),
            ("write", "/b", "1", 0, 0, "ok"),
            ("rm", "/a", "", 0, 0, "ok"),
            ("cat", "/b", "", 0, 9, "ok 1 31"),
            ("stat", "/b", "", 0, 0, "ok f 0x0000000000000002 1 1"),
            ("rm", "/b", "", 0, 0, "ok"),
            ("stat", "/b", "", 0, 0, "not found"),
        ],
    )?;
    assert_eq!(rt; wrong, None);
    Ok(())
}

#[test]
fn moves_keep_the_object_and_drop_the_old_name(rt: HostRuntime) -> Result<(), Fail> {
    let wrong = first_wrong(
        rt.alloc(),
        &[
            ("mkdir", "/a", "", 0, 0, "ok"),
            ("mv", "/a", "/a/b", 0, 0, "into itself"),
            ("touch", "/x", "", 0, 0, "ok"),
            ("touch", "/y", "", 0, 0, "ok"),
            ("mv", "/x", "/y", 0, 0, "ok"),
            ("ls", "/", "", 0, 0, "ok 2 d:a f:y"),
            ("mv", "/y", "/a", 0, 0, "exists"),
            ("mv", "/y", "/y", 0, 0, "ok"),
            ("stat", "/y", "", 0, 0, "ok f 0x0000000000000004 0 1"),
        ],
    )?;
    assert_eq!(rt; wrong, None);
    Ok(())
}

#[test]
fn a_snapshot_names_the_id_before_its_own(rt: HostRuntime) -> Result<(), Fail> {
    let wrong = first_wrong(
        rt.alloc(),
        &[
            ("touch", "/f", "", 0, 0, "ok"),
            ("snapshot", "/one", "", 0, 0, "ok"),
            ("readlink", "/one", "", 0, 0, "ok @@0x0000000000000002"),
            ("stat", "/one", "", 0, 0, "ok l 0x0000000000000003 20 1"),
        ],
    )?;
    assert_eq!(rt; wrong, None);
    Ok(())
}

#[test]
fn a_bad_path_is_told_by_its_place(rt: HostRuntime) -> Result<(), Fail> {
    let wrong = first_wrong(
        rt.alloc(),
        &[
            ("mkdir", "/", "", 0, 0, "bad path 0"),
            ("ls", "/a//b", "", 0, 0, "bad path 3"),
            ("mv", "/", "/b", 0, 0, "bad path 0"),
            ("ln", "/none", "/", 0, 0, "bad path 0"),
            ("ln", "/none", "/b", 0, 0, "not found"),
        ],
    )?;
    assert_eq!(rt; wrong, None);
    let alloc = rt.alloc();
    for (letters, want) in [(255, "ok"), (256, "bad path 1")] {
        let name = "a".repeat(alloc, letters)?;
        let path = format!(in alloc; "/{name}")?;
        let call = command(alloc, "mkdir", path.as_str(), "", 0, 0)?;
        let (line, _) = answered(alloc, Tree::root(alloc)?, &call, 2)?;
        assert!(rt; line.as_slice() == want.as_bytes(), "{letters}");
    }
    Ok(())
}

#[test]
fn names_are_listed_by_their_bytes(rt: HostRuntime) -> Result<(), Fail> {
    let wrong = first_wrong(
        rt.alloc(),
        &[
            ("touch", "/b", "", 0, 0, "ok"),
            ("mkdir", "/a", "", 0, 0, "ok"),
            ("symlink", "/ab", "t", 0, 0, "ok"),
            ("ls", "/", "", 0, 0, "ok 3 d:a l:ab f:b"),
            ("stat", "/", "", 0, 0, "ok d 0x0000000000000001 3 1"),
        ],
    )?;
    assert_eq!(rt; wrong, None);
    Ok(())
}

// How a reply prints.
fn printed(alloc: Global, reply: &Reply) -> Result<Vec<u8>, NoMemory> {
    let mut line = Vec::new(alloc);
    push_answer(alloc, &mut line, &Command::Df, reply)?;
    Ok(line)
}

#[test]
fn each_plain_refusal_prints_its_text(rt: HostRuntime) -> Result<(), Fail> {
    for (reply, want) in [
        (Reply::Exists, "exists"),
        (Reply::NotFound, "not found"),
        (Reply::NotDir, "not a directory"),
        (Reply::IsDir, "is a directory"),
        (Reply::NotEmpty, "not empty"),
        (Reply::BadPath { place: 1_023 }, "bad path 1023"),
        (Reply::ReadOnly, "read only"),
        (Reply::NotRetained, "not retained"),
        (Reply::Future { last: Id(2) }, "future 0x0000000000000002"),
        (Reply::TooBig, "too big"),
        (Reply::CrossPfs, "crosses a pfs"),
        (Reply::IntoItself, "into itself"),
        (Reply::HashFull, "hash full"),
        (Reply::PfsFull, "pfs full"),
        (Reply::NoSnapshots, "no snapshots"),
        (
            Reply::TooManyIntervals { count: 4_098 },
            "too many intervals 4098",
        ),
        (Reply::NotSlave, "not a slave"),
        (Reply::NotMaster, "not a master"),
        (Reply::IdsSpent, "ids spent"),
        (Reply::NoSpace { free: 4, needed: 1 }, "no space 4 1"),
        (Reply::NoMemory, "no memory"),
        (Reply::NotLink, "not a link"),
        (Reply::NotFile, "not a file"),
    ] {
        let line = printed(rt.alloc(), &reply)?;
        assert!(rt; line.as_slice() == want.as_bytes(), "{want}");
    }
    Ok(())
}

#[test]
fn each_refusal_of_a_device_or_a_stream_prints_its_text(rt: HostRuntime) -> Result<(), Fail> {
    for (reply, want) in [
        (
            Reply::Media {
                before: 0,
                after: 1,
            },
            "media 0 1",
        ),
        (
            Reply::Damaged {
                at: HOff::default(),
                kind: 2,
            },
            "damaged 0x1000000000000000 2",
        ),
        (
            Reply::SharedDiffers {
                slave: 0xaa,
                stream: 0xb,
            },
            "shared differs 00000000000000aa 000000000000000b",
        ),
        (
            Reply::BeginDiffers {
                slave: Id(0),
                stream: Id(1),
            },
            "begin differs 0x0000000000000000 0x0000000000000001",
        ),
        (Reply::StreamBad { place: 0 }, "stream bad 0"),
        (Reply::StreamShort { taken: 31 }, "stream short 31"),
        (
            Reply::StreamFault {
                before: 3,
                after: 5,
            },
            "stream fault 3 5",
        ),
        (
            Reply::EndPruned {
                end: Id(4),
                first: Id(5),
            },
            "end pruned 0x0000000000000004 0x0000000000000005",
        ),
        (Reply::Busy { opening: Id(3) }, "busy 0x0000000000000003"),
    ] {
        let line = printed(rt.alloc(), &reply)?;
        assert!(rt; line.as_slice() == want.as_bytes(), "{want}");
    }
    Ok(())
}

#[test]
fn each_accepted_reply_prints_its_text(rt: HostRuntime) -> Result<(), Fail> {
    let alloc = rt.alloc();
    let names = Names::of(vec![in alloc;
        (1, Name::of(b"a".to_vec(alloc)?)),
        (4, Name::of(b"p".to_vec(alloc)?)),
    ]?);
    let none = Bytes::of(Vec::new(alloc));
    let some = Bytes::of(vec![in alloc; 0xab, 0x01]?);
    for (reply, want) in [
        (Reply::Done, "ok"),
        (Reply::Listing { names }, "ok 2 d:a p:p"),
        (Reply::Content { bytes: none }, "ok 0"),
        (Reply::Content { bytes: some }, "ok 2 ab01"),
        (
            Reply::Status {
                kind: 2,
                obj: Obj(2),
                size: 7,
                links: 1,
            },
            "ok f 0x0000000000000002 7 1",
        ),
        (
            Reply::Target {
                text: text(alloc, "@@-1:00001")?,
            },
            "ok @@-1:00001",
        ),
        (Reply::Synced { boundary: Id(2) }, "ok 0x0000000000000002"),
        (Reply::MadePfs { number: Pfs(1) }, "ok 00001"),
        (
            Reply::PfsIs {
                master: true,
                number: Pfs(0),
                shared: 0,
                intervals: 2,
                sync_end: Id(0),
            },
            "ok master 00000 0000000000000000 2",
        ),
        (
            Reply::PfsIs {
                master: false,
                number: Pfs(2),
                shared: 0xaa,
                intervals: 1,
                sync_end: Id(12),
            },
            "ok slave 00002 00000000000000aa 1 0x000000000000000c",
        ),
        (Reply::Space { pool: 13, free: 9 }, "ok 13 9"),
        (Reply::Finished, "done"),
        (
            Reply::Passed {
                begin: Id(0),
                end: Id(6),
            },
            "done 0x0000000000000000 0x0000000000000006",
        ),
        (Reply::Cut { items: 1 }, "cut 1"),
    ] {
        let line = printed(alloc, &reply)?;
        assert!(rt; line.as_slice() == want.as_bytes(), "{want}");
    }
    let mut line = Vec::new(alloc);
    push_answer(
        alloc,
        &mut line,
        &Command::Sync,
        &Reply::Synced { boundary: Id(2) },
    )?;
    assert!(rt; line.as_slice() == b"ok".as_slice());
    Ok(())
}

#[test]
fn tells_entries_apart(rt: HostRuntime) -> Result<(), Fail> {
    let alloc = rt.alloc();
    for (name, id, lane, line, reply, same) in [
        ("/a", 2, 0, 1, Reply::Done, true),
        ("/b", 2, 0, 1, Reply::Done, false),
        ("/a", 3, 0, 1, Reply::Done, false),
        ("/a", 2, 1, 1, Reply::Done, false),
        ("/a", 2, 0, 2, Reply::Done, false),
        ("/a", 2, 0, 1, Reply::NoMemory, false),
    ] {
        let first = Entry {
            id: Id(2),
            lane: 0,
            line: 1,
            call: command(alloc, "mkdir", "/a", "", 0, 0)?,
            reply: Reply::Done,
        };
        let other = Entry {
            id: Id(id),
            lane,
            line,
            call: command(alloc, "mkdir", name, "", 0, 0)?,
            reply,
        };
        assert_eq!(rt; first == other, same);
    }
    Ok(())
}
