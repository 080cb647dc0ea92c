// Trees of short lists of elements, worked out by hand from what a view is.
use hm_key::{
    Base, DIRECTORY_ENTRY, ELEMENT, FILE_BYTES, INODE, INODE_PART, OTHER_PART, SOFTLINK_TARGET,
};
use hm_records::{
    DIRECTORY, DirEntry, FILE, FullElement, Inode, PFS_LINK, SOFTLINK, encode_entry, encode_inode,
    have_own_keys, view_of,
};
use hm_types::{Content, Id, Name, Obj, Object, Pfs, Triple};
use std::alloc::Global;
use std::test::Fail;

// An element of PFS 0 that was made and closed by these ids.
fn element(
    part: u32,
    obj: u64,
    rec_type: u16,
    key: u64,
    ids: (u64, u64),
    bytes: Vec<u8>,
) -> FullElement {
    FullElement::of(
        Base {
            obj: Obj(obj),
            key,
            create: ids.0,
            delete: ids.1,
            rec_type,
            obj_type: 1,
            btype: ELEMENT,
            localization: part,
        },
        bytes,
    )
}

fn inode(
    alloc: Global,
    obj: u64,
    ids: (u64, u64),
    kind: u8,
    size: u64,
    links: u32,
) -> Result<FullElement, Fail> {
    let pfs = if kind == PFS_LINK { Pfs(7) } else { Pfs(0) };
    let value = Inode {
        kind,
        size,
        links,
        pfs,
    };
    Ok(element(INODE_PART, obj, INODE, 0, ids, encode_inode(alloc, &value)?))
}

fn bytes(
    alloc: Global,
    obj: u64,
    end: u64,
    ids: (u64, u64),
    held: &str,
) -> Result<FullElement, Fail> {
    Ok(element(
        OTHER_PART,
        obj,
        FILE_BYTES,
        end,
        ids,
        held.as_bytes().to_vec(alloc)?,
    ))
}

fn entry(
    alloc: Global,
    directory: u64,
    key: u64,
    ids: (u64, u64),
    name: &str,
    obj: u64,
) -> Result<FullElement, Fail> {
    let value = DirEntry {
        obj: Obj(obj),
        name: Name::of(name.as_bytes().to_vec(alloc)?),
    };
    Ok(element(
        OTHER_PART,
        directory,
        DIRECTORY_ENTRY,
        key,
        ids,
        encode_entry(alloc, &value)?,
    ))
}

fn target(alloc: Global, obj: u64, ids: (u64, u64), held: &str) -> Result<FullElement, Fail> {
    Ok(element(
        OTHER_PART,
        obj,
        SOFTLINK_TARGET,
        0,
        ids,
        held.as_bytes().to_vec(alloc)?,
    ))
}

// Bytes as text, in which a zero is a dot.
fn push_bytes(text: &mut String, bytes: &[u8]) -> Result<(), Fail> {
    for byte in bytes {
        text.push(if *byte == 0 { '.' } else { char::from(*byte) })?;
    }
    Ok(())
}

// An object as its number, its kind, its links, and what it holds.
fn push_object(alloc: Global, text: &mut String, object: &Object) -> Result<(), Fail> {
    let number = object.number.0;
    let links = object.links;
    match &object.content {
        Content::Nothing => text.push_str(&format!(in alloc; "{number}d{links} ")?)?,
        Content::File(held) => {
            text.push_str(&format!(in alloc; "{number}f{links}<")?)?;
            push_bytes(text, held.bytes())?;
            text.push_str("> ")?;
        }
        Content::Target(held) => {
            text.push_str(&format!(in alloc; "{number}l{links}<")?)?;
            push_bytes(text, held.bytes())?;
            text.push_str("> ")?;
        }
        Content::Linked(pfs) => {
            let pfs = pfs.0;
            text.push_str(&format!(in alloc; "{number}p{links}:{pfs} ")?)?;
        }
    }
    Ok(())
}

// A triple as its directory, its name and its object.
fn push_triple(alloc: Global, text: &mut String, triple: &Triple) -> Result<(), Fail> {
    let directory = triple.directory.0;
    let object = triple.object.0;
    text.push_str(&format!(in alloc; "{directory}/")?)?;
    push_bytes(text, triple.name.bytes())?;
    text.push_str(&format!(in alloc; "={object} ")?)?;
    Ok(())
}

// The tree of PFS 0 as of an id, as text. No list here has a key twice.
fn shown(alloc: Global, elements: &[FullElement], id: u64) -> Result<String, Fail> {
    if !have_own_keys(elements) {
        return Ok(format!(in alloc; "a key twice")?);
    }
    let tree = view_of(alloc, elements, Pfs(0), Id(id))?;
    let mut text = String::new(alloc);
    for object in &tree.objects {
        push_object(alloc, &mut text, object)?;
    }
    for triple in &tree.triples {
        push_triple(alloc, &mut text, triple)?;
    }
    Ok(text)
}

#[test]
fn versions_follow_one_another(rt: HostRuntime) -> Result<(), Fail> {
    let alloc = rt.alloc();
    let elements = vec![in alloc;
        inode(alloc, 1, (1, 0), DIRECTORY, 0, 1)?,
        inode(alloc, 5, (5, 7), FILE, 0, 1)?,
        inode(alloc, 5, (7, 9), FILE, 0, 2)?,
    ]?;
    for (id, wanted) in [
        (0u64, ""),
        (1, "1d1 "),
        (4, "1d1 "),
        (5, "1d1 5f1<> "),
        (6, "1d1 5f1<> "),
        (7, "1d1 5f2<> "),
        (8, "1d1 5f2<> "),
        (9, "1d1 "),
    ] {
        assert_eq!(rt; shown(alloc, &elements, id)?.as_str(), wanted, "{id}");
    }
    Ok(())
}

// Lists that no call of ours writes: an older version is open, or was closed after a newer was made.
#[test]
fn of_several_versions_the_newest_decides(rt: HostRuntime) -> Result<(), Fail> {
    let alloc = rt.alloc();
    let elements = vec![in alloc;
        inode(alloc, 5, (5, 0), FILE, 0, 1)?,
        inode(alloc, 5, (7, 9), FILE, 0, 2)?,
        entry(alloc, 1, 65536, (5, 0), "a", 5)?,
        entry(alloc, 1, 65536, (6, 0), "b", 5)?,
        inode(alloc, 6, (5, 9), FILE, 0, 3)?,
        inode(alloc, 6, (6, 7), FILE, 0, 4)?,
    ]?;
    for (id, wanted) in [
        (5u64, "5f1<> 6f3<> 1/a=5 "),
        (6, "5f1<> 6f4<> 1/b=5 "),
        // the newer inode of 6 is closed, and the older one, which is seen, counts no more
        (7, "5f2<> 1/b=5 "),
        (8, "5f2<> 1/b=5 "),
        // that of 5 too, of which the older one is open
        (9, "1/b=5 "),
        (20, "1/b=5 "),
    ] {
        assert_eq!(rt; shown(alloc, &elements, id)?.as_str(), wanted, "{id}");
    }
    Ok(())
}

#[test]
fn files_are_cut_and_extended(rt: HostRuntime) -> Result<(), Fail> {
    let alloc = rt.alloc();
    let elements = vec![in alloc;
        // twelve bytes, then three, then six
        inode(alloc, 5, (5, 6), FILE, 12, 1)?,
        inode(alloc, 5, (6, 7), FILE, 3, 1)?,
        inode(alloc, 5, (7, 0), FILE, 6, 1)?,
        // bytes 0 to 9, of which 0 to 2 are left from id 6 on
        bytes(alloc, 5, 3, (6, 0), "abc")?,
        bytes(alloc, 5, 10, (5, 6), "abcdefghij")?,
    ]?;
    for (id, wanted) in [
        (5u64, "5f1<abcdefghij..> "),
        (6, "5f1<abc> "),
        (7, "5f1<abc...> "),
    ] {
        assert_eq!(rt; shown(alloc, &elements, id)?.as_str(), wanted, "{id}");
    }
    Ok(())
}

#[test]
fn of_the_bytes_of_a_block_one_element_shows(rt: HostRuntime) -> Result<(), Fail> {
    let alloc = rt.alloc();
    let elements = vec![in alloc;
        // nine bytes, then five, then three, then seven
        inode(alloc, 5, (5, 7), FILE, 9, 1)?,
        inode(alloc, 5, (7, 8), FILE, 5, 1)?,
        inode(alloc, 5, (8, 9), FILE, 3, 1)?,
        inode(alloc, 5, (9, 0), FILE, 7, 1)?,
        // bytes 0 to 3, 0 to 5 and 7 to 8 of one block, made by one id
        bytes(alloc, 5, 4, (5, 0), "abcd")?,
        bytes(alloc, 5, 6, (5, 0), "ABCDEF")?,
        bytes(alloc, 5, 9, (5, 6), "hi")?,
        // a later version of the bytes that end before byte 6 is shorter
        bytes(alloc, 5, 6, (9, 0), "f")?,
        // bytes of the second block, which begins past the file
        bytes(alloc, 5, 16_385, (5, 0), "z")?,
    ]?;
    for (id, wanted) in [
        // the last one that ends within the file
        (5u64, "5f1<.......hi> "),
        (6, "5f1<ABCDEF...> "),
        (7, "5f1<abcd.> "),
        // none ends within the file: the first one past it
        (8, "5f1<abc> "),
        (9, "5f1<.....f.> "),
    ] {
        assert_eq!(rt; shown(alloc, &elements, id)?.as_str(), wanted, "{id}");
    }
    Ok(())
}

#[test]
fn of_two_entries_of_one_name_the_first_counts(rt: HostRuntime) -> Result<(), Fail> {
    let alloc = rt.alloc();
    let elements = vec![in alloc;
        entry(alloc, 1, 65537, (5, 9), "a", 5)?,
        entry(alloc, 1, 65536, (6, 8), "a", 6)?,
        entry(alloc, 1, 131072, (5, 0), "B", 7)?,
        entry(alloc, 2, 65536, (5, 0), "a", 8)?,
    ]?;
    for (id, wanted) in [
        (5u64, "1/B=7 1/a=5 2/a=8 "),
        (6, "1/B=7 1/a=6 2/a=8 "),
        (8, "1/B=7 1/a=5 2/a=8 "),
        (9, "1/B=7 2/a=8 "),
    ] {
        assert_eq!(rt; shown(alloc, &elements, id)?.as_str(), wanted, "{id}");
    }
    Ok(())
}

#[test]
fn entries_inodes_and_targets_need_not_fit(rt: HostRuntime) -> Result<(), Fail> {
    let alloc = rt.alloc();
    let elements = vec![in alloc;
        // an inode to which no entry leads, and an entry whose directory and object have none
        inode(alloc, 5, (5, 0), DIRECTORY, 0, 1)?,
        entry(alloc, 8, 65536, (5, 0), "x", 9)?,
        // softlinks with a target and without, and a target whose object is no softlink
        inode(alloc, 6, (5, 0), SOFTLINK, 2, 1)?,
        target(alloc, 6, (6, 0), "/a")?,
        target(alloc, 5, (5, 0), "/b")?,
        inode(alloc, 7, (5, 0), PFS_LINK, 0, 1)?,
        // bytes whose object has no inode
        bytes(alloc, 9, 2, (5, 0), "ab")?,
        // an inode of another pseudo file system
        element(65537, 10, INODE, 0, (5, 0), encode_inode(alloc, &Inode { kind: DIRECTORY, size: 0, links: 1, pfs: Pfs(0) })?),
    ]?;
    for (id, wanted) in [
        (5u64, "5d1 6l1<> 7p1:7 8/x=9 "),
        (6, "5d1 6l1</a> 7p1:7 8/x=9 "),
    ] {
        assert_eq!(rt; shown(alloc, &elements, id)?.as_str(), wanted, "{id}");
    }
    Ok(())
}
