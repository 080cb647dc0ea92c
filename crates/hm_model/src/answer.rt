// What the calls that only look at a tree answer.
ghost use Rattle.std.specs.Prelude.{◌≡◌, IfOk};
ghost use Rattle.hm_model.specs.Answer.{entry_kind, file_bytes, kind_number, listing, size_of, target_of};
ghost use Rattle.hm_model.specs.Bytes.{read_at};
ghost use Rattle.hm_model.specs.Plain.{plain_volume, site_of};
ghost use Rattle.hm_model.specs.PlainChecks.{answered_at};

use crate::command::Command;
use crate::place::Place;
use crate::reply::Reply;
use crate::tree::Tree;
use hm_types::{Bytes, Content, Kind, Names, NoMemory, Obj, Object, Text};
use std::alloc::Global;

/// The answer of a call that looks at what stands at this place.
pub(crate) fn answer(
    alloc: Global,
    tree: &Tree,
    call: &Command,
    place: &Place,
) -> Result<Reply, NoMemory>
    ensures { IfOk result (λ reply. reply ≡ answered_at tree.now call.now (site_of place.now)) }
{
    let Some(object) = tree.object(place.at) else {
        return Ok(Reply::NotFound);
    };
    Ok(match call {
        Command::Ls { .. } => Reply::Listing {
            names: listing(alloc, tree, object.number)?,
        },
        Command::Cat { offset, count, .. } => Reply::Content {
            bytes: read_at(alloc, &object.content, *offset, *count)?,
        },
        Command::Stat { .. } => Reply::Status {
            kind: kind_number(object.kind),
            obj: object.number,
            size: size_of(tree, object),
            links: object.links,
        },
        Command::Readlink { .. } => Reply::Target {
            text: target_of(alloc, &object.content)?,
        },
        _ => Reply::Done,
    })
}

// The entries of a directory, each with its object's kind, by the bytes of their names.
fn listing(alloc: Global, tree: &Tree, directory: Obj) -> Result<Names, NoMemory>
    ensures { IfOk result (λ names. names ≡ listing tree.now directory) }
{
    let mut names = Vec::new(alloc);
    for triple in &tree.triples {
        if triple.directory == directory {
            names.push((entry_kind(tree, triple.object), triple.name.clone()?))?;
        }
    }
    Ok(Names::of(names))
}

// The number of the kind of the object under an entry.
fn entry_kind(tree: &Tree, number: Obj) -> u8
    ensures { result ≡ entry_kind tree.now number }
{
    match tree.object(number) {
        Some(object) => kind_number(object.kind),
        None => 0,
    }
}

fn kind_number(kind: Kind) -> u8
    ensures { result ≡ kind_number kind }
{
    match kind {
        Kind::Directory => 1,
        Kind::File => 2,
        Kind::Softlink => 3,
        Kind::PfsLink => 4,
    }
}

// The bytes of a file from an offset on, at most so many.
fn read_at(alloc: Global, content: &Content, offset: u64, count: u32) -> Result<Bytes, NoMemory>
    ensures { IfOk result (λ bytes. bytes ≡ read_at offset count (file_bytes content.now)) }
{
    let read = bytes_at(alloc, file_bytes(content), offset as usize, count as usize)?;
    Ok(Bytes::of(read))
}

fn bytes_at(alloc: Global, bytes: &[u8], offset: usize, count: usize) -> Result<Vec<u8>, NoMemory>
    ensures { IfOk result (λ read. read.items ≡ read_at offset count bytes.now) }
{
    Ok(
        bytes
            .iter()
            .skip(offset)
            .take(count)
            .copied()
            .collect(alloc)?,
    )
}

/// The bytes of a file.
pub(crate) fn file_bytes(content: &Content) -> &[u8]
    ensures { result.now ≡ file_bytes content.now }
{
    match content {
        Content::File(bytes) => bytes.bytes(),
        _ => b"",
    }
}

// The size of an object: a directory has its number of entries, a PFS link its number.
fn size_of(tree: &Tree, object: &Object) -> u64
    ensures { result ≡ size_of tree.now object.now }
{
    match &object.content {
        Content::Nothing => tree.entry_count(object.number) as u64,
        Content::File(bytes) => bytes.bytes().len() as u64,
        Content::Target(text) => text.bytes().len() as u64,
        Content::Linked(pfs) => u64::from(pfs.0),
    }
}

// The target of a link. That of a link to a master, or to no PFS, tells its number.
fn target_of(alloc: Global, content: &Content) -> Result<Text, NoMemory>
    ensures { IfOk result (λ text. (tree : _) → text ≡ target_of (plain_volume tree) content.now) }
{
    match content {
        Content::Target(text) => Ok(text.clone()?),
        Content::Linked(pfs) => {
            let number = pfs.0;
            let text = format!(in alloc; "@@-1:{number:05}")?;
            Ok(Text::of(text.as_bytes().to_vec(alloc)?))
        }
        _ => Ok(Text::of(Vec::new(alloc))),
    }
}
