// What the calls that change a tree make of it.
ghost use Rattle.std.specs.Prelude.{◌≡◌, ◌<◌, ◌^◌, ◌-◌, None, IfOk, replicate};
ghost use Rattle.hm_model.specs.Bytes.{written};
ghost use Rattle.hm_types.specs.Bytes.{resized};
ghost use Rattle.hm_model.specs.Change.{linked, made, of_object, renamed, snapshot_target, with_bytes, with_made};
ghost use Rattle.hm_model.specs.Due.{first_refusal, links_left};
ghost use Rattle.hm_model.specs.Plain.{site_of};
ghost use Rattle.hm_model.specs.PlainChange.{changed_at, moved_at};
ghost use Rattle.hm_model.specs.PlainChecks.{finds, own_at};

use crate::answer::file_bytes;
use crate::checks::standing;
use crate::command::Command;
use crate::file_bytes::{resized, written};
use crate::place::Place;
use crate::tree::Tree;
use crate::tree_edit::{
    copy_of, with_bytes, with_links, with_name, with_object, without_entry, without_name,
    without_object,
};
use hm_types::{Bytes, Content, Id, Kind, NoMemory, Obj, Object, Text};
use std::alloc::Global;

/// The tree after an accepted call with this id, whose paths lead to these places.
pub(crate) fn edit(
    alloc: Global,
    tree: &Tree,
    call: &Command,
    id: Id,
    a: &Place,
    b: &Place,
) -> Result<Tree, NoMemory>
    requires { first_refusal (own_at tree.now call.now (site_of a.now) (site_of b.now)) ≡ None }
    ensures { IfOk result (λ after. after
        ≡ changed_at tree.now call.now id.0 (site_of a.now) (site_of b.now)) }
{
    match call {
        Command::Mkdir { .. } => make(alloc, tree, a, id, Kind::Directory, Content::Nothing),
        Command::Touch { .. } => {
            let nothing = Content::File(Bytes::of(Vec::new(alloc)));
            make(alloc, tree, a, id, Kind::File, nothing)
        }
        Command::Symlink { target, .. } => {
            let target = Content::Target(target.clone()?);
            make(alloc, tree, a, id, Kind::Softlink, target)
        }
        Command::Snapshot { .. } => {
            let target = Content::Target(snapshot_target(alloc, id)?);
            make(alloc, tree, a, id, Kind::Softlink, target)
        }
        Command::Ln { .. } => link(alloc, tree, a, b),
        Command::Mv { .. } => rename(alloc, tree, a, b),
        Command::Write { offset, bytes, .. } => {
            write(alloc, tree, a, *offset as usize, bytes.bytes())
        }
        Command::Fill {
            offset,
            count,
            byte,
            ..
        } => {
            let bytes = repeated(alloc, *byte, *count as usize)?;
            write(alloc, tree, a, *offset as usize, &bytes)
        }
        Command::Truncate { size, .. } => truncate(alloc, tree, a, *size as usize),
        Command::Rm { .. } => match tree.object(a.at) {
            Some(object) => without_entry(alloc, tree, a.directory, &a.name, object),
            None => copy_of(alloc, tree),
        },
        Command::Rmdir { .. } => {
            let rest = without_name(alloc, tree, a.directory, &a.name)?;
            without_object(alloc, &rest, a.at)
        }
        _ => copy_of(alloc, tree),
    }
}

// Makes an object with this id under a place's name.
fn make(
    alloc: Global,
    tree: &Tree,
    place: &Place,
    id: Id,
    kind: Kind,
    content: Content,
) -> Result<Tree, NoMemory>
    ensures { IfOk result (λ after. after
        ≡ with_made tree.now (site_of place.now) (made id.0 kind content)) }
{
    let object = Object {
        number: Obj(id.0),
        kind,
        content,
        links: 1,
    };
    with_object(alloc, tree, place.directory, place.name.clone()?, object)
}

// The target of a snapshot: the id before its own.
fn snapshot_target(alloc: Global, id: Id) -> Result<Text, NoMemory>
    ensures { IfOk result (λ text. text ≡ snapshot_target id.0) }
{
    let before = Id(id.0.saturating_sub(1));
    let text = format!(in alloc; "@@{before}")?;
    Ok(Text::of(text.as_bytes().to_vec(alloc)?))
}

// Gives the object at a place a second name.
fn link(alloc: Global, tree: &Tree, a: &Place, b: &Place) -> Result<Tree, NoMemory>
    requires { links_left (finds tree.now) (site_of a.now) ≡ None }
    ensures { IfOk result (λ after. after
        ≡ of_object (finds tree.now) (site_of a.now) tree.now (linked tree.now (site_of b.now))) }
{
    let Some(object) = tree.object(a.at) else {
        return copy_of(alloc, tree);
    };
    let more = with_links(alloc, tree, object.number, object.links + 1)?;
    with_name(more, b.directory, b.name.clone()?, object.number)
}

// Gives the object at a place its new name instead of the old one.
fn rename(alloc: Global, tree: &Tree, a: &Place, b: &Place) -> Result<Tree, NoMemory>
    ensures { IfOk result (λ after. after ≡ of_object (finds tree.now) (site_of a.now) tree.now
        (moved_at tree.now (site_of a.now) (site_of b.now))) }
{
    let Some(object) = tree.object(a.at) else {
        return copy_of(alloc, tree);
    };
    let Some(there) = standing(tree, b) else {
        return renamed(alloc, tree, a, b, object.number);
    };
    if there.number == object.number {
        return copy_of(alloc, tree);
    }
    let rest = without_entry(alloc, tree, b.directory, &b.name, there)?;
    renamed(alloc, &rest, a, b, object.number)
}

fn renamed(alloc: Global, tree: &Tree, a: &Place, b: &Place, number: Obj) -> Result<Tree, NoMemory>
    ensures { IfOk result (λ after. after
        ≡ renamed tree.now (site_of a.now) (site_of b.now) number) }
{
    let rest = without_name(alloc, tree, a.directory, &a.name)?;
    with_name(rest, b.directory, b.name.clone()?, number)
}

fn repeated(alloc: Global, byte: u8, count: usize) -> Result<Vec<u8>, NoMemory>
    ensures { IfOk result (λ v. v.items ≡ replicate count byte) }
{
    Ok(vec![in alloc; byte; count]?)
}

// Puts bytes into the file at a place.
fn write(
    alloc: Global,
    tree: &Tree,
    place: &Place,
    offset: usize,
    bytes: &[u8],
) -> Result<Tree, NoMemory>
    ensures { IfOk result (λ after. after ≡ of_object (finds tree.now) (site_of place.now) tree.now
        (with_bytes tree.now (written offset bytes.now))) }
{
    let Some(object) = tree.object(place.at) else {
        return copy_of(alloc, tree);
    };
    let changed = written(alloc, file_bytes(&object.content), offset, bytes)?;
    with_bytes(alloc, tree, object.number, &changed)
}

// Sets the size of the file at a place.
fn truncate(alloc: Global, tree: &Tree, place: &Place, size: usize) -> Result<Tree, NoMemory>
    ensures { IfOk result (λ after. after ≡ of_object (finds tree.now) (site_of place.now) tree.now
        (with_bytes tree.now (resized size))) }
{
    let Some(object) = tree.object(place.at) else {
        return copy_of(alloc, tree);
    };
    let changed = resized(alloc, file_bytes(&object.content), size)?;
    with_bytes(alloc, tree, object.number, &changed)
}
