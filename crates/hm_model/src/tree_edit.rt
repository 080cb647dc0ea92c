// Changes of a tree.
ghost use Rattle.std.specs.Prelude.{◌≡◌, ◌≤◌, ◌==◌, IfOk, if◌then◌else◌, length, insert};
ghost use Rattle.hm_types.specs.Tree.{insert_by, is_object_before, is_triple_before, with_object};
ghost use Rattle.hm_types.specs.Tree.{with_name, without_name, without_object, with_change, with_links, holding, without_entry};

use crate::tree::Tree;
use hm_types::{Bytes, Content, Name, NoMemory, Obj, Object, Triple};
use std::alloc::Global;

pub(crate) fn copy_of(alloc: Global, tree: &Tree) -> Result<Tree, NoMemory>
    ensures { IfOk result (λ copy. copy ≡ tree.now) }
{
    Ok(Tree {
        objects: tree.objects.to_vec(alloc)?,
        triples: tree.triples.to_vec(alloc)?,
    })
}

/// The tree with one more object, which the directory has under this name.
pub(crate) fn with_object(
    alloc: Global,
    tree: &Tree,
    directory: Obj,
    name: Name,
    object: Object,
) -> Result<Tree, NoMemory>
    ensures { IfOk result (λ after. after ≡ with_object tree.now directory name object) }
{
    let number = object.number;
    let Tree {
        mut objects,
        triples,
    } = copy_of(alloc, tree)?;
    let place = place_of_object(&objects, &object);
    objects.insert(place, object)?;
    with_name(Tree { objects, triples }, directory, name, number)
}

/// The tree with one entry more.
pub(crate) fn with_name(
    tree: Tree,
    directory: Obj,
    name: Name,
    object: Obj,
) -> Result<Tree, NoMemory>
    ensures { IfOk result (λ after. after ≡ with_name tree directory name object) }
{
    let Tree {
        objects,
        mut triples,
    } = tree;
    let triple = Triple {
        directory,
        name,
        object,
    };
    let place = place_of_triple(&triples, &triple);
    triples.insert(place, triple)?;
    Ok(Tree { objects, triples })
}

/// The tree without an entry.
pub(crate) fn without_name(
    alloc: Global,
    tree: &Tree,
    directory: Obj,
    name: &Name,
) -> Result<Tree, NoMemory>
    ensures { IfOk result (λ after. after ≡ without_name tree.now directory name.now) }
{
    let mut triples = Vec::new(alloc);
    for triple in &tree.triples {
        if !(triple.directory == directory && triple.name == *name) {
            triples.push(triple.clone()?)?;
        }
    }
    Ok(Tree {
        objects: tree.objects.to_vec(alloc)?,
        triples,
    })
}

/// The tree without the object with this number.
pub(crate) fn without_object(alloc: Global, tree: &Tree, number: Obj) -> Result<Tree, NoMemory>
    ensures { IfOk result (λ after. after ≡ without_object tree.now number) }
{
    let mut objects = Vec::new(alloc);
    for object in &tree.objects {
        if object.number != number {
            objects.push(object.clone()?)?;
        }
    }
    Ok(Tree {
        objects,
        triples: tree.triples.to_vec(alloc)?,
    })
}

/// The tree in which an object has so many links.
pub(crate) fn with_links(
    alloc: Global,
    tree: &Tree,
    number: Obj,
    links: u32,
) -> Result<Tree, NoMemory>
    ensures { IfOk result (λ after. after ≡ with_change tree.now number (with_links links)) }
{
    let mut objects = Vec::new(alloc);
    for object in &tree.objects {
        let mut copy = object.clone()?;
        if copy.number == number {
            copy.links = links;
        }
        objects.push(copy)?;
    }
    Ok(Tree {
        objects,
        triples: tree.triples.to_vec(alloc)?,
    })
}

/// The tree in which a file has these bytes.
pub(crate) fn with_bytes(
    alloc: Global,
    tree: &Tree,
    number: Obj,
    bytes: &[u8],
) -> Result<Tree, NoMemory>
    ensures { IfOk result (λ after. after
        ≡ with_change tree.now number (holding (Content.File bytes.now))) }
{
    let mut objects = Vec::new(alloc);
    for object in &tree.objects {
        objects.push(rewritten(alloc, object, number, bytes)?)?;
    }
    Ok(Tree {
        objects,
        triples: tree.triples.to_vec(alloc)?,
    })
}

// The object with these bytes, if it is the one with this number.
fn rewritten(alloc: Global, object: &Object, number: Obj, bytes: &[u8]) -> Result<Object, NoMemory>
    ensures { IfOk result (λ o. o ≡ (if object.now.number.0 == number.0
        then holding (Content.File bytes.now) object.now else object.now)) }
{
    if object.number != number {
        return Ok(object.clone()?);
    }
    Ok(Object {
        number: object.number,
        kind: object.kind,
        content: Content::File(Bytes::of(bytes.to_vec(alloc)?)),
        links: object.links,
    })
}

/// The tree without an entry of an object: it has a link less, and with the last one it is gone.
pub(crate) fn without_entry(
    alloc: Global,
    tree: &Tree,
    directory: Obj,
    name: &Name,
    object: &Object,
) -> Result<Tree, NoMemory>
    ensures { IfOk result (λ after. after
        ≡ without_entry tree.now directory name.now object.now) }
{
    let rest = without_name(alloc, tree, directory, name)?;
    if object.links > 1 {
        return with_links(alloc, &rest, object.number, object.links - 1);
    }
    without_object(alloc, &rest, object.number)
}

// Where the object goes among those that rise by number.
fn place_of_object(objects: &[Object], object: &Object) -> usize
    ensures within { result ≤ length objects.now }
    ensures place { insert objects.now result object.now
        ≡ insert_by is_object_before object.now objects.now }
{
    for (i, other) in objects.iter().enumerate() {
        if object.number < other.number {
            return i;
        }
    }
    objects.len()
}

// Where the triple goes among those that rise by directory and name.
fn place_of_triple(triples: &[Triple], triple: &Triple) -> usize
    ensures within { result ≤ length triples.now }
    ensures place { insert triples.now result triple.now
        ≡ insert_by is_triple_before triple.now triples.now }
{
    for (i, other) in triples.iter().enumerate() {
        if is_before(triple, other) {
            return i;
        }
    }
    triples.len()
}

fn is_before(triple: &Triple, other: &Triple) -> bool
    ensures { result ≡ is_triple_before triple.now other.now }
{
    triple
        .directory
        .cmp(&other.directory)
        .then(triple.name.cmp(&other.name))
        .is_lt()
}
