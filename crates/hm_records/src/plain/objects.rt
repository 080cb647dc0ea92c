// The objects of a tree.
ghost use Rattle.std.specs.Prelude.{◌≡◌, ◌≤◌, ◌↔◌, IfOk, IsTrue, insert, length};
ghost use Rattle.hm_types.specs.Tree.{insert_by, is_object_before};
ghost use Rattle.hm_key.specs.Counts.{Counts};
ghost use Rattle.hm_key.specs.Versions.{HaveOwnKeys};
ghost use Rattle.hm_records.specs.PlainView.{HasNumber, HoldsObjects, IsNewObject};

use crate::plain::content::object_at;
use crate::plain::element::FullElement;
use crate::plain::subject::inode_of;
use hm_types::{NoMemory, Obj, Object, Pfs};
use std::alloc::Global;

/// The objects of a pseudo file system, rising by number.
pub(crate) fn objects_of(
    alloc: Global,
    elements: &[FullElement],
    pfs: Pfs,
    id: u64,
) -> Result<Vec<Object>, NoMemory>
    requires { HaveOwnKeys elements.now }
    ensures { IfOk result (λ objects.
        HoldsObjects (Counts elements.now id) pfs.0 elements.now objects.items) }
{
    let mut objects: Vec<Object> = Vec::new(alloc);
    for element in elements {
        if let Some(object) = new_object_of(alloc, elements, pfs, element, id, &objects)? {
            let place = place_of_object(&objects, &object);
            objects.insert(place, object)?;
        }
    }
    Ok(objects)
}

// The object of which an element is a version of the inode, if it is there and not among these.
fn new_object_of(
    alloc: Global,
    elements: &[FullElement],
    pfs: Pfs,
    element: &FullElement,
    id: u64,
    objects: &[Object],
) -> Result<Option<Object>, NoMemory>
    requires { HaveOwnKeys elements.now }
    ensures { IfOk result
        (IsNewObject (Counts elements.now id) pfs.0 element.now objects.now) }
{
    let number = element.obj();
    if !element.is_about(&inode_of(pfs, number)) {
        return Ok(None);
    }
    if has_number(objects, number) {
        return Ok(None);
    }
    object_at(alloc, elements, pfs, number, id)
}

// Whether one of the objects has this number.
fn has_number(objects: &[Object], number: Obj) -> bool
    ensures { IsTrue result ↔ HasNumber objects.now number.0 }
{
    objects.iter().any(|o| o.number == number)
}

// Where the object goes among those that rise by number.
fn place_of_object(objects: &[Object], object: &Object) -> usize
    ensures within { result ≤ length objects.now }
    ensures place { insert objects.now result object.now
        ≡ insert_by is_object_before object.now objects.now }
{
    for (i, other) in objects.iter().enumerate() {
        if object.number < other.number {
            return i;
        }
    }
    objects.len()
}
