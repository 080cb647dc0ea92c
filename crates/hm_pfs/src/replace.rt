// The record of a pseudo file system, with another one in its place.
ghost use Rattle.std.specs.Prelude.{◌≡◌, IfSome, IsNone, OnOk, Some};
ghost use Rattle.hm_types.specs.Space.{nothing};
ghost use Rattle.hm_types.specs.declared.zone.TheConstants.{META_ZONE};
ghost use Rattle.hm_key.specs.Elements.{element_at, element_key};
ghost use Rattle.hm_key.specs.Members.{HasContentCause, InBalance, KeepsFrame, KeepsTold, SpendsAtMost};
ghost use Rattle.hm_records.specs.PfsRecord.{pfs_bytes};
ghost use Rattle.hm_cursor.specs.Write.{HasRoomFor, WritesStore, taken};
ghost use Rattle.hm_pfs.specs.Records.{LosesKey, SetsRecord};

use crate::payload::encode_record;
use hm_cursor::{insert_with_payload, record_base, version_at};
use hm_key::{Element, ElementStore, Extents, HasElements, HasRoom};
use hm_records::PfsRecord;
use hm_types::{Counted, Fault, Id, META_ZONE, Pfs};
use std::alloc::Global;

/// Puts a record in place of the one that a pseudo file system has now, at the same key: records
/// have no past. All else stays, at every id. Where it has no record nothing is changed. It takes at
/// most 40,960 bytes of zone 8 and the payload's of zone 9, for which room was asked before: the old
/// payload is given back first, and a store may admit nothing after that. `NoMemory` where an
/// allocation was refused; the other faults are those of the store. After a fault nothing is known
/// of the content.
pub fn replace_record<T: ElementStore + Extents>(
    alloc: Global,
    store: &mut T,
    pfs: Pfs,
    to: &PfsRecord,
) -> Result<(), Fault>
    requires balanced { InBalance T.HasElements store.old }
    requires room { HasRoomFor (T.room store.old) META_ZONE (pfs_bytes to.now) }
    ensures ok { OnOk result (WritesStore T.HasElements
        (SetsRecord pfs.0 (pfs_bytes to.now)) store.old store.new) }
    ensures keeps { KeepsTold T.HasElements store.old store.new result }
    ensures space { SpendsAtMost T.HasElements (taken META_ZONE (pfs_bytes to.now))
        store.old store.new }
    ensures borrowed { KeepsFrame T.Counted store.old store.new }
    ensures cause { HasContentCause T.HasElements store.old store.new result }
{
    let bytes = encode_record(alloc, to)?;
    let Some(old) = version_at(store, &record_base(pfs), Id(u64::MAX))? else {
        return Ok(());
    };
    remove_element(store, &old)?;
    insert_with_payload(store, &old.base, META_ZONE, &bytes)
}

// Removes an element, and gives its reference back.
fn remove_element<T: ElementStore + Extents>(store: &mut T, element: &Element) -> Result<(), Fault>
    requires balanced { InBalance T.HasElements store.old }
    requires there { IfSome (T.elements store.old) (λ es.
        element_at (element_key element.now) es ≡ Some element.now) }
    ensures ok { OnOk result (WritesStore T.HasElements (LosesKey (element_key element.now))
        store.old store.new) }
    ensures gone { OnOk result (IfSome (T.elements store.new) (λ es.
        IsNone (element_at (element_key element.now) es))) }
    ensures keeps { KeepsTold T.HasElements store.old store.new result }
    ensures space { SpendsAtMost T.HasElements nothing store.old store.new }
    ensures borrowed { KeepsFrame T.Counted store.old store.new }
    ensures cause { HasContentCause T.HasElements store.old store.new result }
{
    store.remove(&element.base)?;
    store.give_back(element.payload, element.len)
}
