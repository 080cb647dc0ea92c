// A volume as it is made, and calls on it.
ghost use Rattle.std.specs.Prelude.{◌≡◌, ◌≤◌, ◌+◌, IfOk, OnOk};
ghost use Rattle.hm_types.specs.declared.limits.TheConstants.{GREATEST_ID};
ghost use Rattle.hm_model.specs.Forms.{IsInRange};
ghost use Rattle.hm_calls.specs.Commands.{IsOnTrees};
ghost use Rattle.hm_calls_tests.specs.Tests.{IsMade, IsReady};

use bitflags::Flags;
use hm_calls::answer;
use hm_cursor::{add_version, inode_base, record_base};
use hm_dirs::Fnv;
use hm_key::{Base, ELEMENT, Element, ElementStore, Extents, HasElements, HasRoom, is_element};
use hm_model::{Command, Reply};
use hm_records::{DIRECTORY, Inode, PfsRecord, encode_inode, encode_pfs};
use hm_retain::Retention;
use hm_types::{Fault, GREATEST_ID, HOff, Id, META_ZONE, Obj, Pfs, SpaceFault, Zones};
use std::alloc::Global;

/// A store, and the id of the next call.
#[derive(Drop)]
pub struct Volume<T> {
    pub store: T,
    pub next: u64,
}

impl<T: ElementStore + Extents + Drop> Volume<T> {
    /// PFS 0 and its root, over a store that is empty.
    pub fn fresh(alloc: Global, store: T) -> Result<Volume<T>, Fault>
        requires { IsMade (T.elements store) (T.extents store) 1 }
        ensures { IfOk result (λ volume. IsReady (T.elements volume.store)
            (T.extents volume.store) volume.next) }
    {
        let mut store = store;
        let record = PfsRecord {
            master: true,
            shared: 0,
            sync_end: Id(0),
            retention: Retention::master(alloc)?,
        };
        let root = Inode {
            kind: DIRECTORY,
            size: 0,
            links: 1,
            pfs: Pfs(0),
        };
        let bytes = encode_pfs(alloc, &record)?;
        put(&mut store, &record_base(Pfs(0)), 1, &bytes)?;
        let bytes = encode_inode(alloc, &root)?;
        put(&mut store, &inode_base(Pfs(0), Obj(1)), 2, &bytes)?;
        Ok(Volume { store, next: 3 })
    }

    /// Makes the next call, and tells whether it was accepted.
    pub fn ask(&mut self, alloc: Global, command: &Command) -> Result<bool, Fault>
        requires command { IsOnTrees command.now × IsInRange command.now }
        requires ready { IsReady (T.elements self.old.store) (T.extents self.old.store)
            self.old.next }
        ensures { OnOk result (IsReady (T.elements self.new.store) (T.extents self.new.store)
            self.new.next) }
    {
        if self.next == 0 || self.next > GREATEST_ID {
            return Err(Fault::NoMemory);
        }
        let reply = answer(alloc, &mut self.store, &Fnv, command, Id(self.next), None)?;
        self.next += 1;
        Ok(is_accepted(&reply))
    }
}

// Whether a call with this reply was accepted, of those that are made here.
fn is_accepted(reply: &Reply) -> bool {
    matches!(
        reply,
        Reply::Done | Reply::Listing { .. } | Reply::Status { .. }
    )
}

// Adds an element by an id, above all others.
fn put<T: ElementStore + Extents>(
    store: &mut T,
    about: &Base,
    id: u64,
    bytes: &[u8],
) -> Result<(), Fault>
    requires { IsMade (T.elements store.old) (T.extents store.old) id }
    ensures { OnOk result (IsMade (T.elements store.new) (T.extents store.new) (id + 1)) }
{
    let base = Base {
        create: id,
        delete: 0,
        obj_type: DIRECTORY,
        btype: ELEMENT,
        ..*about
    };
    let element = Element {
        base,
        payload: HOff::default(),
        len: bytes.len().min(65_568) as u32,
    };
    if bytes.is_empty() || bytes.len() > 65_568 || !is_element(&element) {
        return Err(Fault::NoMemory);
    }
    match store.admit(Zones::TREE.union(Zones::META), 0) {
        Ok(()) => {
            add_version(store, &base, META_ZONE, bytes)?;
            Ok(())
        }
        Err(SpaceFault::Fault(fault)) => Err(fault),
        Err(SpaceFault::NoSpace { .. }) => Err(Fault::NoMemory),
    }
}
