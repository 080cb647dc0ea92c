// Checks that look into the store.
ghost use Rattle.std.specs.Prelude.{◌≡◌, ◌==◌, ℕ, List, None, Some, IfOk, OnOk, false, true, if◌then◌else◌, length};
ghost use Rattle.std.specs.Prelude.{option_map};
ghost use Rattle.std.specs.Bool.{nat_le, nat_lt};
ghost use Rattle.std.specs.Option.{option_map_or};
ghost use Rattle.hm_types.specs.Tree.{FileTree, entries_in, named_in};
ghost use Rattle.hm_types.specs.declared.id.Obj.{Obj as Number};
ghost use Rattle.hm_key.specs.Counts.{Counts};
ghost use Rattle.hm_key.specs.Members.{InBalance, IsSame, KeepsFrame};
ghost use Rattle.hm_model.specs.Answer.{is_master};
ghost use Rattle.hm_model.specs.Due.{refuse_if};
ghost use Rattle.hm_model.specs.View.{View};
ghost use Rattle.hm_model.specs.Volume.{Volume, system_of};
ghost use Rattle.hm_model.specs.declared.reply.Reply.TheVariants.{CrossPfs as cross_pfs, Exists as exists};
ghost use Rattle.hm_model.specs.declared.reply.Reply.TheVariants.{HashFull as hash_full, NotEmpty as not_empty};
ghost use Rattle.hm_model.specs.declared.reply.Reply.TheVariants.{ReadOnly as read_only};
ghost use Rattle.hm_records.specs.KeysFit.{KeysFit};
ghost use Rattle.hm_records.specs.View.{IsViewOf};
ghost use Rattle.hm_records.specs.declared.pfs_record.PfsRecord.{PfsRecord as Told};
ghost use Rattle.hm_volume.specs.Shown.{ShowsAs};
ghost use Rattle.hm_cursor.specs.Told.{OnBalanced, ReadsWithCause, fulls};
ghost use Rattle.hm_dirs.specs.Names.{IsLookedUp, IsSpot, OnNamed, first_key, names_of_hash};
ghost use Rattle.hm_calls.specs.Known.{AreBelowIn, AreKnown};
ghost use Rattle.hm_cursor.specs.Names.{IsHash};
ghost use Rattle.hm_calls.specs.Stop.{Answers, Decides, HasStopCause, IfRefused};

use crate::stop::Stop;
use hm_cursor::{find_record, previous_name};
use hm_dirs::{NameHash, Spot, Stand, find_spot, look_up};
use hm_key::{ElementStore, Extents, HasElements, HasRoom};
use hm_model::Reply;
use hm_records::PfsRecord;
use hm_types::{Counted, Fault, Name, Obj, Pfs};
use std::alloc::Global;

// `read only` for a slave. The elements of what may change are older than the call's id.
pub(crate) fn check_master<T: ElementStore + Extents>(
    alloc: Global,
    store: &mut T,
    pfs: Pfs,
) -> Result<(), Stop>
    requires balanced { InBalance T.HasElements store.old }
    ensures ok { OnBalanced (T.elements store.old) (T.extents store.old) (λ lists.
        (volume : Volume) (view : View) → ShowsAs (fulls lists) volume view →
        Answers (refuse_if (option_map_or (λ s. if is_master s then false else true)
        (system_of volume pfs.0) false) read_only) result) }
    ensures below { OnOk result ((id : ℕ) → AreKnown (T.elements store.old) (T.extents store.old) id
        → AreBelowIn (T.elements store.old) (T.extents store.old) pfs.0 id) }
    ensures gives { IfRefused result (λ reply. reply ≡ read_only) }
    ensures keeps { IsSame T.HasElements store.old store.new }
    ensures borrowed { KeepsFrame T.Counted store.old store.new }
    ensures cause { HasStopCause (T.elements store.old) (T.extents store.old)
        (T.faults store.old) (T.faults store.new) result }
{
    let record = find_record(alloc, store, pfs)?;
    if is_slave(&record) {
        return Err(Stop::Refused(Reply::ReadOnly));
    }
    Ok(())
}

// Whether there is a record, and it is that of a slave.
fn is_slave(found: &Option<PfsRecord>) -> bool
    ensures { result ≡ option_map_or (λ (r : Told). if r.master then false else true) found.now false }
{
    match found {
        Some(record) => !record.master,
        None => false,
    }
}

// The key of a directory's entry of a name, and the object that it leads to, if it has such an entry.
pub(crate) fn find_entry<T: ElementStore + Extents, H: NameHash>(
    store: &mut T,
    hash: &H,
    directory: &Stand,
    name: &[u8],
) -> Result<Option<(u64, Obj)>, Fault>
    requires balanced { InBalance T.HasElements store.old }
    ensures ok { IfOk result (λ found. OnNamed (H.hash_of hash.now)
        (T.elements store.old) (T.extents store.old) (λ lists.
        IsLookedUp directory.now.as_of.0 directory.now.at.pfs.0 directory.now.at.object name.now found lists
        × ((tree : FileTree) → IsViewOf (fulls lists) directory.now.at.pfs.0 directory.now.as_of.0 tree →
        named_in tree directory.now.at.object name.now ≡ option_map (λ (f : ℕ × Number). f.1) found))) }
    ensures keeps { IsSame T.HasElements store.old store.new }
    ensures borrowed { KeepsFrame T.Counted store.old store.new }
    ensures cause { ReadsWithCause T.HasElements store.old store.new result }
{
    look_up(
        store,
        hash,
        directory.at.pfs,
        directory.at.object,
        name,
        directory.as_of,
    )
}

// `exists` where a directory has the name already.
pub(crate) fn check_new<T: ElementStore + Extents, H: NameHash>(
    store: &mut T,
    hash: &H,
    directory: &Stand,
    name: &[u8],
) -> Result<(), Stop>
    requires balanced { InBalance T.HasElements store.old }
    ensures ok { OnNamed (H.hash_of hash.now) (T.elements store.old) (T.extents store.old) (λ lists.
        (tree : FileTree) → IsViewOf (fulls lists) directory.now.at.pfs.0 directory.now.as_of.0 tree →
        Answers (option_map_or (λ _. Some exists) (named_in tree directory.now.at.object name.now) None)
        result) }
    ensures gives { IfRefused result (λ reply. reply ≡ exists) }
    ensures keeps { IsSame T.HasElements store.old store.new }
    ensures borrowed { KeepsFrame T.Counted store.old store.new }
    ensures cause { HasStopCause (T.elements store.old) (T.extents store.old)
        (T.faults store.old) (T.faults store.new) result }
{
    match find_entry(store, hash, directory, name)? {
        Some(_) => Err(Stop::Refused(Reply::Exists)),
        None => Ok(()),
    }
}

// `not empty` where a directory has a name.
pub(crate) fn check_empty<T: ElementStore + Extents>(
    alloc: Global,
    store: &mut T,
    directory: &Stand,
) -> Result<(), Stop>
    requires balanced { InBalance T.HasElements store.old }
    ensures ok { OnBalanced (T.elements store.old) (T.extents store.old) (λ lists.
        (hash : List ℕ → ℕ) (tree : FileTree) → IsHash hash → KeysFit hash (fulls lists) →
        IsViewOf (fulls lists) directory.now.at.pfs.0 directory.now.as_of.0 tree →
        Answers (refuse_if (nat_lt 0 (length (entries_in tree directory.now.at.object))) not_empty)
        result) }
    ensures gives { IfRefused result (λ reply. reply ≡ not_empty) }
    ensures keeps { IsSame T.HasElements store.old store.new }
    ensures borrowed { KeepsFrame T.Counted store.old store.new }
    ensures cause { HasStopCause (T.elements store.old) (T.extents store.old)
        (T.faults store.old) (T.faults store.new) result }
{
    let (pfs, object) = (directory.at.pfs, directory.at.object);
    let name = previous_name(alloc, store, pfs, object, 0, u64::MAX, directory.as_of)?;
    if name.is_some() {
        return Err(Stop::Refused(Reply::NotEmpty));
    }
    Ok(())
}

// A key for a new name in a directory: `hash full` where it has 1,024 names of that name's hash.
pub(crate) fn spot_in<T: ElementStore + Extents, H: NameHash>(
    alloc: Global,
    store: &mut T,
    hash: &H,
    directory: &Stand,
    name: &Name,
) -> Result<Spot, Stop>
    requires balanced { InBalance T.HasElements store.old }
    ensures ok { OnNamed (H.hash_of hash.now) (T.elements store.old) (T.extents store.old) (λ lists.
        (tree : FileTree) → IsViewOf (fulls lists) directory.now.at.pfs.0 directory.now.as_of.0 tree →
        Answers (refuse_if (nat_le 1024 (names_of_hash (H.hash_of hash.now) tree
        directory.now.at.object name.now)) hash_full) result) }
    ensures spot { IfOk result (λ spot. OnNamed (H.hash_of hash.now)
        (T.elements store.old) (T.extents store.old) (λ lists. (tree : FileTree) →
        IsViewOf (fulls lists) directory.now.at.pfs.0 directory.now.as_of.0 tree →
        IsSpot (Counts (fulls lists) directory.now.as_of.0) directory.now.at.pfs.0
        directory.now.at.object (first_key (H.hash_of hash.now name.now)) spot)) }
    ensures gives { IfRefused result (λ reply. reply ≡ hash_full) }
    ensures keeps { IsSame T.HasElements store.old store.new }
    ensures borrowed { KeepsFrame T.Counted store.old store.new }
    ensures cause { HasStopCause (T.elements store.old) (T.extents store.old)
        (T.faults store.old) (T.faults store.new) result }
{
    let (pfs, object) = (directory.at.pfs, directory.at.object);
    match find_spot(
        alloc,
        store,
        hash,
        pfs,
        object,
        name.bytes(),
        directory.as_of,
    )? {
        Some(spot) => Ok(spot),
        None => Err(Stop::Refused(Reply::HashFull)),
    }
}

// `crosses a pfs` where two walks end in two of them.
pub(crate) fn check_one_pfs(a: &Stand, b: &Stand) -> Result<(), Stop>
    ensures { Decides (if a.now.at.pfs.0 == b.now.at.pfs.0 then None else Some cross_pfs) result }
{
    if a.at.pfs == b.at.pfs {
        Ok(())
    } else {
        Err(Stop::Refused(Reply::CrossPfs))
    }
}
