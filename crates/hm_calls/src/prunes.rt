// The openings of `prune` and `prune-everything`.
ghost use Rattle.std.specs.Prelude.{◌≡◌, ◌≤◌, ℕ, List, IfOk, IfSome, OnOk, if◌then◌else◌};
ghost use Rattle.hm_types.specs.declared.limits.TheConstants.{GREATEST_ID};
ghost use Rattle.hm_key.specs.Charges.{Charges};
ghost use Rattle.hm_key.specs.Members.{InBalance, IsSame, KeepsFrame, KeepsTold};
ghost use Rattle.hm_model.specs.Due.{first_refusal};
ghost use Rattle.hm_model.specs.Needs.{names_zones};
ghost use Rattle.hm_model.specs.Walk.{Follows as follows};
ghost use Rattle.hm_model.specs.declared.command.Command.TheVariants.{Prune as prune};
ghost use Rattle.hm_retain.specs.Retention.{IsRetention};
ghost use Rattle.hm_records.specs.declared.pfs_record.PfsRecord.{PfsRecord as Told};
ghost use Rattle.hm_cursor.specs.Names.{IsHash};
ghost use Rattle.hm_cursor.specs.Told.{OnBalanced, ReadsWithCause, fulls};
ghost use Rattle.hm_cursor.specs.Write.{WritesStore};
ghost use Rattle.hm_calls.specs.Call.{OnCalls};
ghost use Rattle.hm_calls.specs.Commands.{LowersRoomFor};
ghost use Rattle.hm_calls.specs.Due.{space_for};
ghost use Rattle.hm_calls.specs.Known.{AreKnown};
ghost use Rattle.hm_calls.specs.Possible.{IsGiven, IsNoSpace};
ghost use Rattle.hm_calls.specs.Prunes.{GivesOpening, HasRecordAfter, HasRefusal, IsPresentOf, IsRecordAfter};
ghost use Rattle.hm_calls.specs.Prunes.{IsRetained, IsRetainedIn, OpeningLeadsTo, OpensPrune, SetsTo, command_of};
ghost use Rattle.hm_calls.specs.Prunes.{kept_by, mode_by, reply_of, system_after};
ghost use Rattle.hm_calls.specs.Space.{TakesAtMost};
ghost use Rattle.hm_calls.specs.declared.pruning.Pruning.TheVariants.{Present as present, Snapshots as snapshots};
ghost use Rattle.hm_calls.specs.Stop.{Answers, HasStopCause, IfRefused};
ghost use Rattle.hm_calls.specs.Systems.{ComesTo, MayRefuse, later_checks};
ghost use Rattle.hm_calls.specs.Writes.{reserves};

use crate::kept::{keep_from, keep_listed, keep_one};
use crate::kinds::check_directory;
use crate::pruning::{Led, Opened, Pruning};
use crate::room::admit_names;
use crate::stop::Stop;
use crate::systems::reach_system;
use hm_cursor::find_record;
use hm_dirs::{NameHash, Stand};
use hm_key::{ElementStore, Extents, HasElements, HasRoom};
use hm_model::Reply;
use hm_pfs::replace_record;
use hm_records::PfsRecord;
use hm_retain::Retention;
use hm_types::{Counted, Fault, Id, NoMemory, Pfs, Text};
use hm_view::snapshot_ids;
use std::alloc::Global;

/// Opens `prune` or `prune-everything` of a path by its id, the one after the last that was drawn.
/// The reply is the one that the call is due, by the volume that the elements show: the refusal of
/// the first of its checks that fails, and `no space` as the last of them, or else `ok`. What is
/// accepted leads to the pseudo file system in which the path ends, whose record tells from now on
/// what it keeps; all else stays, as of every id. A refusal leaves the store as it was. Nothing is
/// removed: that is the job's.
///
/// Whatever the store tells, the reply is one that the call may have by its words. What is known of
/// the ids in the store stays known. The zones 8 and 9 lose at most their reserves, 1,048,576 and
/// 131,072 bytes, and no free big-block is held back from it.
///
/// `Damaged` at a payload that breaks its grammar, of kind 6, and `NoMemory` where an allocation was
/// refused. The other faults are those of the store. After a fault nothing is known of the content.
pub fn open_prune<T: ElementStore + Extents, H: NameHash>(
    alloc: Global,
    store: &mut T,
    hash: &H,
    pruning: Pruning,
    path: &Text,
    id: Id,
) -> Result<Opened, Fault>
    requires id { (1 ≤ id.0) × (id.0 ≤ GREATEST_ID) }
    requires balanced { InBalance T.HasElements store.old }
    ensures opens { IfOk result (OpensPrune T.elements T.mark T.extents T.room T.free
        (H.hash_of hash.now) id.0 pruning path.now store.old store.new) }
    ensures possible { IfOk result (λ opened.
        IsGiven id.0 (command_of pruning path.now) (reply_of opened)) }
    ensures refused { IfOk result HasRefusal }
    ensures known { OnOk result ((i : ℕ) → AreKnown (T.elements store.old) (T.extents store.old) i →
        AreKnown (T.elements store.new) (T.extents store.new) i) }
    ensures keeps { KeepsTold T.HasElements store.old store.new result }
    ensures room { LowersRoomFor (command_of pruning path.now) T.room store.old store.new }
    ensures charges { OnOk result (Charges T.room T.free reserves store.old store.new) }
    ensures borrowed { KeepsFrame T.Counted store.old store.new }
    ensures cause { ReadsWithCause T.HasElements store.old store.new result }
{
    match begin_prune(alloc, store, hash, pruning, path, id) {
        Ok(led) => Ok(Opened::Led(led)),
        Err(Stop::Refused(reply)) => Ok(Opened::Refused(reply)),
        Err(Stop::Failed(fault)) => Err(fault),
    }
}

fn begin_prune<T: ElementStore + Extents, H: NameHash>(
    alloc: Global,
    store: &mut T,
    hash: &H,
    pruning: Pruning,
    word: &Text,
    id: Id,
) -> Result<Led, Stop>
    requires id { (1 ≤ id.0) × (id.0 ≤ GREATEST_ID) }
    requires balanced { InBalance T.HasElements store.old }
    ensures leads { OpeningLeadsTo T.elements T.mark T.extents T.room T.free
        (H.hash_of hash.now) id.0 pruning word.now store.old store.new result }
    ensures gives { GivesOpening id.0 (command_of pruning word.now) result }
    ensures known { OnOk result ((i : ℕ) → AreKnown (T.elements store.old) (T.extents store.old) i →
        AreKnown (T.elements store.new) (T.extents store.new) i) }
    ensures keeps { KeepsTold T.HasElements store.old store.new result }
    ensures room { TakesAtMost T.room T.free reserves store.old store.new result
        × (T.name store.new ≡ T.name store.old)
        × (T.frame store.new ≡ T.frame store.old) }
    ensures cause { HasStopCause (T.elements store.old) (T.extents store.old)
        (T.faults store.old) (T.faults store.new) result }
{
    let stand = reach_system(alloc, store, hash, word, pruning.follow(), id)?;
    let to = record_after(alloc, store, pruning, &stand, id)?;
    cut(alloc, store, stand.at.pfs, to)
}

// The record that the pseudo file system of a stand is to have, if it has one.
fn record_after<T: ElementStore + Extents>(
    alloc: Global,
    store: &mut T,
    pruning: Pruning,
    stand: &Stand,
    id: Id,
) -> Result<Option<PfsRecord>, Stop>
    requires id { (1 ≤ id.0) × (id.0 ≤ GREATEST_ID) }
    requires balanced { InBalance T.HasElements store.old }
    ensures told { (hash : List ℕ → ℕ) (word : List ℕ) (room : ℕ → ℕ) (free : ℕ) → IsHash hash →
        OnCalls hash id.0 (T.elements store.old) (T.extents store.old) (λ es call.
        call.command ≡ command_of pruning word →
        ComesTo (mode_by pruning) room free stand.now es call →
        Answers (first_refusal (later_checks call)) result × IfOk result (λ to.
        HasRecordAfter (system_after pruning call) call.volume stand.now.at.pfs.0 to es)) }
    ensures retained { IfOk result (λ to. OnBalanced (T.elements store.old) (T.extents store.old)
        (λ lists. IsRetainedIn stand.now.at.pfs.0 to (fulls lists))) }
    ensures few { IfOk result (λ to. IfSome to (λ (r : Told). IsRetention r.retention)) }
    ensures gives { (word : List ℕ) →
        IfRefused result (MayRefuse (command_of pruning word)) }
    ensures keeps { IsSame T.HasElements store.old store.new }
    ensures borrowed { KeepsFrame T.Counted store.old store.new }
    ensures cause { HasStopCause (T.elements store.old) (T.extents store.old)
        (T.faults store.old) (T.faults store.new) result }
{
    match pruning {
        Pruning::Snapshots => {
            let record = name_kept(alloc, store, stand, id)?;
            Ok(Some(record))
        }
        Pruning::Present => Ok(keep_present(alloc, store, stand.at.pfs, id)?),
    }
}

// The record with the ids that the softlinks of a directory name.
fn name_kept<T: ElementStore + Extents>(
    alloc: Global,
    store: &mut T,
    directory: &Stand,
    id: Id,
) -> Result<PfsRecord, Stop>
    requires id { 1 ≤ id.0 }
    requires balanced { InBalance T.HasElements store.old }
    ensures told { (hash : List ℕ → ℕ) (word : List ℕ) (room : ℕ → ℕ) (free : ℕ) → IsHash hash →
        OnCalls hash id.0 (T.elements store.old) (T.extents store.old) (λ es call.
        call.command ≡ prune word → ComesTo follows room free directory.now es call →
        Answers (first_refusal (later_checks call)) result × IfOk result (λ to.
        IsRecordAfter (system_after snapshots call) call.volume directory.now.at.pfs.0 to es)) }
    ensures retained { IfOk result (λ to. OnBalanced (T.elements store.old) (T.extents store.old)
        (λ lists. IsRetained directory.now.at.pfs.0 to (fulls lists))) }
    ensures few { IfOk result (λ r. IsRetention r.retention) }
    ensures gives { (word : List ℕ) → IfRefused result (MayRefuse (prune word)) }
    ensures keeps { IsSame T.HasElements store.old store.new }
    ensures borrowed { KeepsFrame T.Counted store.old store.new }
    ensures cause { HasStopCause (T.elements store.old) (T.extents store.old)
        (T.faults store.old) (T.faults store.new) result }
{
    check_directory(directory)?;
    let at = directory.at;
    let Some(record) = find_record(alloc, store, at.pfs)? else {
        return Err(Stop::Refused(Reply::NoSnapshots));
    };
    let shown = shown_of(&record, id);
    let ids = snapshot_ids(alloc, store, at.pfs, at.object, directory.as_of, shown)?;
    if ids.is_empty() {
        return Err(Stop::Refused(Reply::NoSnapshots));
    }
    let retention = keep_listed(alloc, &record.retention, &ids)?;
    Ok(PfsRecord {
        retention,
        ..record
    })
}

// The id up to which ids are named: a slave shows none after its sync end.
fn shown_of(held: &PfsRecord, id: Id) -> Id
    ensures { result.0 ≡ (if held.now.master then id.0 else held.now.sync_end.0) }
{
    if held.master { id } else { held.sync_end }
}

// The record with what `prune-everything` keeps, if there is one.
fn keep_present<T: ElementStore + Extents>(
    alloc: Global,
    store: &mut T,
    pfs: Pfs,
    id: Id,
) -> Result<Option<PfsRecord>, Fault>
    requires id { id.0 ≤ GREATEST_ID }
    requires balanced { InBalance T.HasElements store.old }
    ensures told { (hash : List ℕ → ℕ) →
        OnCalls hash id.0 (T.elements store.old) (T.extents store.old) (λ es call.
        IfOk result (λ to. HasRecordAfter (system_after present call) call.volume pfs.0 to es)) }
    ensures retained { IfOk result (λ to. OnBalanced (T.elements store.old) (T.extents store.old)
        (λ lists. IsRetainedIn pfs.0 to (fulls lists))) }
    ensures few { IfOk result (λ to. IfSome to (λ (r : Told). IsRetention r.retention)) }
    ensures keeps { IsSame T.HasElements store.old store.new }
    ensures borrowed { KeepsFrame T.Counted store.old store.new }
    ensures cause { ReadsWithCause T.HasElements store.old store.new result }
{
    let Some(record) = find_record(alloc, store, pfs)? else {
        return Ok(None);
    };
    let retention = keep_now(alloc, &record, id)?;
    Ok(Some(PfsRecord {
        retention,
        ..record
    }))
}

// What `prune-everything` by an id keeps of the retention in a record.
fn keep_now(alloc: Global, held: &PfsRecord, id: Id) -> Result<Retention, NoMemory>
    ensures ok { IfOk result (IsPresentOf held.now id.0) }
    ensures retention { IfOk result IsRetention }
{
    if held.master {
        keep_from(alloc, &held.retention, id)
    } else {
        keep_one(alloc, &held.retention, held.sync_end)
    }
}

// Room for a record, and the record in place of the one that a pseudo file system has. Where it is
// to have none nothing is changed.
fn cut<T: ElementStore + Extents>(
    alloc: Global,
    store: &mut T,
    pfs: Pfs,
    to: Option<PfsRecord>,
) -> Result<Led, Stop>
    requires balanced { InBalance T.HasElements store.old }
    requires few { IfSome to (λ (r : Told). IsRetention r.retention) }
    ensures check { Answers (space_for names_zones 0 (T.room store.old) (T.free store.old))
        result }
    ensures gives { IfRefused result IsNoSpace }
    ensures led { IfOk result (λ led. (led.pfs ≡ pfs) × (led.kept ≡ kept_by to)) }
    ensures sets { OnOk result (WritesStore T.HasElements (SetsTo pfs.0 to)
        store.old store.new) }
    ensures refused { IfRefused result (λ _.
        IsSame T.HasElements store.old store.new) }
    ensures keeps { KeepsTold T.HasElements store.old store.new result }
    ensures room { TakesAtMost T.room T.free reserves store.old store.new result
        × (T.name store.new ≡ T.name store.old)
        × (T.frame store.new ≡ T.frame store.old) }
    ensures cause { HasStopCause (T.elements store.old) (T.extents store.old)
        (T.faults store.old) (T.faults store.new) result }
{
    admit_names(store, 0)?;
    let Some(to) = to else {
        let none = Retention::of(Vec::new(alloc)).unwrap();
        return Ok(Led { pfs, kept: none });
    };
    replace_record(alloc, store, pfs, &to)?;
    Ok(Led {
        pfs,
        kept: to.retention,
    })
}
