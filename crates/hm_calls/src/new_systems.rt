// `pfs-master` and `pfs-slave`: a new pseudo file system, and a link to it.
ghost use Rattle.std.specs.Prelude.{◌≡◌, ◌≢◌, ◌⊎◌, ◌+◌, ◌≤◌, ℕ, List, [], ◌∷◌, Option, IfErr, IfOk, IfSome, OnOk};
ghost use Rattle.std.specs.Prelude.{Some};
ghost use Rattle.hm_types.specs.Name.{IsName};
ghost use Rattle.hm_types.specs.Space.{nothing};
ghost use Rattle.hm_types.specs.declared.limits.TheConstants.{GREATEST_ID};
ghost use Rattle.hm_path.specs.declared.part.Part.{Part as PathPart};
ghost use Rattle.hm_key.specs.Balance.{content_of};
ghost use Rattle.hm_key.specs.Charges.{Charges};
ghost use Rattle.hm_key.specs.Counts.{Counts};
ghost use Rattle.hm_key.specs.Members.{HasSameContent, InBalance, IsSame, KeepsFrame, KeepsTold, SpendsAtMost};
ghost use Rattle.hm_cursor.specs.Told.{OnBalanced, ReadsWithCause, fulls};
ghost use Rattle.hm_cursor.specs.Write.{WritesStore};
ghost use Rattle.hm_model.specs.Sites.{Parts};
ghost use Rattle.hm_model.specs.View.{View};
ghost use Rattle.hm_model.specs.Volume.{Volume};
ghost use Rattle.hm_model.specs.declared.reply.Reply.TheVariants.{MadePfs as made_pfs, NotFound as not_found};
ghost use Rattle.hm_model.specs.declared.reply.Reply.TheVariants.{PfsFull as pfs_full};
ghost use Rattle.hm_volume.specs.Shown.{ShowsAs};
ghost use Rattle.hm_dirs.specs.Names.{IsSpot, first_key};
ghost use Rattle.hm_dirs.specs.Walk.{Scene};
ghost use Rattle.hm_dirs.specs.declared.position.Course.{Course as Way};
ghost use Rattle.hm_objects.specs.Objects.{pfs_link_of, spent};
ghost use Rattle.hm_pfs.specs.Records.{IsLeastUnused};
ghost use Rattle.hm_pfs.specs.Systems.{IsUnmadeIn};
ghost use Rattle.hm_calls.specs.Changes.{HasSystem};
ghost use Rattle.hm_calls.specs.Known.{AreBelowIn, AreKnown};
ghost use Rattle.hm_calls.specs.NewSystems.{Founds, HasKnownNumbers, IsFounded, IsNewThere, IsReadThere};
ghost use Rattle.hm_calls.specs.NewSystems.{PutsLinked, name_checks, on_a_system, pfs_check, system_checks};
ghost use Rattle.hm_calls.specs.NewSystems.{system_command};
ghost use Rattle.hm_calls.specs.Possible.{IsGiven};
ghost use Rattle.hm_calls.specs.Scenes.{InScenes, call_in};
ghost use Rattle.hm_calls.specs.Space.{TakesAtMost};
ghost use Rattle.hm_calls.specs.Stages.{AnswersAll, IsAmong, IsNewName, place_checks};
ghost use Rattle.hm_calls.specs.Stop.{Answers, HasStopCause, IfRefused, OfFault};
ghost use Rattle.hm_calls.specs.Writes.{HasReserves, PutsObject, place_in, reserves};

use crate::checks::{check_master, check_new, spot_in};
use crate::course::{NAMES_HELD, course_before, read_last};
use crate::places::reach_directory;
use crate::put::put_name;
use crate::room::admit_names;
use crate::stages::NewName;
use crate::stop::Stop;
use crate::words::{check_future, check_present, named_end, read_path};
use hm_cursor::find_inode;
use hm_dirs::{Course, NameHash, Spot, Stand};
use hm_key::{ElementStore, Extents, HasElements, HasRoom};
use hm_model::Reply;
use hm_objects::add_pfs_link;
use hm_path::Part;
use hm_pfs::{add_master, add_slave, unused_from};
use hm_records::PFS_LINK;
use hm_types::{Counted, Fault, Id, Name, Obj, Pfs, Text};
use std::alloc::Global;

/// What a call makes: a pseudo file system that changes by calls, or one that changes by mirroring
/// alone.
#[derive(Clone, Copy, Debug)]
pub enum NewSystem {
    Master,
    Slave,
}

/// Answers `pfs-master` or `pfs-slave` of a path by its id, the one after the last that was drawn,
/// and tells the number that it took: the least one that is unused, which is looked for from
/// `numbers` on. The reply is the one that the call is due, by a volume that the elements show, of
/// which all numbers below `numbers` are used, no two pseudo file systems have one number, and each
/// element is of one of them. An accepted call adds a link to the tree of the pseudo file system in
/// which its walk ends, and then the new one: its record, and a master's root directory. A refused
/// one leaves the store as it was. Whatever the store tells, the reply is one that the call may have
/// by its words.
///
/// What is known of ids, room and faults is as `answer` has it.
pub fn make_system<T: ElementStore + Extents, H: NameHash>(
    alloc: Global,
    store: &mut T,
    hash: &H,
    new: NewSystem,
    path: &Text,
    shared: u64,
    id: Id,
    numbers: u32,
) -> Result<(Reply, Option<Pfs>), Fault>
    requires id { (1 ≤ id.0) × (id.0 ≤ GREATEST_ID) }
    requires balanced { InBalance T.HasElements store.old }
    requires known { AreKnown (T.elements store.old) (T.extents store.old) id.0 }
    ensures founded { IfOk result (IsFounded T.elements T.mark T.extents T.room T.free
        (H.hash_of hash.now) id.0 numbers new path.now shared store.old store.new) }
    ensures possible { IfOk result (λ told. IsGiven id.0 (system_command new path.now shared) told.0) }
    ensures known { OnOk result (AreKnown (T.elements store.new) (T.extents store.new)
        (id.0 + 1)) }
    ensures keeps { KeepsTold T.HasElements store.old store.new result }
    ensures room { (zone : ℕ) → T.room store.old zone ≤ T.room store.new zone + reserves zone }
    ensures charges { OnOk result (Charges T.room T.free reserves store.old store.new) }
    ensures borrowed { KeepsFrame T.Counted store.old store.new }
    ensures cause { ReadsWithCause T.HasElements store.old store.new result }
{
    match found_system(alloc, store, hash, new, path, shared, id, numbers) {
        Ok(number) => Ok((Reply::MadePfs { number }, Some(number))),
        Err(Stop::Refused(reply)) => Ok((reply, None)),
        Err(Stop::Failed(fault)) => Err(fault),
    }
}

fn found_system<T: ElementStore + Extents, H: NameHash>(
    alloc: Global,
    store: &mut T,
    hash: &H,
    new: NewSystem,
    word: &Text,
    shared: u64,
    id: Id,
    numbers: u32,
) -> Result<Pfs, Stop>
    requires id { (1 ≤ id.0) × (id.0 ≤ GREATEST_ID) }
    requires balanced { InBalance T.HasElements store.old }
    requires known { AreKnown (T.elements store.old) (T.extents store.old) id.0 }
    ensures founds { Founds T.elements T.mark T.extents T.room T.free (H.hash_of hash.now) id.0
        numbers new word.now shared store.old store.new result }
    ensures gives { IfRefused result (IsGiven id.0 (system_command new word.now shared)) }
    ensures given { IfOk result (λ pfs. IsGiven id.0 (system_command new word.now shared) (made_pfs pfs)) }
    ensures known { OnOk result (AreKnown (T.elements store.new) (T.extents store.new)
        (id.0 + 1)) }
    ensures keeps { KeepsTold T.HasElements store.old store.new result }
    ensures room { TakesAtMost T.room T.free reserves store.old store.new result
        × (T.name store.new ≡ T.name store.old)
        × (T.frame store.new ≡ T.frame store.old) }
    ensures cause { HasStopCause (T.elements store.old) (T.extents store.old)
        (T.faults store.old) (T.faults store.new) result }
{
    let course = course_before(id, None);
    let path = read_path(alloc, word)?;
    let parts = path.parts();
    let named = check_name(parts, course.last)?;
    let directory = reach_new(alloc, store, hash, named, course)?;
    // What stands under the new object's number is an inode, or nothing: all else is damage.
    find_inode(store, directory.at.pfs, Obj(id.0), directory.as_of)?;
    let (number, spot) = check_system(alloc, store, hash, &directory, named.name, numbers)?;
    put_system(
        alloc, store, &directory, spot, named.name, new, number, shared, id,
    )?;
    Ok(number)
}

// What is asked of the path before the walk along it: that it ends in a name, and has no id.
fn check_name<'a>(parts: &'a [Part], last: Id) -> Result<NewName<'a>, Stop>
    ensures checks { AnswersAll (name_checks last.0 parts.now) result }
    ensures new { IfOk result (IsNewName [] parts.now) }
    ensures failed { IfErr result (OfFault (λ _. ⊥)) }
{
    let (front, name) = named_end(parts)?;
    check_future(parts, last)?;
    check_present(parts)?;
    Ok(NewName { front, name })
}

// The directory of the link, which does not lie in a slave.
fn reach_new<T: ElementStore + Extents, H: NameHash>(
    alloc: Global,
    store: &mut T,
    hash: &H,
    named: NewName,
    course: Course,
) -> Result<Stand, Stop>
    requires balanced { InBalance T.HasElements store.old }
    ensures places { (parts : List PathPart) (new : NewSystem) (word : List ℕ) (shared : ℕ) →
        IsNewName [] parts named.entry →
        InScenes (H.hash_of hash.now) course (T.elements store.old) (T.extents store.old) (λ scene.
        (busy : Option ℕ) → AnswersAll (place_checks (call_in (H.hash_of hash.now)
        (system_command new word shared) (Parts parts ∷ []) busy scene)) result) }
    ensures found { IfOk result (λ directory. (parts : List PathPart) (id : ℕ) →
        IsNewName [] parts named.entry → AreKnown (T.elements store.old) (T.extents store.old) id →
        InScenes (H.hash_of hash.now) course (T.elements store.old) (T.extents store.old)
        (IsNewThere parts id named.entry.name.now directory)) }
    ensures below { IfOk result (λ directory. (id : ℕ) →
        AreKnown (T.elements store.old) (T.extents store.old) id →
        AreBelowIn (T.elements store.old) (T.extents store.old) directory.at.pfs.0 id) }
    ensures gives { (parts : List PathPart) → IsNewName [] parts named.entry →
        IfRefused result (IsAmong on_a_system) }
    ensures keeps { IsSame T.HasElements store.old store.new }
    ensures borrowed { KeepsFrame T.Counted store.old store.new }
    ensures cause { HasStopCause (T.elements store.old) (T.extents store.old)
        (T.faults store.old) (T.faults store.new) result }
{
    let directory = reach_directory(alloc, store, hash, named.front, course)?;
    check_master(alloc, store, directory.at.pfs)?;
    Ok(read_last(directory, course))
}

// The checks after the walk, and room: the number of the new one, and the key of the link's name.
fn check_system<T: ElementStore + Extents, H: NameHash>(
    alloc: Global,
    store: &mut T,
    hash: &H,
    directory: &Stand,
    name: &Name,
    numbers: u32,
) -> Result<(Pfs, Spot), Stop>
    requires balanced { InBalance T.HasElements store.old }
    ensures checks { (course : Way) →
        InScenes (H.hash_of hash.now) course (T.elements store.old) (T.extents store.old)
        (IsReadThere directory.now) →
        InScenes (H.hash_of hash.now) course (T.elements store.old) (T.extents store.old) (λ scene.
        HasKnownNumbers numbers scene.elements scene.volume → AnswersAll (system_checks
        (H.hash_of hash.now) (T.room store.old) (T.free store.old) name.now directory.now scene)
        result) }
    ensures spot { IfOk result (λ found. (course : Way) →
        InScenes (H.hash_of hash.now) course (T.elements store.old) (T.extents store.old)
        (IsReadThere directory.now) →
        InScenes (H.hash_of hash.now) course (T.elements store.old) (T.extents store.old) (λ scene.
        IsSpot (Counts scene.elements directory.now.as_of.0) directory.now.at.pfs.0
        directory.now.at.object (first_key (H.hash_of hash.now name.now)) found.1)) }
    ensures unused { IfOk result (λ found.
        IfSome (content_of (T.elements store.old) (T.extents store.old)) (λ lists.
        IsLeastUnused (fulls lists) numbers (Some found.0))) }
    ensures apart { IfOk result (λ found. found.0 ≢ directory.now.at.pfs) }
    ensures gives { IfRefused result (IsAmong on_a_system) }
    ensures reserves { OnOk result (HasReserves (T.room store.new)) }
    ensures content { OnOk result (HasSameContent T.HasElements store.old store.new) }
    ensures refused { IfRefused result (λ _.
        IsSame T.HasElements store.old store.new) }
    ensures room { TakesAtMost T.room T.free nothing store.old store.new result
        × (T.name store.new ≡ T.name store.old)
        × (T.frame store.new ≡ T.frame store.old) }
    ensures cause { HasStopCause (T.elements store.old) (T.extents store.old)
        (T.faults store.old) (T.faults store.new) result }
{
    check_new(store, hash, directory, name.bytes())?;
    let number = check_numbers(store, numbers, directory.at.pfs)?;
    let spot = spot_in(alloc, store, hash, directory, name)?;
    admit_names(store, NAMES_HELD)?;
    Ok((number, spot))
}

// The least unused number from one on: `pfs full` where all from it to the last one are used. The
// pseudo file system of a directory has a record, so that its number is not unused: where a list
// that no call wrote has such a directory without one, the directory is not found.
fn check_numbers<T: ElementStore + Extents>(
    store: &mut T,
    from: u32,
    beside: Pfs,
) -> Result<Pfs, Stop>
    ensures check { OnBalanced (T.elements store.old) (T.extents store.old) (λ lists.
        (volume : Volume) (view : View) → ShowsAs (fulls lists) volume view →
        HasKnownNumbers from (fulls lists) volume → HasSystem volume beside.0 →
        Answers (pfs_check volume) result) }
    ensures unused { IfOk result (λ pfs.
        IfSome (content_of (T.elements store.old) (T.extents store.old)) (λ lists.
        IsLeastUnused (fulls lists) from (Some pfs))) }
    ensures apart { IfOk result (λ pfs. pfs ≢ beside) }
    ensures gives { IfRefused result (λ reply. (reply ≡ pfs_full) ⊎ (reply ≡ not_found)) }
    ensures keeps { IsSame T.HasElements store.old store.new }
    ensures borrowed { KeepsFrame T.Counted store.old store.new }
    ensures cause { HasStopCause (T.elements store.old) (T.extents store.old)
        (T.faults store.old) (T.faults store.new) result }
{
    let Some(number) = unused_from(store, from)? else {
        return Err(Stop::Refused(Reply::PfsFull));
    };
    if number == beside {
        return Err(Stop::Refused(Reply::NotFound));
    }
    Ok(number)
}

// Adds a link under a name of a directory, and then the pseudo file system that it leads to.
fn put_system<T: ElementStore + Extents>(
    alloc: Global,
    store: &mut T,
    directory: &Stand,
    spot: Spot,
    name: &Name,
    new: NewSystem,
    number: Pfs,
    shared: u64,
    id: Id,
) -> Result<(), Fault>
    requires id { 1 ≤ id.0 }
    requires name { IsName name.now }
    requires balanced { InBalance T.HasElements store.old }
    requires below { AreBelowIn (T.elements store.old) (T.extents store.old)
        directory.now.at.pfs.0 id.0 }
    requires unmade { IsUnmadeIn (T.elements store.old) (T.extents store.old) number.0 id.0 }
    requires apart { number ≢ directory.now.at.pfs }
    requires room { HasReserves (T.room store.old) }
    ensures ok { (hash : List ℕ → ℕ) → OnOk result (WritesStore T.HasElements
        (PutsLinked hash (place_in directory.now name.now) spot id.0 new number shared)
        store.old store.new) }
    ensures keeps { KeepsTold T.HasElements store.old store.new result }
    ensures space { SpendsAtMost T.HasElements reserves store.old store.new }
    ensures borrowed { KeepsFrame T.Counted store.old store.new }
    ensures cause { ReadsWithCause T.HasElements store.old store.new result }
{
    put_pfs_link(alloc, store, directory, spot, name, number, id)?;
    match new {
        NewSystem::Master => add_master(alloc, store, number, shared, id),
        NewSystem::Slave => add_slave(alloc, store, number, shared, id),
    }
}

// Adds a link, whose object has the id for its number, under a name of a directory.
fn put_pfs_link<T: ElementStore + Extents>(
    alloc: Global,
    store: &mut T,
    directory: &Stand,
    spot: Spot,
    name: &Name,
    to: Pfs,
    id: Id,
) -> Result<(), Fault>
    requires id { 1 ≤ id.0 }
    requires name { IsName name.now }
    requires balanced { InBalance T.HasElements store.old }
    requires below { AreBelowIn (T.elements store.old) (T.extents store.old)
        directory.now.at.pfs.0 id.0 }
    requires room { HasReserves (T.room store.old) }
    ensures ok { (hash : List ℕ → ℕ) → OnOk result (WritesStore T.HasElements
        (PutsObject hash (place_in directory.now name.now) spot id.0
        (pfs_link_of (record { 0 = id.0 }) to)) store.old store.new) }
    ensures keeps { KeepsTold T.HasElements store.old store.new result }
    ensures space { SpendsAtMost T.HasElements (spent 2 304) store.old store.new }
    ensures borrowed { KeepsFrame T.Counted store.old store.new }
    ensures cause { ReadsWithCause T.HasElements store.old store.new result }
{
    add_pfs_link(alloc, store, directory.at.pfs, Obj(id.0), to, id)?;
    put_name(alloc, store, directory, spot, name, Obj(id.0), PFS_LINK, id)
}
