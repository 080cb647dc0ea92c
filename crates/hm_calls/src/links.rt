// `ln`: a second name for a file.
ghost use Rattle.std.specs.Prelude.{◌≡◌, ◌≤◌, ◌<◌, ◌-◌, ◌^◌, ℕ, List, [], ◌∷◌, Option, IfOk, IfSome, ◌+◌, OnOk};
ghost use Rattle.hm_types.specs.declared.limits.TheConstants.{GREATEST_ID};
ghost use Rattle.hm_types.specs.Space.{nothing};
ghost use Rattle.hm_path.specs.declared.part.Part.{Part as PathPart};
ghost use Rattle.hm_key.specs.Counts.{Counts};
ghost use Rattle.hm_key.specs.Members.{HasSameContent, InBalance, IsSame, KeepsFrame, KeepsTold};
ghost use Rattle.hm_model.specs.Call.{Call};
ghost use Rattle.hm_model.specs.Sites.{Parts};
ghost use Rattle.hm_model.specs.declared.command.Command.TheVariants.{Ln as ln};
ghost use Rattle.hm_model.specs.declared.reply.Reply.TheVariants.{Done as done};
ghost use Rattle.hm_dirs.specs.Names.{IsSpot, first_key};
ghost use Rattle.hm_dirs.specs.Walk.{Scene};
ghost use Rattle.hm_dirs.specs.declared.position.Course.{Course as Way};
ghost use Rattle.hm_calls.specs.Known.{AreBelowIn, AreKnown};
ghost use Rattle.hm_calls.specs.Links.{AreSeen, IsLinked, link_checks, on_a_link};
ghost use Rattle.hm_calls.specs.Possible.{Gives};
ghost use Rattle.hm_calls.specs.Replies.{Acts};
ghost use Rattle.hm_calls.specs.Scenes.{InScenes, call_in};
ghost use Rattle.hm_calls.specs.Space.{TakesAtMost};
ghost use Rattle.hm_calls.specs.Stages.{AnswersAll, IsAmong, IsNewName, place_checks};
ghost use Rattle.hm_calls.specs.Stop.{HasStopCause, IfRefused};
ghost use Rattle.hm_calls.specs.Writes.{HasReserves, reserves};

use crate::checks::{check_new, check_one_pfs, spot_in};
use crate::course::{NAMES_HELD, course_before, read_last};
use crate::kinds::{check_links, check_no_directory, check_no_softlink};
use crate::places::{reach, reach_directory};
use crate::put::put_link;
use crate::room::admit_names;
use crate::stages::{NewName, check_masters, check_words};
use crate::stop::Stop;
use crate::words::read_path;
use hm_dirs::{Course, Follow, NameHash, Spot, Stand};
use hm_key::{ElementStore, Extents, HasElements, HasRoom};
use hm_model::Reply;
use hm_path::Part;
use hm_types::{Counted, Id, Name, Text};
use std::alloc::Global;

pub(crate) fn link<T: ElementStore + Extents, H: NameHash>(
    alloc: Global,
    store: &mut T,
    hash: &H,
    old: &Text,
    new: &Text,
    id: Id,
) -> Result<Reply, Stop>
    requires id { (1 ≤ id.0) × (id.0 ≤ GREATEST_ID) }
    requires balanced { InBalance T.HasElements store.old }
    requires known { AreKnown (T.elements store.old) (T.extents store.old) id.0 }
    ensures answers { Acts T.elements T.mark T.extents T.room T.free (H.hash_of hash.now) id.0
        (λ (call : Call). call.command ≡ ln old.now new.now) store.old store.new result }
    ensures gives { Gives id.0 (ln old.now new.now) result }
    ensures done { IfOk result (λ reply. reply ≡ done) }
    ensures known { OnOk result (AreKnown (T.elements store.new) (T.extents store.new)
        (id.0 + 1)) }
    ensures keeps { KeepsTold T.HasElements store.old store.new result }
    ensures room { TakesAtMost T.room T.free reserves store.old store.new result
        × (T.name store.new ≡ T.name store.old)
        × (T.frame store.new ≡ T.frame store.old) }
    ensures cause { HasStopCause (T.elements store.old) (T.extents store.old)
        (T.faults store.old) (T.faults store.new) result }
{
    let course = course_before(id, None);
    let old = read_path(alloc, old)?;
    let new = read_path(alloc, new)?;
    let (parts, more) = (old.parts(), new.parts());
    let named = check_words(parts, more, course.last)?;
    let found = reach_linked(alloc, store, hash, parts, named, course)?;
    let spot = check_linked(alloc, store, hash, &found, named.name)?;
    let Some(inode) = found.object.inode else {
        return Ok(Reply::Done);
    };
    put_link(
        alloc,
        store,
        &found.directory,
        spot,
        named.name,
        found.object.at.object,
        inode.links + 1,
        id,
    )?;
    Ok(Reply::Done)
}

// Where the paths lead: to the object, and to the directory of its new name.
#[derive(Clone, Copy)]
pub(crate) struct Linked {
    pub object: Stand,
    pub directory: Stand,
}

// Both places, neither of which lies in a slave.
fn reach_linked<T: ElementStore + Extents, H: NameHash>(
    alloc: Global,
    store: &mut T,
    hash: &H,
    parts: &[Part],
    new: NewName,
    course: Course,
) -> Result<Linked, Stop>
    requires balanced { InBalance T.HasElements store.old }
    ensures places { (old word : List ℕ) (more : List PathPart) → IsNewName parts.now more new.entry →
        InScenes (H.hash_of hash.now) course (T.elements store.old) (T.extents store.old) (λ scene.
        (busy : Option ℕ) → AnswersAll (place_checks (call_in (H.hash_of hash.now) (ln old word)
        (Parts parts.now ∷ Parts more ∷ []) busy scene)) result) }
    ensures found { IfOk result (λ found. (more : List PathPart) (id : ℕ) →
        IsNewName parts.now more new.entry → AreKnown (T.elements store.old) (T.extents store.old) id →
        InScenes (H.hash_of hash.now) course (T.elements store.old) (T.extents store.old)
        (IsLinked parts.now more id new.entry found)) }
    ensures below { IfOk result (λ found. (id : ℕ) →
        AreKnown (T.elements store.old) (T.extents store.old) id →
        AreBelowIn (T.elements store.old) (T.extents store.old) found.directory.at.pfs.0 id) }
    ensures gives { (more : List PathPart) → IsNewName parts.now more new.entry →
        IfRefused result (IsAmong on_a_link) }
    ensures keeps { IsSame T.HasElements store.old store.new }
    ensures borrowed { KeepsFrame T.Counted store.old store.new }
    ensures cause { HasStopCause (T.elements store.old) (T.extents store.old)
        (T.faults store.old) (T.faults store.new) result }
{
    let object = reach(alloc, store, hash, parts, Follow::Stays, course)?;
    let directory = reach_directory(alloc, store, hash, new.front, course)?;
    check_masters(alloc, store, object.at.pfs, directory.at.pfs)?;
    Ok(Linked {
        object,
        directory: read_last(directory, course),
    })
}

// The checks of both places, and room: the key that the new name gets.
fn check_linked<T: ElementStore + Extents, H: NameHash>(
    alloc: Global,
    store: &mut T,
    hash: &H,
    found: &Linked,
    name: &Name,
) -> Result<Spot, Stop>
    requires balanced { InBalance T.HasElements store.old }
    ensures checks { (course : Way) →
        InScenes (H.hash_of hash.now) course (T.elements store.old) (T.extents store.old)
        (AreSeen found.now) →
        InScenes (H.hash_of hash.now) course (T.elements store.old) (T.extents store.old) (λ scene.
        AnswersAll (link_checks (H.hash_of hash.now) (T.room store.old) (T.free store.old) name.now
        found.now scene) result) }
    ensures spot { IfOk result (λ spot. (course : Way) →
        InScenes (H.hash_of hash.now) course (T.elements store.old) (T.extents store.old)
        (AreSeen found.now) →
        InScenes (H.hash_of hash.now) course (T.elements store.old) (T.extents store.old) (λ scene.
        IsSpot (Counts scene.elements found.now.directory.as_of.0) found.now.directory.at.pfs.0
        found.now.directory.at.object (first_key (H.hash_of hash.now name.now)) spot)) }
    ensures links { OnOk result (IfSome found.now.object.inode (λ inode. inode.links < 2 ^ 32 - 1)) }
    ensures gives { IfRefused result (IsAmong on_a_link) }
    ensures reserves { OnOk result (HasReserves (T.room store.new)) }
    ensures content { OnOk result (HasSameContent T.HasElements store.old store.new) }
    ensures refused { IfRefused result (λ _.
        IsSame T.HasElements store.old store.new) }
    ensures room { TakesAtMost T.room T.free nothing store.old store.new result
        × (T.name store.new ≡ T.name store.old)
        × (T.frame store.new ≡ T.frame store.old) }
    ensures cause { HasStopCause (T.elements store.old) (T.extents store.old)
        (T.faults store.old) (T.faults store.new) result }
{
    check_no_directory(&found.object)?;
    check_no_softlink(&found.object)?;
    check_one_pfs(&found.object, &found.directory)?;
    check_new(store, hash, &found.directory, name.bytes())?;
    check_links(&found.object)?;
    let spot = spot_in(alloc, store, hash, &found.directory, name)?;
    admit_names(store, NAMES_HELD)?;
    Ok(spot)
}
