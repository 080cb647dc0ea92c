// What calls of two paths ask of their words, and of the pseudo file systems that these lead to.
ghost use Rattle.std.specs.Prelude.{◌≡◌, ◌||◌, ℕ, List, IfErr, IfOk, OnOk, false};
ghost use Rattle.std.specs.Option.{option_map_or};
ghost use Rattle.hm_model.specs.Due.{refuse_if};
ghost use Rattle.hm_model.specs.declared.reply.Reply.TheVariants.{ReadOnly as read_only};
ghost use Rattle.hm_dirs.specs.Walk.{Scene};
ghost use Rattle.hm_dirs.specs.declared.position.Course.{Course as Way};
ghost use Rattle.hm_calls.specs.Known.{AreBelowIn, AreKnown};
ghost use Rattle.hm_calls.specs.Scenes.{InScenes, is_slave};
ghost use Rattle.hm_calls.specs.Stages.{AnswersAll, IsNewName, word_checks};
ghost use Rattle.hm_calls.specs.Stop.{Answers, HasStopCause, IfRefused, OfFault};
ghost use Rattle.hm_key.specs.Members.{InBalance, IsSame, KeepsFrame};

use crate::checks::check_master;
use crate::stop::Stop;
use crate::words::{check_future, check_present, named_end};
use hm_key::{ElementStore, Extents, HasElements, HasRoom};
use hm_path::Part;
use hm_types::{Counted, Id, Name, Pfs};
use std::alloc::Global;

// The name that a path makes, and the parts before it.
#[derive(Clone, Copy)]
pub(crate) struct NewName<'a> {
    pub front: &'a [Part],
    pub name: &'a Name,
}

// What is asked of two paths before the walks along them, of which the second makes a name: that it
// has one, and that neither has an id.
pub(crate) fn check_words<'a>(one: &[Part], two: &'a [Part], last: Id) -> Result<NewName<'a>, Stop>
    ensures checks { AnswersAll (word_checks last.0 one.now two.now) result }
    ensures new { IfOk result (IsNewName one.now two.now) }
    ensures failed { IfErr result (OfFault (λ _. ⊥)) }
{
    let (front, name) = named_end(two)?;
    check_future(one, last)?;
    check_future(two, last)?;
    check_present(one)?;
    check_present(two)?;
    Ok(NewName { front, name })
}

// `read only` where one of two pseudo file systems is a slave. The elements of the second one are
// older than the call's id, where it may change.
pub(crate) fn check_masters<T: ElementStore + Extents>(
    alloc: Global,
    store: &mut T,
    one: Pfs,
    two: Pfs,
) -> Result<(), Stop>
    requires balanced { InBalance T.HasElements store.old }
    ensures ok { (hash : List ℕ → ℕ) (course : Way) →
        InScenes hash course (T.elements store.old) (T.extents store.old) (λ scene.
        Answers (refuse_if (is_slave scene.volume one.0 || (is_slave scene.volume two.0 || false))
        read_only) result) }
    ensures below { OnOk result ((id : ℕ) → AreKnown (T.elements store.old) (T.extents store.old) id
        → AreBelowIn (T.elements store.old) (T.extents store.old) two.0 id) }
    ensures gives { IfRefused result (λ reply. reply ≡ read_only) }
    ensures keeps { IsSame T.HasElements store.old store.new }
    ensures borrowed { KeepsFrame T.Counted store.old store.new }
    ensures cause { HasStopCause (T.elements store.old) (T.extents store.old)
        (T.faults store.old) (T.faults store.new) result }
{
    check_master(alloc, store, one)?;
    if one.0 == two.0 {
        return Ok(());
    }
    check_master(alloc, store, two)
}
