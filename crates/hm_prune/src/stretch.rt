// A stretch of a walk through a pseudo file system, with what is removed on it.
ghost use Rattle.std.specs.Prelude.{◌≡◌, ◌≤◌, IfOk, IfSome, OnOk, Some, true};
ghost use Rattle.hm_types.specs.Space.{nothing};
ghost use Rattle.hm_key.specs.Elements.{element_at, element_key};
ghost use Rattle.hm_key.specs.Job.{ComesFurther};
ghost use Rattle.hm_key.specs.Sweep.{place_from};
ghost use Rattle.hm_key.specs.Members.{HasContentCause, InBalance, SpendsAtMost};
ghost use Rattle.hm_prune.specs.Dead.{IsDeadIn, keeps_in};
ghost use Rattle.hm_prune.specs.Prunes.{LosesAtMost, Prunes, Removes};

use crate::prune::Prune;
use hm_key::{Base, Element, ElementStore, Extents};
use hm_types::{Counted, Fault};

// The most elements at which a stretch looks.
const MOST_LOOKS: u32 = 4_096;

// The most elements that are removed on a stretch.
const MOST_REMOVED: u32 = 64;

// What a look at one element led to.
#[derive(Clone, Copy)]
struct Step {
    // The key after that of the element, and None where no further one is in the pseudo file system.
    next: Option<Base>,
    // How many elements were removed, one or none.
    removed: u32,
}

impl Prune {
    // Goes through elements from a key on and removes those that are dead. Answers from where on a
    // walk goes on, and None where it is at its end.
    pub(crate) fn remove_some<T: ElementStore + Extents>(
        &self,
        store: &mut T,
        from: &Base,
    ) -> Result<Option<Base>, Fault>
        requires balanced { InBalance T.HasElements store.old }
        ensures ok { OnOk result (Prunes T.elements T.mark T.extents
            (keeps_in self.now.pfs.0 self.now.kept) store.old store.new) }
        ensures space { SpendsAtMost T.HasElements nothing store.old store.new }
        ensures further { IfOk result (λ next.
            ComesFurther (place_from (Some from.now)) (place_from next)) }
        ensures few { OnOk result
            (LosesAtMost 64 (T.elements store.old) (T.elements store.new)) }
        ensures name { T.name store.new ≡ T.name store.old }
        ensures frame { T.frame store.new ≡ T.frame store.old }
        ensures cause { HasContentCause T.HasElements store.old store.new result }
    {
        let mut step = self.step(store, from)?;
        for _ in 1..MOST_LOOKS {
            let Some(at) = step.next else {
                return Ok(None);
            };
            if step.removed >= MOST_REMOVED {
                return Ok(Some(at));
            }
            let removed = step.removed;
            step = self.step(store, &at)?;
            step.removed += removed;
        }
        Ok(step.next)
    }

    // Looks at the first element from a key on, and removes it if it is dead.
    fn step<T: ElementStore + Extents>(&self, store: &mut T, at: &Base) -> Result<Step, Fault>
        requires balanced { InBalance T.HasElements store.old }
        ensures ok { OnOk result (Prunes T.elements T.mark T.extents
            (keeps_in self.now.pfs.0 self.now.kept) store.old store.new) }
        ensures space { SpendsAtMost T.HasElements nothing store.old store.new }
        ensures further { IfOk result (λ step.
            ComesFurther (place_from (Some at.now)) (place_from step.next)) }
        ensures one { IfOk result (λ step. step.removed ≤ 1) }
        ensures few { IfOk result (λ step.
            LosesAtMost step.removed (T.elements store.old) (T.elements store.new)) }
        ensures name { T.name store.new ≡ T.name store.old }
        ensures frame { T.frame store.new ≡ T.frame store.old }
        ensures cause { HasContentCause T.HasElements store.old store.new result }
    {
        let end = Step {
            next: None,
            removed: 0,
        };
        let Some(element) = store.first_at_or_after(at)? else {
            return Ok(end);
        };
        if element.base.localization / 65_536 > u32::from(self.pfs.0) {
            return Ok(end);
        }
        let next = element.base.key_after();
        if !self.is_dead(&element.base) {
            return Ok(Step { next, removed: 0 });
        }
        self.remove_one(store, &element)?;
        Ok(Step { next, removed: 1 })
    }

    // Removes a dead element, and gives its reference back.
    pub(crate) fn remove_one<T: ElementStore + Extents>(
        &self,
        store: &mut T,
        element: &Element,
    ) -> Result<(), Fault>
        requires balanced { InBalance T.HasElements store.old }
        requires there { IfSome (T.elements store.old) (λ es.
            element_at (element_key element.now) es ≡ Some element.now) }
        requires dead { IsDeadIn self.now.pfs.0 self.now.kept element.now.base }
        ensures ok { OnOk result (Prunes T.elements T.mark T.extents
            (keeps_in self.now.pfs.0 self.now.kept) store.old store.new) }
        ensures space { SpendsAtMost T.HasElements nothing store.old store.new }
        ensures gone { OnOk result (Removes element.now
            (T.elements store.old) (T.elements store.new)) }
        ensures name { T.name store.new ≡ T.name store.old }
        ensures frame { T.frame store.new ≡ T.frame store.old }
        ensures cause { HasContentCause T.HasElements store.old store.new result }
    {
        store.remove(&element.base)?;
        store.give_back(element.payload, element.len)
    }
}
