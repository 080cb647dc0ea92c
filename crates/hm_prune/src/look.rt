// One look through a whole pseudo file system.
ghost use Rattle.std.specs.Prelude.{◌≡◌, IfOk, IfSome};
ghost use Rattle.hm_key.specs.Members.{HasElementsCause, IsSame};
ghost use Rattle.hm_prune.specs.Dead.{IsDeadIn, IsFirstDead};

use crate::prune::{Prune, first_of};
use hm_key::{Element, ElementStore};
use hm_types::{Counted, Fault};

impl Prune {
    // The first dead element, and None exactly where there is none. It may look at all elements of
    // the pseudo file system.
    pub(crate) fn first_dead<T: ElementStore>(
        &self,
        store: &mut T,
    ) -> Result<Option<Element>, Fault>
        ensures ok { IfSome (T.elements store.old) (λ es.
            IfOk result (IsFirstDead self.now.pfs.0 self.now.kept es)) }
        ensures dead { IfOk result (λ found. IfSome found (λ e.
            IsDeadIn self.now.pfs.0 self.now.kept e.base)) }
        ensures keeps { IsSame T.HasElements store.old store.new }
        ensures name { T.name store.new ≡ T.name store.old }
        ensures frame { T.frame store.new ≡ T.frame store.old }
        ensures cause { HasElementsCause T.HasElements store.old store.new result }
    {
        let mut from = Some(first_of(self.pfs));
        while let Some(at) = from {
            let Some(element) = store.first_at_or_after(&at)? else {
                return Ok(None);
            };
            if element.base.localization / 65_536 > u32::from(self.pfs.0) {
                return Ok(None);
            }
            if self.is_dead(&element.base) {
                return Ok(Some(element));
            }
            from = element.base.key_after();
        }
        Ok(None)
    }
}
