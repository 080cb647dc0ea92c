// A job that changes nothing, which is handed to a core.
ghost use Rattle.std.specs.Prelude.{IfSome, None, false};
ghost use Rattle.hm_key.specs.Balance.{Balanced};
ghost use Rattle.hm_key.specs.Sweep.{NoneFrom, carried, place_from};

use crate::test_disk::TestDisk;
use crate::volume::Volume;
use hm_core::laws::the_store_of_a_core_opens_balanced;
use hm_key::{Base, ElementStore, Extents, Job, Progress};
use hm_types::Fault;
use std::process::Abort;

// Counts the elements of a store. A unit looks at one.
#[derive(Drop)]
pub struct Count {
    pub found: u64,
    // The key from which on it looks, and None where it has come to the end.
    pub from: Option<Base>,
}

impl Count {
    pub fn new() -> Count {
        Count {
            found: 0,
            from: Some(Base::least()),
        }
    }
}

impl<T: ElementStore + Extents> Job<T> for Count {
    ghost fits = { λ _ s. Balanced (T.elements s) (T.extents s) };

    ghost goes = { λ _ s. Balanced (T.elements s) (T.extents s) };

    ghost ends = { λ j s. IfSome (T.elements s) (NoneFrom j.from) };

    ghost kept = { λ _ _. None };

    ghost places = { λ _. false };

    ghost place = { λ j. place_from j.from };

    ghost looks = { λ j s t same. carried j.from (T.elements s) (T.elements t) (T.extents s)
        (T.extents t) same.elements same.extents };

    fn unit(&mut self, store: &mut T) -> Result<Progress, Fault> {
        let Some(from) = self.from else {
            return Ok(Progress::Done);
        };
        let Some(element) = store.first_at_or_after(&from)? else {
            return Ok(Progress::Done);
        };
        self.found = self.found.saturating_add(1);
        self.from = element.base.key_after();
        Ok(Progress::More)
    }
}

// Does a unit of a count, or a stage in its place.
pub fn counted(rt: &impl Abort, core: &mut Volume, count: &mut Count) -> Progress {
    the_store_of_a_core_opens_balanced::<TestDisk, u8, u8>();
    match core.unit_of(count) {
        Ok(progress) => progress,
        Err(_) => panic!(rt; "a unit failed"),
    }
}
