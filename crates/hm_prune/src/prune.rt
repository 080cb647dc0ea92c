// The job of a prune.
ghost use Rattle.std.specs.Prelude.{◌≡◌, ◌↔◌, IsTrue, IfSome, false};
ghost use Rattle.hm_key.specs.Key.{IsBoundary};
ghost use Rattle.hm_key.specs.Sweep.{place_from};
ghost use Rattle.hm_key.specs.Members.{InBalance};
ghost use Rattle.hm_prune.specs.Dead.{IsDeadIn, NoneDead, first_key_of, keeps_in};
ghost use Rattle.hm_prune.specs.Prunes.{BeginsFor, carried};

use hm_key::{Base, ElementStore, Extents, Job, Progress};
use hm_retain::Retention;
use hm_types::{Counted, Fault, Id, Pfs};

/// Removes the elements of one pseudo file system that are dead for a retention. It walks through
/// them in stretches, one a unit, and keeps nothing of the store but the key that it came to, so the
/// store may change between two units. It is done where one look through the whole of them finds no
/// dead one.
#[derive(Debug, Drop)]
pub struct Prune {
    pub(crate) pfs: Pfs,
    pub(crate) kept: Retention,
    // The key from which on it looks next, and None where the look through the whole is due.
    pub(crate) from: Option<Base>,
}

impl Prune {
    /// The prune of a pseudo file system that keeps these ids, before its first unit. Takes no
    /// memory.
    pub fn new(pfs: Pfs, kept: Retention) -> Prune
        ensures { BeginsFor pfs.0 kept result }
    {
        Prune {
            pfs,
            kept,
            from: Some(first_of(pfs)),
        }
    }

    // Whether a base is one of the pseudo file system, and dead for the kept ids: it was closed, and
    // the least kept id from its create id on is no earlier.
    pub(crate) fn is_dead(&self, base: &Base) -> bool
        ensures { IsTrue result ↔ IsDeadIn self.now.pfs.0 self.now.kept base.now }
    {
        if base.localization / 65_536 != u32::from(self.pfs.0) || base.delete == 0 {
            return false;
        }
        match self.kept.first_kept(Id(base.create)) {
            Some(kept) => base.delete <= kept.0,
            None => false,
        }
    }
}

/// The boundary before all elements of a pseudo file system.
pub(crate) fn first_of(pfs: Pfs) -> Base
    ensures { IsBoundary result (first_key_of pfs.0) }
{
    Base {
        localization: u32::from(pfs.0) * 65_536,
        ..Base::least()
    }
}

impl<T: ElementStore + Extents> Job<T> for Prune {
    ghost fits = { λ _ s. InBalance T.HasElements s };

    ghost goes = { λ _ s. InBalance T.HasElements s };

    ghost ends = { λ j s. InBalance T.HasElements s
        × IfSome (T.elements s) (NoneDead j.pfs.0 j.kept) };

    ghost kept = { λ j. keeps_in j.pfs.0 j.kept };

    ghost places = { λ _. false };

    ghost place = { λ j. place_from j.from };

    ghost looks = { λ j s t same. carried j.pfs.0 j.kept (T.elements s) (T.elements t)
        (T.extents s) (T.extents t) same.elements same.extents };

    fn unit(&mut self, store: &mut T) -> Result<Progress, Fault> {
        if let Some(from) = self.from {
            self.from = self.remove_some(store, &from)?;
            return Ok(Progress::More);
        }
        let Some(element) = self.first_dead(store)? else {
            return Ok(Progress::Done);
        };
        self.remove_one(store, &element)?;
        self.from = element.base.key_after();
        Ok(Progress::More)
    }
}
