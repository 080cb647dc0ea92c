// Pages by their offsets.
ghost use Rattle.std.specs.Prelude.{◌≡◌, ℕ, List, Option, IfSome, OnOk, OnErr};
ghost use Rattle.hm_types.specs.Faults.{HasStoreCause};
ghost use Rattle.hm_types.specs.Told.{BothTell};
ghost use Rattle.hm_fields.specs.Pages.{PageMap, HasPut, AnyMaps, HasReadCause};

use crate::page::Page;
use hm_types::{Counted, Fault, HOff};

/// Pages by their offsets, as the layers above read and change them. It may tell what it has; one
/// over a disk tells nothing unless the disk does.
pub trait Pages: Counted {
    /// The bytes of the page at each offset, where it tells them.
    ghost pages: { Self → Option PageMap };

    /// What is known of the bytes of a page by its offset, whether or not pages are told: each page
    /// that was read has it, and each that is put must have it. Nothing, where nothing else is said.
    ghost kept: { ℕ → List ℕ → Type 0 } = { λ _ _. Unit {0} };

    /// What else the object tells that no call of this trait changes.
    ghost Rest: { Type 0 } = { Unit {0} };

    /// That rest. Other calls on the object may change it: what none changes is its frame.
    ghost rest: { Self → Self.Rest };

    /// Reads the page at `at` into `into`. Where the pages are told and none is there, nothing is
    /// said of what is read: a store that reads pages as they are asked for finds any bytes there,
    /// or damage. It changes nothing that is told; what `into` holds after an error is not known.
    fn page(&mut self, at: HOff, into: &mut Page) -> Result<(), Fault>
        ensures ok { OnOk result (IfSome (pages self.old) (λ map.
            IfSome (map at) (λ bytes. into.new ≡ bytes))) }
        ensures kept { OnOk result (kept at into.new) }
        ensures same { (pages self.new ≡ pages self.old) × (rest self.new ≡ rest self.old) }
        ensures name { Self.name self.new ≡ Self.name self.old }
        ensures frame { Self.frame self.new ≡ Self.frame self.old }
        ensures cause { HasReadCause (pages self.old) at
            (Self.faults self.old) (Self.faults self.new) result };

    /// Puts a page at `at`, in place of the one that stands there. Where none stands there, it may
    /// answer `NoMemory`. After an error nothing is known of the pages but whether they are told.
    fn change(&mut self, at: HOff, with: &Page) -> Result<(), Fault>
        requires kept { kept at with.now }
        ensures ok { OnOk result (BothTell (pages self.old) (pages self.new) (HasPut at with.now)) }
        ensures err { OnErr result (BothTell (pages self.old) (pages self.new) AnyMaps) }
        ensures rest { rest self.new ≡ rest self.old }
        ensures name { Self.name self.new ≡ Self.name self.old }
        ensures frame { Self.frame self.new ≡ Self.frame self.old }
        ensures cause { HasStoreCause (pages self.old)
            (Self.faults self.old) (Self.faults self.new) result };
}

impl<P: Pages> Pages for &mut P {
    ghost pages = { λ p. P.pages p.now };

    ghost kept = { P.kept };

    ghost Rest = { P.Rest };

    ghost rest = { λ p. P.rest p.now };

    fn page(&mut self, at: HOff, into: &mut Page) -> Result<(), Fault> {
        (**self).page(at, into)
    }

    fn change(&mut self, at: HOff, with: &Page) -> Result<(), Fault> {
        (**self).change(at, with)
    }
}
