// Pages in three states.
ghost use Rattle.std.specs.Prelude.{◌≡◌, ℕ, Bool, Option, IfSome, IsTrue, OnOk};
ghost use Rattle.hm_fields.specs.Pages.{PageMap, HasReadCause};
ghost use Rattle.hm_fields.specs.States.{map_of, HaveAll};

use crate::page::Page;
use crate::pages::Pages;
use hm_types::{Fault, HOff};

/// Which of the states of a store of pages is read.
#[derive(Clone, Copy, Debug, PartialEq, Eq)]
pub enum State {
    /// As a crash now would leave it.
    Committed,
    /// As the flush that is under way will leave it, and as committed where none is.
    Frozen,
    /// As calls see and change it.
    Current,
}

/// Pages that are told as committed, as frozen and as they are now. Calls change the last alone: the
/// other two, and which pages of layer 2 of the freemap stand in all three, follow from the frame.
pub trait States: Pages {
    /// The bytes of each committed page, where pages are told.
    ghost committed: { Self → Option PageMap };

    /// The bytes of each frozen page, where pages are told: of each committed one, where no flush
    /// is under way.
    ghost frozen: { Self → Option PageMap };

    /// Whether at an offset a page of layer 2 stands, in all three states.
    ghost layer2: { Self → ℕ → Bool };

    /// Reads a page of layer 2 as it stands in one of the states, into `into`. It changes nothing
    /// that is told; what `into` holds after an error is not known.
    fn page_in(&mut self, state: State, at: HOff, into: &mut Page) -> Result<(), Fault>
        requires there { IsTrue (layer2 self.old at) }
        ensures ok { OnOk result (IfSome
            (map_of (committed self.old) (frozen self.old) (Self.pages self.old) state)
            (λ map. IfSome (map at) (λ bytes. into.new ≡ bytes))) }
        ensures kept { OnOk result (Self.kept at into.new) }
        ensures same { (Self.pages self.new ≡ Self.pages self.old)
            × (Self.rest self.new ≡ Self.rest self.old) }
        ensures name { Self.name self.new ≡ Self.name self.old }
        ensures frame { Self.frame self.new ≡ Self.frame self.old }
        ensures cause { HasReadCause
            (map_of (committed self.old) (frozen self.old) (Self.pages self.old) state) at
            (Self.faults self.old) (Self.faults self.new) result };

    /// The committed and the frozen pages, and which of them are of layer 2, follow from the frame.
    ghost framed: { (s t : Self) → Self.Counted.frame s ≡ Self.Counted.frame t →
        (committed s ≡ committed t) × (frozen s ≡ frozen t) × (layer2 s ≡ layer2 t) };

    /// The pages of layer 2 stand in all three states, of which all are told or none.
    ghost there: { (s : Self) →
        HaveAll (layer2 s) (committed s) (frozen s) (Self.Pages.pages s) };
}

impl<S: States> States for &mut S {
    ghost committed = { λ s. S.committed s.now };

    ghost frozen = { λ s. S.frozen s.now };

    ghost layer2 = { λ s. S.layer2 s.now };

    ghost framed = { λ s t. S.States.framed s.now t.now };

    ghost there = { λ s. S.States.there s.now };

    fn page_in(&mut self, state: State, at: HOff, into: &mut Page) -> Result<(), Fault> {
        (**self).page_in(state, at, into)
    }
}
