// The job of a reblock.
ghost use Rattle.std.specs.Prelude.{◌≡◌, IfOk, IfSome, None, true};
ghost use Rattle.std.specs.List.Sorted.{IsNonDecreasing};
ghost use Rattle.hm_key.specs.Calls.{KeepsJob, UnitDone};
ghost use Rattle.hm_key.specs.Job.{HasMoreCause, IfProgress};
ghost use Rattle.hm_key.specs.Members.{HasContentCause, InBalance};
ghost use Rattle.hm_reblock.specs.declared.reblock.Reblock.{Reblock};
ghost use Rattle.hm_reblock.specs.Choice.{NoneChosen, SomeChosen, without_block};
ghost use Rattle.hm_reblock.specs.Stages.{BeginsWithChoice, HasReserveFor, MovesOne, carried, next_of, reblock_place};

use crate::choice::Choice;
use crate::stage::Stage;
use hm_key::{Base, Element, ElementStore, Extents, Job, Progress};
use hm_types::{Counted, Fault};

/// Moves the payloads that lie in chosen big-blocks elsewhere, each with all elements that refer to
/// it. First it collects the elements of the choice, over units that look at 4,096 elements each;
/// then each unit moves one extent. What it collected is a hint: each unit looks whether an element
/// still stands as it was found, so the store may change between two units. It is done where one
/// look through all elements finds none in the choice.
///
/// What it collected takes 56 bytes for each element of the choice, and moving an extent takes its
/// length.
#[derive(Drop)]
pub struct Reblock {
    pub(crate) choice: Choice,
    // Elements of the choice as they were found: in the order of their keys while they are
    // collected, and then of their payloads.
    pub(crate) known: Vec<Element>,
    // How often it began to collect, or to move.
    pub(crate) walk: u64,
    pub(crate) stage: Stage,
}

impl Reblock {
    /// The reblock of these big-blocks, whose numbers rise, before its first unit. Takes no memory.
    pub fn new(chosen: Vec<u32>) -> Reblock
        requires { IsNonDecreasing chosen.items }
        ensures { BeginsWithChoice chosen.items result }
    {
        let choice = Choice::of(chosen);
        let known = Vec::new(choice.allocator());
        Reblock {
            choice,
            known,
            walk: 0,
            stage: Stage::Collect(Some(Base::least())),
        }
    }

    /// The big-blocks of which it moves what lies there. Their numbers rise.
    pub fn choice(&self) -> &[u32]
        ensures value { result.now ≡ self.now.choice }
        ensures rising { IsNonDecreasing result.now }
    {
        self.choice.as_slice()
    }

    /// Takes a big-block out of the choice, or nothing where that has none of this number.
    pub fn leave(&mut self, block: u32)
        ensures { self.new ≡ record self.old { choice = without_block block self.old.choice } }
    {
        self.choice.leave(block);
    }
}

impl<T: ElementStore + Extents> Job<T> for Reblock {
    ghost fits = { λ j s. InBalance T.HasElements s
        × HasReserveFor (T.room s) (next_of j) };

    ghost goes = { λ j s. InBalance T.HasElements s
        × IfSome (T.elements s) (SomeChosen j.choice) };

    ghost ends = { λ j s. InBalance T.HasElements s
        × IfSome (T.elements s) (NoneChosen j.choice) };

    ghost kept = { λ _ _. None };

    ghost places = { λ _. true };

    ghost place = { reblock_place };

    ghost looks = { λ j s t same. carried j.choice (next_of j) (T.elements s) (T.elements t)
        (T.extents s) (T.extents t) (T.room s) (T.room t) same.elements same.extents same.room };

    fn unit(&mut self, store: &mut T) -> Result<Progress, Fault>
        requires fits { InBalance T.HasElements store.old
            × HasReserveFor (T.room store.old) (next_of self.old) }
        ensures progress { IfOk result (IfProgress
            (InBalance T.HasElements store.new
            × IfSome (T.elements store.new) (SomeChosen self.new.choice))
            (InBalance T.HasElements store.new
            × IfSome (T.elements store.new) (NoneChosen self.new.choice))) }
        ensures more { IfOk result (HasMoreCause (reblock_place self.old) (reblock_place self.new)
            (T.elements store.old) (T.elements store.new)) }
        ensures job { KeepsJob (λ (j : Reblock) (s : T). InBalance T.HasElements s
            × HasReserveFor (T.room s) (next_of j)) (λ _ _. None) (λ _. true) reblock_place
            self.old self.new result }
        ensures store { UnitDone T.elements T.mark T.extents T.room T.free (λ _. None) true
            store.old store.new result }
        ensures reblock { MovesOne T.elements T.mark T.extents T.room T.free self.old self.new
            store.old store.new result }
        ensures name { T.name store.new ≡ T.name store.old }
        ensures frame { T.frame store.new ≡ T.frame store.old }
        ensures cause { HasContentCause T.HasElements store.old store.new result }
    {
        match self.stage {
            Stage::Collect(Some(from)) => self.collect_more(store, &from),
            Stage::Collect(None) => self.end_collecting(store),
            Stage::Move(at) => self.move_next(store, at),
        }
    }
}
