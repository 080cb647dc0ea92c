// What a reblock does of a store.
ghost use Rattle.std.specs.Prelude.{◌≡◌, ◌≢◌, ◌⊎◌, ◌<◌, ◌≤◌, IfErr, IfOk, IfSome, IsSomeAnd, OnErr, OnOk, Some};
ghost use Rattle.std.specs.Prelude.{length, slice_get, vec_len};
ghost use Rattle.hm_types.specs.Offset.{zone_of};
ghost use Rattle.hm_types.specs.Space.{IsPayloadZone, in_zone, nothing};
ghost use Rattle.hm_types.specs.declared.space.TheConstants.{PAYLOAD_RESERVE};
ghost use Rattle.hm_key.specs.Elements.{element_at, element_key};
ghost use Rattle.hm_key.specs.Job.{ComesFurther, IfProgress};
ghost use Rattle.hm_key.specs.Key.{key_of};
ghost use Rattle.hm_key.specs.Members.{HasContentCause, HasElementsCause, InBalance, IsSame, SpendsAtMost};
ghost use Rattle.hm_reblock.specs.Choice.{IsInChoice, IsStill, IsZoneChosen, LiesThere, TellsLeft};
ghost use Rattle.hm_reblock.specs.Moving.{AllAway, AreTwins, IsAway, MovesPayloads, Relocates};
ghost use Rattle.hm_reblock.specs.Stages.{GoesOnWith, HasReserveFor, IsAtStart, IsLeft, LeadsOn, Notes};
ghost use Rattle.hm_reblock.specs.Stages.{StandsOrComes, most_for, next_of, reblock_place};
ghost use Rattle.hm_reblock.specs.declared.stage.Stage.TheVariants.{Collect, Move};
ghost use Rattle.hm_types.specs.declared.fault.Fault.TheVariants.{NoMemory as no_memory};

use crate::extent::{move_first, move_sharer};
use crate::reblock::Reblock;
use crate::stage::{Left, Stage};
use hm_key::{Base, Element, ElementStore, Extents, Progress};
use hm_types::{Counted, Fault, HOff};

impl Reblock {
    /// The zone of the extent that the next unit moves, 9, 10 or 11, and None exactly where no
    /// payload lies in the choice. While the elements of the choice are collected it is the zone of
    /// one of them, and the next unit moves nothing. It does not fall behind. Looks at all elements
    /// where none is left that was collected. The faults are those of the store, and the reblock is
    /// then as before.
    pub fn next_zone<T: ElementStore + Extents>(
        &mut self,
        store: &mut T,
    ) -> Result<Option<u8>, Fault>
        ensures ok { IfSome (T.elements store.old) (λ es.
            IfOk result (IsZoneChosen self.old.choice es)) }
        ensures zone { IfOk result (λ zone. IfSome zone (λ z. IsPayloadZone z
            × IfSome (next_of self.new) (λ e. zone_of e.payload ≡ z))) }
        ensures choice { self.new.choice ≡ self.old.choice }
        ensures place { StandsOrComes (reblock_place self.old) (reblock_place self.new) }
        ensures err { OnErr result (self.new ≡ self.old) }
        ensures keeps { IsSame T.HasElements store.old store.new }
        ensures name { T.name store.new ≡ T.name store.old }
        ensures frame { T.frame store.new ≡ T.frame store.old }
        ensures cause { HasElementsCause T.HasElements store.old store.new result }
    {
        let Some(left) = self.left(store, self.stage)? else {
            return Ok(None);
        };
        self.go_on(left.stage)?;
        Ok(Some(left.element.payload.zone()))
    }

    // Collects elements of the choice, from a key on.
    pub(crate) fn collect_more<T: ElementStore>(
        &mut self,
        store: &mut T,
        from: &Base,
    ) -> Result<Progress, Fault>
        requires stage { self.old.stage ≡ Collect (Some from.now) }
        ensures ok { IfSome (T.elements store.old) (λ es.
            IfOk result (TellsLeft self.old.choice es)) }
        ensures further { IfOk result (IfProgress
            (ComesFurther (reblock_place self.old) (reblock_place self.new)) (Unit {0})) }
        ensures choice { self.new.choice ≡ self.old.choice }
        ensures err { OnErr result (IsAtStart self.old self.new) }
        ensures keeps { IsSame T.HasElements store.old store.new }
        ensures name { T.name store.new ≡ T.name store.old }
        ensures frame { T.frame store.new ≡ T.frame store.old }
        ensures cause { HasElementsCause T.HasElements store.old store.new result }
    {
        let before = self.known.len();
        let progress = self.try_collect(store, from);
        if progress.is_err() {
            self.known.truncate(before);
        }
        progress
    }

    fn try_collect<T: ElementStore>(
        &mut self,
        store: &mut T,
        from: &Base,
    ) -> Result<Progress, Fault>
        requires stage { self.old.stage ≡ Collect (Some from.now) }
        ensures ok { IfSome (T.elements store.old) (λ es.
            IfOk result (TellsLeft self.old.choice es)) }
        ensures further { IfOk result (IfProgress
            (ComesFurther (reblock_place self.old) (reblock_place self.new)) (Unit {0})) }
        ensures choice { self.new.choice ≡ self.old.choice }
        ensures err { OnErr result (Notes self.old self.new) }
        ensures keeps { IsSame T.HasElements store.old store.new }
        ensures name { T.name store.new ≡ T.name store.old }
        ensures frame { T.frame store.new ≡ T.frame store.old }
        ensures cause { HasElementsCause T.HasElements store.old store.new result }
    {
        let next = self.choice.collect(store, from, &mut self.known)?;
        let Some(left) = self.left(store, Stage::Collect(next))? else {
            return Ok(Progress::Done);
        };
        self.stage = left.stage;
        Ok(Progress::More)
    }

    // Puts what was collected in the order of its payloads, if anything is left.
    pub(crate) fn end_collecting<T: ElementStore>(
        &mut self,
        store: &mut T,
    ) -> Result<Progress, Fault>
        ensures ok { IfSome (T.elements store.old) (λ es.
            IfOk result (TellsLeft self.old.choice es)) }
        ensures further { IfOk result (IfProgress (self.old.walk < self.new.walk) (Unit {0})) }
        ensures choice { self.new.choice ≡ self.old.choice }
        ensures err { OnErr result (self.new ≡ self.old) }
        ensures keeps { IsSame T.HasElements store.old store.new }
        ensures name { T.name store.new ≡ T.name store.old }
        ensures frame { T.frame store.new ≡ T.frame store.old }
        ensures cause { HasElementsCause T.HasElements store.old store.new result }
    {
        if self.left(store, Stage::Collect(None))?.is_none() {
            return Ok(Progress::Done);
        }
        self.walk = self.next_walk()?;
        self.known.sort_unstable_by_key(|known| known.payload);
        self.stage = Stage::Move(0);
        Ok(Progress::More)
    }

    // Moves the extent of the element at a place of what was collected.
    pub(crate) fn move_next<T: ElementStore + Extents>(
        &mut self,
        store: &mut T,
        at: usize,
    ) -> Result<Progress, Fault>
        requires balanced { InBalance T.HasElements store.old }
        requires room { HasReserveFor (T.room store.old) (slice_get self.old.known.items at) }
        requires stage { self.old.stage ≡ Move at }
        ensures ok { IfOk result (λ progress. IfSome (T.elements store.new) (λ es.
            TellsLeft self.old.choice es progress)) }
        ensures moves { OnOk result
            (MovesPayloads T.elements T.mark T.extents store.old store.new) }
        ensures space { SpendsAtMost T.HasElements (most_for (slice_get self.old.known.items at))
            store.old store.new }
        ensures further { IfOk result (IfProgress
            (ComesFurther (reblock_place self.old) (reblock_place self.new)) (Unit {0})) }
        ensures choice { self.new.choice ≡ self.old.choice }
        ensures err { OnErr result (self.new ≡ self.old) }
        ensures name { T.name store.new ≡ T.name store.old }
        ensures frame { T.frame store.new ≡ T.frame store.old }
        ensures cause { HasContentCause T.HasElements store.old store.new result }
    {
        let next = self.move_at(store, at)?;
        let Some(left) = self.left(store, Stage::Move(next))? else {
            return Ok(Progress::Done);
        };
        self.go_on(left.stage)?;
        Ok(Progress::More)
    }

    // The same, and the place of what comes next.
    fn move_at<T: ElementStore + Extents>(&self, store: &mut T, at: usize) -> Result<usize, Fault>
        requires balanced { InBalance T.HasElements store.old }
        requires room { HasReserveFor (T.room store.old) (slice_get self.now.known.items at) }
        ensures moves { OnOk result
            (MovesPayloads T.elements T.mark T.extents store.old store.new) }
        ensures space { SpendsAtMost T.HasElements (most_for (slice_get self.now.known.items at))
            store.old store.new }
        ensures further { IfOk result (λ next. (at < next) ⊎ (length self.now.known.items ≤ next)) }
        ensures name { T.name store.new ≡ T.name store.old }
        ensures frame { T.frame store.new ≡ T.frame store.old }
        ensures cause { HasContentCause T.HasElements store.old store.new result }
    {
        let Some(known) = self.known.get(at) else {
            return Ok(at);
        };
        match self.choice.still(store, known)? {
            Some(element) => self.move_extent(store, &element, at),
            None => Ok(at + 1),
        }
    }

    // Moves the extent of an element, which was collected at a place, and all others of it that
    // follow there.
    fn move_extent<T: ElementStore + Extents>(
        &self,
        store: &mut T,
        first: &Element,
        at: usize,
    ) -> Result<usize, Fault>
        requires balanced { InBalance T.HasElements store.old }
        requires there { IfSome (T.elements store.old) (λ es.
            element_at (element_key first.now) es ≡ Some first.now) }
        requires chosen { IsInChoice self.now.choice first.now }
        requires room { PAYLOAD_RESERVE ≤ T.room store.old (zone_of first.now.payload) }
        requires known { IsSomeAnd (slice_get self.now.known.items at) (λ known.
            IsStill self.now.choice known first.now) }
        ensures moves { OnOk result
            (MovesPayloads T.elements T.mark T.extents store.old store.new) }
        ensures all { IfOk result (λ next. IfSome (T.elements store.new)
            (AllAway first.now.payload self.now.known.items at next)) }
        ensures rest { IfOk result (λ next. IfSome (slice_get self.now.known.items next)
            (λ known. known.payload ≢ first.now.payload)) }
        ensures space { SpendsAtMost T.HasElements (in_zone (zone_of first.now.payload) PAYLOAD_RESERVE)
            store.old store.new }
        ensures further { IfOk result (λ next. at < next) }
        ensures name { T.name store.new ≡ T.name store.old }
        ensures frame { T.frame store.new ≡ T.frame store.old }
        ensures cause { HasContentCause T.HasElements store.old store.new result }
    {
        let to = move_first(self.choice.allocator(), store, first)?;
        let mut next = at + 1;
        while let Some(known) = self.known.get(next) {
            if known.payload != first.payload {
                break;
            }
            self.move_known(store, known, to)?;
            next += 1;
        }
        Ok(next)
    }

    // Moves an element that was collected to the new place of its extent, if it still stands there.
    fn move_known<T: ElementStore + Extents>(
        &self,
        store: &mut T,
        known: &Element,
        to: HOff,
    ) -> Result<(), Fault>
        requires balanced { InBalance T.HasElements store.old }
        requires twins { IfSome (T.extents store.old) (AreTwins 64 known.now.payload to) }
        requires lies { LiesThere self.now.choice known.now.payload }
        ensures ok { OnOk result (Relocates T.elements T.mark T.extents known.now.payload to
            store.old store.new) }
        ensures away { OnOk result (IfSome (T.elements store.new)
            (IsAway known.now.payload known.now)) }
        ensures space { SpendsAtMost T.HasElements nothing store.old store.new }
        ensures name { T.name store.new ≡ T.name store.old }
        ensures frame { T.frame store.new ≡ T.frame store.old }
        ensures cause { HasContentCause T.HasElements store.old store.new result }
    {
        match self.choice.still(store, known)? {
            Some(element) => move_sharer(store, &element, to),
            None => Ok(()),
        }
    }

    // Goes on with a stage. One that collects anew begins another walk.
    fn go_on(&mut self, stage: Stage) -> Result<(), Fault>
        ensures ok { OnOk result (GoesOnWith self.old stage self.new) }
        ensures choice { self.new.choice ≡ self.old.choice }
        ensures err { OnErr result (self.new ≡ self.old) }
        ensures memory { IfErr result (λ fault. fault ≡ no_memory) }
    {
        if let (Stage::Move(_), Stage::Collect(_)) = (self.stage, stage) {
            self.walk = self.next_walk()?;
            self.known.clear();
        }
        self.stage = stage;
        Ok(())
    }

    fn next_walk(&self) -> Result<u64, Fault>
        ensures ok { IfOk result (λ walk. self.now.walk < walk) }
        ensures memory { IfErr result (λ fault. fault ≡ no_memory) }
    {
        match self.walk.checked_add(1) {
            Some(walk) => Ok(walk),
            None => Err(Fault::NoMemory),
        }
    }

    // What is left in the choice, and the stage that goes on with it.
    fn left<T: ElementStore>(&self, store: &mut T, stage: Stage) -> Result<Option<Left>, Fault>
        ensures ok { IfSome (T.elements store.old) (λ es.
            IfOk result (IsLeft self.now.choice es)) }
        ensures chosen { IfOk result (λ left. IfSome left (λ l.
            IsInChoice self.now.choice l.element)) }
        ensures leads { IfOk result (λ left. IfSome left (λ l.
            LeadsOn self.now.known.items l.element stage l.stage)) }
        ensures keeps { IsSame T.HasElements store.old store.new }
        ensures name { T.name store.new ≡ T.name store.old }
        ensures frame { T.frame store.new ≡ T.frame store.old }
        ensures cause { HasElementsCause T.HasElements store.old store.new result }
    {
        match stage {
            Stage::Collect(from) => self.left_to_collect(store, from),
            Stage::Move(at) => self.left_to_move(store, at),
        }
    }

    fn left_to_collect<T: ElementStore>(
        &self,
        store: &mut T,
        from: Option<Base>,
    ) -> Result<Option<Left>, Fault>
        ensures ok { IfSome (T.elements store.old) (λ es.
            IfOk result (IsLeft self.now.choice es)) }
        ensures chosen { IfOk result (λ left. IfSome left (λ l.
            IsInChoice self.now.choice l.element)) }
        ensures leads { IfOk result (λ left. IfSome left (λ l.
            LeadsOn self.now.known.items l.element (Collect from) l.stage)) }
        ensures keeps { IsSame T.HasElements store.old store.new }
        ensures name { T.name store.new ≡ T.name store.old }
        ensures frame { T.frame store.new ≡ T.frame store.old }
        ensures cause { HasElementsCause T.HasElements store.old store.new result }
    {
        if let Some(element) = self.last_still(store)? {
            let stage = Stage::Collect(from);
            return Ok(Some(Left { element, stage }));
        }
        if let Some(element) = self.choice.first_to_come(store, from)? {
            let stage = Stage::Collect(Some(element.base.boundary()));
            return Ok(Some(Left { element, stage }));
        }
        match self.choice.first_from(store, &Base::least())? {
            Some(element) => {
                let stage = Stage::Collect(None);
                Ok(Some(Left { element, stage }))
            }
            None => Ok(None),
        }
    }

    // The element that was collected last, if it still stands there.
    fn last_still<T: ElementStore>(&self, store: &mut T) -> Result<Option<Element>, Fault>
        ensures ok { IfSome (T.elements store.old) (λ es.
            IfOk result (λ found. IfSome found (λ e. element_at (element_key e) es ≡ Some e))) }
        ensures chosen { IfOk result (λ found. IfSome found (IsInChoice self.now.choice)) }
        ensures keeps { IsSame T.HasElements store.old store.new }
        ensures name { T.name store.new ≡ T.name store.old }
        ensures frame { T.frame store.new ≡ T.frame store.old }
        ensures cause { HasElementsCause T.HasElements store.old store.new result }
    {
        match self.known.last() {
            Some(known) => self.choice.still(store, known),
            None => Ok(None),
        }
    }

    fn left_to_move<T: ElementStore>(&self, store: &mut T, at: usize) -> Result<Option<Left>, Fault>
        ensures ok { IfSome (T.elements store.old) (λ es.
            IfOk result (IsLeft self.now.choice es)) }
        ensures chosen { IfOk result (λ left. IfSome left (λ l.
            IsInChoice self.now.choice l.element)) }
        ensures leads { IfOk result (λ left. IfSome left (λ l.
            LeadsOn self.now.known.items l.element (Move at) l.stage)) }
        ensures keeps { IsSame T.HasElements store.old store.new }
        ensures name { T.name store.new ≡ T.name store.old }
        ensures frame { T.frame store.new ≡ T.frame store.old }
        ensures cause { HasElementsCause T.HasElements store.old store.new result }
    {
        let mut at = at;
        while let Some(known) = self.known.get(at) {
            if let Some(element) = self.choice.still(store, known)? {
                let stage = Stage::Move(at);
                return Ok(Some(Left { element, stage }));
            }
            at += 1;
        }
        match self.choice.first_from(store, &Base::least())? {
            Some(element) => {
                let stage = Stage::Collect(Some(element.base.boundary()));
                Ok(Some(Left { element, stage }))
            }
            None => Ok(None),
        }
    }
}
