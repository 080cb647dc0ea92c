// Looks for elements whose payload lies in the choice.
ghost use Rattle.std.specs.Prelude.{◌≡◌, ◌↔◌, IfErr, IfOk, IfSome, IsTrue, OnOk, Some};
ghost use Rattle.std.specs.List.{Contains};
ghost use Rattle.hm_types.specs.declared.fault.Fault.TheVariants.{NoMemory as no_memory};
ghost use Rattle.hm_key.specs.Elements.{element_at, element_key};
ghost use Rattle.hm_key.specs.Key.{IsBefore, IsFrom, key_of};
ghost use Rattle.hm_key.specs.Members.{HasElementsCause, IsSame};
ghost use Rattle.hm_cursor.specs.Shown.{IsToCome};
ghost use Rattle.hm_reblock.specs.Choice.{AllNoted, IsInChoice, IsFirstInChoice, IsFront, IsStill, StandsStill};

use crate::choice::Choice;
use hm_key::{Base, Element, ElementStore};
use hm_types::{Counted, Fault};

// The most elements at which one unit looks to collect.
const MOST_LOOKS: u32 = 4_096;

impl Choice {
    // The first element from a key on whose payload lies in the choice, and None exactly where
    // there is none. It may look at all elements from there on.
    pub(crate) fn first_from<T: ElementStore>(
        &self,
        store: &mut T,
        from: &Base,
    ) -> Result<Option<Element>, Fault>
        ensures ok { IfSome (T.elements store.old) (λ es.
            IfOk result (IsFirstInChoice self.now es (key_of from.now))) }
        ensures chosen { IfOk result (λ found. IfSome found (IsInChoice self.now)) }
        ensures onward { IfOk result (λ found. IfSome found (λ e.
            IsFrom (key_of from.now) (element_key e))) }
        ensures keeps { IsSame T.HasElements store.old store.new }
        ensures name { T.name store.new ≡ T.name store.old }
        ensures frame { T.frame store.new ≡ T.frame store.old }
        ensures cause { HasElementsCause T.HasElements store.old store.new result }
    {
        let mut next = Some(*from);
        while let Some(at) = next {
            let Some(element) = store.first_at_or_after(&at)? else {
                return Ok(None);
            };
            if self.has(&element) {
                return Ok(Some(element));
            }
            next = element.base.key_after();
        }
        Ok(None)
    }

    // The same, where anything is to come: None where a walk is at its end.
    pub(crate) fn first_to_come<T: ElementStore>(
        &self,
        store: &mut T,
        from: Option<Base>,
    ) -> Result<Option<Element>, Fault>
        ensures ok { IfSome (T.elements store.old) (λ es. IfOk result (λ found.
            IfSome found (λ e. element_at (element_key e) es ≡ Some e))) }
        ensures chosen { IfOk result (λ found. IfSome found (IsInChoice self.now)) }
        ensures onward { IfOk result (λ found. IfSome found (λ e.
            IsToCome from (element_key e))) }
        ensures keeps { IsSame T.HasElements store.old store.new }
        ensures name { T.name store.new ≡ T.name store.old }
        ensures frame { T.frame store.new ≡ T.frame store.old }
        ensures cause { HasElementsCause T.HasElements store.old store.new result }
    {
        match from {
            Some(at) => self.first_from(store, &at),
            None => Ok(None),
        }
    }

    // The element at the key of one that was found earlier, if its payload is still that extent,
    // and lies in the choice.
    pub(crate) fn still<T: ElementStore>(
        &self,
        store: &mut T,
        known: &Element,
    ) -> Result<Option<Element>, Fault>
        ensures ok { IfSome (T.elements store.old) (λ es.
            IfOk result (StandsStill self.now es known.now)) }
        ensures found { IfOk result (λ found. IfSome found (IsStill self.now known.now)) }
        ensures keeps { IsSame T.HasElements store.old store.new }
        ensures name { T.name store.new ≡ T.name store.old }
        ensures frame { T.frame store.new ≡ T.frame store.old }
        ensures cause { HasElementsCause T.HasElements store.old store.new result }
    {
        let Some(element) = store.first_at_or_after(&known.base)? else {
            return Ok(None);
        };
        if self.is_still(&element, known) {
            return Ok(Some(element));
        }
        Ok(None)
    }

    // Whether an element has the key of one that was found earlier, and its payload is still that
    // extent, and lies in the choice.
    fn is_still(&self, element: &Element, known: &Element) -> bool
        ensures { IsTrue result ↔ IsStill self.now known.now element.now }
    {
        element.base.order(&known.base).is_eq()
            && element.payload == known.payload
            && self.has(element)
    }

    // Goes through elements from a key on, and notes those whose payload lies in the choice.
    // Answers from where on a walk goes on, and None where it is at its end.
    pub(crate) fn collect<T: ElementStore>(
        &self,
        store: &mut T,
        from: &Base,
        known: &mut Vec<Element>,
    ) -> Result<Option<Base>, Fault>
        ensures further { IfOk result (λ next. IfSome next (λ b.
            IsBefore (key_of from.now) (key_of b))) }
        ensures all { IfSome (T.elements store.old) (λ es. IfOk result (λ next.
            AllNoted self.now es (key_of from.now) next known.new.items)) }
        ensures noted { IsFront known.old.items known.new.items }
        ensures keeps { IsSame T.HasElements store.old store.new }
        ensures name { T.name store.new ≡ T.name store.old }
        ensures frame { T.frame store.new ≡ T.frame store.old }
        ensures cause { HasElementsCause T.HasElements store.old store.new result }
    {
        let mut next = self.note(store, from, known)?;
        for _ in 1..MOST_LOOKS {
            let Some(at) = next else {
                return Ok(None);
            };
            next = self.note(store, &at, known)?;
        }
        Ok(next)
    }

    // Looks at the first element from a key on, and notes it if its payload lies in the choice.
    // Answers the key after it.
    fn note<T: ElementStore>(
        &self,
        store: &mut T,
        at: &Base,
        known: &mut Vec<Element>,
    ) -> Result<Option<Base>, Fault>
        ensures further { IfOk result (λ next. IfSome next (λ b.
            IsBefore (key_of at.now) (key_of b))) }
        ensures all { IfSome (T.elements store.old) (λ es. IfOk result (λ next.
            AllNoted self.now es (key_of at.now) next known.new.items)) }
        ensures noted { IsFront known.old.items known.new.items }
        ensures keeps { IsSame T.HasElements store.old store.new }
        ensures name { T.name store.new ≡ T.name store.old }
        ensures frame { T.frame store.new ≡ T.frame store.old }
        ensures cause { HasElementsCause T.HasElements store.old store.new result }
    {
        let Some(element) = store.first_at_or_after(at)? else {
            return Ok(None);
        };
        self.keep(&element, known)?;
        Ok(element.base.key_after())
    }

    // Notes an element if its payload lies in the choice.
    fn keep(&self, element: &Element, known: &mut Vec<Element>) -> Result<(), Fault>
        ensures ok { OnOk result (IsInChoice self.now element.now →
            Contains known.new.items element.now) }
        ensures noted { IsFront known.old.items known.new.items }
        ensures memory { IfErr result (λ fault. fault ≡ no_memory) }
    {
        if self.has(element) {
            known.push(*element)?;
        }
        Ok(())
    }
}
