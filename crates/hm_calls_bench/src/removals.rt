// Removals of dead elements from a tree: by a prune, and one by one.
ghost use Rattle.std.specs.Prelude.{◌≡◌};
ghost use Rattle.hm_key.specs.Element.{IsElement};

use crate::costs::{Costs, Measured};
use crate::table_store::TableStore;
use crate::work::Outcome;
use hm_key::{Base, ELEMENT, Element, ElementStore, Extents, Job, OTHER_PART, Progress, SNAPSHOT};
use hm_prune::Prune;
use hm_retain::Retention;
use hm_types::{Fault, HOff, INSERT_ROOM, Id, Obj, Pfs};
use std::alloc::Global;

/// How the dead elements of a store go, each second one of it.
#[derive(Clone, Copy, Debug, PartialEq, Eq)]
pub enum Removal {
    /// They stay.
    Nothing,
    /// Each is removed by a call of its own, in the order of the keys.
    EachAlone,
    /// A prune removes them.
    Prune,
}

impl Removal {
    /// The removal with this name.
    pub fn of(name: &str) -> Option<Removal> {
        match name {
            "make" => Some(Removal::Nothing),
            "remove" => Some(Removal::EachAlone),
            "prune" => Some(Removal::Prune),
            _ => None,
        }
    }
}

// The element that comes after so many: each second one is dead for a retention from id 3 on.
fn element(before: u32) -> Element
    ensures { IsElement result }
{
    Element {
        base: Base {
            obj: Obj(1),
            key: u64::from(before),
            create: 1,
            delete: if before % 2 == 1 { 2 } else { 0 },
            rec_type: SNAPSHOT,
            obj_type: 1,
            btype: ELEMENT,
            localization: OTHER_PART,
        },
        payload: HOff::default(),
        len: 8,
    }
}

/// Fills a store with so many elements, and removes the dead ones. What is counted is the removals.
pub fn remove_dead(alloc: Global, removal: Removal, elements: u32) -> Result<Outcome, Fault> {
    let mut store = TableStore::new(alloc)?;
    for before in 0..elements {
        if store.node_room() < u64::from(INSERT_ROOM) {
            return Err(Fault::NoMemory);
        }
        store.insert(&element(before))?;
    }
    let costs = store.costs();
    match removal {
        Removal::Nothing => {}
        Removal::EachAlone => remove_each(&mut store, elements)?,
        Removal::Prune => prune(alloc, &mut store, elements)?,
    }
    Ok(Outcome {
        calls: elements / 2,
        refused: 0,
        costs: store.costs().since(&costs),
    })
}

// Removes each dead one of so many elements by a call of its own.
fn remove_each(store: &mut TableStore, elements: u32) -> Result<(), Fault> {
    for before in 0..elements {
        let element = element(before);
        if element.base.delete != 0 {
            store.remove(&element.base)?;
            store.give_back(element.payload, element.len)?;
        }
    }
    Ok(())
}

// Prunes a store with so many elements. A unit that answers More removed one, or came further.
fn prune(alloc: Global, store: &mut TableStore, elements: u32) -> Result<(), Fault> {
    let mut list = Vec::new(alloc);
    list.push((Id(3), Id(u64::MAX)))?;
    let Some(kept) = Retention::of(list) else {
        return Err(Fault::NoMemory);
    };
    let mut prune = Prune::new(Pfs(0), kept);
    for _ in 0..u64::from(elements) + 2 {
        if prune.unit(store)? == Progress::Done {
            return Ok(());
        }
    }
    Err(Fault::NoMemory)
}
