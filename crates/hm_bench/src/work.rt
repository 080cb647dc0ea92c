// The calls of a job, and what they cost.
ghost use Rattle.hm_key.specs.Element.{IsElement};

use crate::order::Order;
use crate::shape::Shape;
use crate::tally::Tally;
use hm_btree::{BTree, NodeTable};
use hm_key::{Element, ElementStore};
use hm_types::{Fault, INSERT_ROOM};
use std::alloc::Global;

/// Which calls are counted.
#[derive(Clone, Copy, Debug, PartialEq, Eq)]
pub enum Operation {
    Insert,
    Lookup,
    Last,
    Remove,
}

impl Operation {
    /// The operation with this name.
    pub fn of(name: &str) -> Option<Operation> {
        match name {
            "insert" => Some(Operation::Insert),
            "lookup" => Some(Operation::Lookup),
            "last" => Some(Operation::Last),
            "remove" => Some(Operation::Remove),
            _ => None,
        }
    }
}

/// What the calls of a job cost, and the shape of the tree afterwards.
#[derive(Clone, Copy, Debug)]
pub struct Outcome {
    pub reads: Tally,
    pub writes: Tally,
    pub shape: Shape,
}

// A tree whose calls are counted.
#[derive(Drop)]
struct Counted {
    tree: BTree<NodeTable>,
    reads: Tally,
    writes: Tally,
}

impl Counted {
    // Does a call, and counts it.
    fn call(&mut self, operation: Operation, element: &Element) -> Result<(), Fault>
        requires { IsElement element.now }
    {
        let reads = self.tree.space().reads();
        let writes = self.tree.space().writes();
        match operation {
            Operation::Insert => {
                if self.tree.space().room() < u64::from(INSERT_ROOM) {
                    return Err(Fault::NoMemory);
                }
                self.tree.insert(element)?;
            }
            Operation::Lookup => {
                self.tree.first_at_or_after(&element.base)?;
            }
            Operation::Last => {
                self.tree.last_at_or_before(&element.base)?;
            }
            Operation::Remove => self.tree.remove(&element.base)?,
        }
        self.reads
            .add(self.tree.space().reads().saturating_sub(reads));
        self.writes
            .add(self.tree.space().writes().saturating_sub(writes));
        Ok(())
    }

    // Counts from here on.
    fn forget(&mut self) {
        self.reads = Tally::default();
        self.writes = Tally::default();
    }
}

/// Makes a tree of so many elements, and counts the calls of an operation.
pub fn count(
    alloc: Global,
    operation: Operation,
    order: Order,
    elements: u32,
) -> Result<Outcome, Fault> {
    let tree = match BTree::empty(NodeTable::new(alloc)) {
        Ok(tree) => tree,
        Err(_) => return Err(Fault::NoMemory),
    };
    let mut counted = Counted {
        tree,
        reads: Tally::default(),
        writes: Tally::default(),
    };
    for i in 0..elements {
        counted.call(Operation::Insert, &order.element(i))?;
    }
    let calls = match operation {
        Operation::Insert => 0,
        Operation::Lookup | Operation::Last => elements,
        Operation::Remove => elements - elements / 100,
    };
    if operation != Operation::Insert {
        counted.forget();
    }
    for i in 0..calls {
        counted.call(operation, &order.element(i))?;
    }
    let Counted {
        tree,
        reads,
        writes,
    } = counted;
    let (mut space, root) = tree.into_parts();
    Ok(Outcome {
        reads,
        writes,
        shape: Shape::of(&mut space, root)?,
    })
}
