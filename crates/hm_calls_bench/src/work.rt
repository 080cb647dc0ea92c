// The calls of a job, and what they cost.
ghost use Rattle.std.specs.Prelude.{OnOk};
ghost use Rattle.hm_calls_tests.specs.Tests.{IsMade, IsReady};

use crate::costs::{Costs, Measured};
use crate::operation::Operation;
use crate::volume::Volume;
use hm_key::{ElementStore, Extents, HasElements, HasRoom};
use hm_types::Fault;
use std::alloc::Global;

/// How many calls there were, how many of them were refused, and what they cost.
#[derive(Clone, Copy, Debug)]
pub struct Outcome {
    pub calls: u32,
    pub refused: u64,
    pub costs: Costs,
}

/// Makes the calls of an operation, after those that come before them, over an empty store.
pub fn measure<T: ElementStore + Extents + Measured + Drop>(
    alloc: Global,
    store: T,
    operation: Operation,
    names: u32,
) -> Result<Outcome, Fault>
    requires { IsMade (T.elements store) (T.extents store) 1 }
{
    let mut volume = Volume::fresh(alloc, store)?;
    if let Some(before) = operation.before() {
        make_calls(alloc, &mut volume, before, names)?;
    }
    let costs = volume.store.costs();
    let refused = make_calls(alloc, &mut volume, operation, names)?;
    Ok(Outcome {
        calls: operation.calls(names),
        refused,
        costs: volume.store.costs().since(&costs),
    })
}

// Makes all calls of an operation, and tells how many were refused.
fn make_calls<T: ElementStore + Extents + Drop>(
    alloc: Global,
    volume: &mut Volume<T>,
    operation: Operation,
    names: u32,
) -> Result<u64, Fault>
    requires { IsReady (T.elements volume.old.store) (T.extents volume.old.store)
        volume.old.next }
    ensures { OnOk result (IsReady (T.elements volume.new.store) (T.extents volume.new.store)
        volume.new.next) }
{
    let mut refused: u64 = 0;
    for before in 0..operation.calls(names) {
        let command = operation.command(alloc, before, names)?;
        if !volume.ask(alloc, &command)? {
            refused = refused.saturating_add(1);
        }
    }
    Ok(refused)
}
