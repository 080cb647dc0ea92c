//! Makes calls on names over a store in memory, so that another program can tell how long they take.
//!
//! `hm_calls_bench STORE OPERATION NAMES` makes the calls of one operation over the store `memory`, a
//! plain list of elements, or `tree`, the B-tree over a table of nodes. `hm_calls_bench dead REMOVAL
//! ELEMENTS` fills such a tree with elements, and removes each second one. It prints how many calls
//! there were and how many of them were refused, and of a tree what a call read and wrote. It prints
//! counts alone, so that a run prints the same every time.
#![tactic(auto)]

mod costs;
mod operation;
mod removals;
mod table_store;
mod volume;
mod work;

use costs::Costs;
use hm_key::MemStore;
use hm_types::Fault;
use operation::Operation;
use removals::{Removal, remove_dead};
use std::alloc::Global;
use std::process::ExitCode;
use std::{env, io};
use table_store::TableStore;
use work::{Outcome, measure};

const USAGE: &str = "usage: hm_calls_bench memory|tree touch|mkdir|relink|stat|ls|now|past NAMES
       hm_calls_bench dead make|remove|prune ELEMENTS";

// How many big-blocks are free in a store in memory: more than the payloads of any run take.
const FREE: u32 = 1_000_000;

// What to do, over a list or over a tree, and with how many names or elements.
#[derive(Clone, Copy)]
enum Job {
    InMemory(Operation, u32),
    InTree(Operation, u32),
    Removals(Removal, u32),
}

// What three words ask for.
fn asked(store: &str, operation: &str, names: &str) -> Option<Job> {
    let many = names.parse().ok()?;
    match store {
        "memory" => Some(Job::InMemory(Operation::of(operation)?, many)),
        "tree" => Some(Job::InTree(Operation::of(operation)?, many)),
        "dead" => Some(Job::Removals(Removal::of(operation)?, many)),
        _ => None,
    }
}

// Makes the calls of a job.
fn run(alloc: Global, job: Job) -> Result<Outcome, Fault> {
    match job {
        Job::InMemory(operation, names) => {
            measure(alloc, MemStore::new(alloc, FREE), operation, names)
        }
        Job::InTree(operation, names) => measure(alloc, TableStore::new(alloc)?, operation, names),
        Job::Removals(removal, elements) => remove_dead(alloc, removal, elements),
    }
}

fn main(rt: HostRuntime) -> io::Result<ExitCode> {
    let mut words = env::args(&rt)?.skip(1);
    let (Some(store), Some(operation), Some(names)) = (words.next(), words.next(), words.next())
    else {
        eprintln!(&rt; "{USAGE}")?;
        return Ok(ExitCode::from(2));
    };
    let Some(job) = asked(store.as_str(), operation.as_str(), names.as_str()) else {
        eprintln!(&rt; "{USAGE}")?;
        return Ok(ExitCode::from(2));
    };
    match run(rt.alloc(), job) {
        Ok(outcome) => {
            println!(rt; "calls {}, refused {}", outcome.calls, outcome.refused)?;
            if !matches!(job, Job::InMemory(_, _)) {
                print(&rt, &outcome.costs, outcome.calls)?;
            }
            Ok(ExitCode::SUCCESS)
        }
        Err(_) => {
            eprintln!(&rt; "hm_calls_bench: a call of the store failed")?;
            Ok(ExitCode::from(1))
        }
    }
}

// Prints what so many calls cost, on average.
fn print(rt: &HostRuntime, costs: &Costs, calls: u32) -> io::Result<()> {
    println!(rt;
        "nodes read a call {}, written {}",
        costs.nodes_read.over(calls),
        costs.nodes_written.over(calls)
    )?;
    println!(rt; "payloads read a call {}", costs.payloads_read.over(calls))?;
    Ok(())
}
