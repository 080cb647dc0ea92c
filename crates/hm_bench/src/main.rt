//! Counts what calls of the tree cost: how many nodes they read and write, and how full the leaves are.
//!
//! `hm_bench OPERATION ORDER ELEMENTS` makes a tree of so many elements in memory, with keys in the
//! order `random` or `rising`. `insert` counts the calls that make it, `lookup` one search for each
//! element, `last` one for the last element up to each, and `remove` the removal of all but one in a
//! hundred. It prints counts alone, so that a run prints the same every time; how long it takes is for
//! another program to tell.
#![tactic(auto)]

mod order;
mod shape;
mod tally;
mod work;

use order::Order;
use std::process::ExitCode;
use std::{env, io};
use work::{Operation, Outcome, count};

const USAGE: &str = "usage: hm_bench insert|lookup|last|remove random|rising ELEMENTS";

// What to do, and with how many elements.
#[derive(Clone, Copy)]
struct Job {
    operation: Operation,
    order: Order,
    elements: u32,
}

// What three words ask for.
fn asked(operation: &str, order: &str, elements: &str) -> Option<Job> {
    Some(Job {
        operation: Operation::of(operation)?,
        order: Order::of(order)?,
        elements: elements.parse().ok()?,
    })
}

fn main(rt: HostRuntime) -> io::Result<ExitCode> {
    let mut words = env::args(&rt)?.skip(1);
    let (Some(operation), Some(order), Some(elements)) = (words.next(), words.next(), words.next())
    else {
        eprintln!(&rt; "{USAGE}")?;
        return Ok(ExitCode::from(2));
    };
    let Some(job) = asked(operation.as_str(), order.as_str(), elements.as_str()) else {
        eprintln!(&rt; "{USAGE}")?;
        return Ok(ExitCode::from(2));
    };
    match count(rt.alloc(), job.operation, job.order, job.elements) {
        Ok(outcome) => {
            print(&rt, &outcome)?;
            Ok(ExitCode::SUCCESS)
        }
        Err(_) => {
            eprintln!(&rt; "hm_bench: a call of the tree failed")?;
            Ok(ExitCode::from(1))
        }
    }
}

// Prints the counts of a job.
fn print(rt: &HostRuntime, outcome: &Outcome) -> io::Result<()> {
    let shape = &outcome.shape;
    let calls = outcome.reads.calls();
    println!(rt; "calls {calls}")?;
    println!(rt;
        "read a call {}, at most {}",
        outcome.reads.mean(),
        outcome.reads.most()
    )?;
    println!(rt;
        "written a call {}, at most {}",
        outcome.writes.mean(),
        outcome.writes.most()
    )?;
    println!(rt;
        "levels {}, nodes {}, leaves {}",
        shape.levels, shape.nodes, shape.leaves
    )?;
    println!(rt; "elements {}, in a leaf {}", shape.elements, shape.fill())?;
    Ok(())
}
