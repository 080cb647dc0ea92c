// A file under steps drawn at random, beside plain bytes.
ghost use Rattle.std.specs.Prelude.{IfOk};
ghost use Rattle.hm_key.specs.Balance.{Balanced};

use crate::cut_tests::{Step, take};
use crate::read_tests::{FILE, PFS, PIECES, store_of};
use hm_files::read_bytes;
use hm_key::{HasElements, HasRoom, MemStore};
use hm_types::{Id, MOST_FILE_BYTES};
use std::alloc::Global;
use std::test::Fail;

// The ids of the steps of a script: the first one, and the first one that is past them.
const FIRST: u64 = 20;

const PAST: u64 = 60;

// A modulus, below which numbers are drawn.
const MODULUS: u64 = 65_537;

fn next_number(number: u64) -> u64 {
    (number % MODULUS * 75 + 74) % MODULUS
}

// The step of a number, for a file of a size.
fn step_of(number: u64, size: u64) -> Step {
    let second = next_number(number);
    let third = next_number(second);
    if number % 4 == 0 {
        return Step::Resize(size, second);
    }
    Step::Write(
        size,
        second,
        (third % 40_000 + 1) as u32,
        (number % 256) as u8,
    )
}

// The bytes of a file after a step.
fn change(bytes: &mut Vec<u8>, step: Step) -> Result<(), Fail> {
    match step {
        Step::Resize(_, size) => {
            let size = size.min(MOST_FILE_BYTES) as usize;
            bytes.truncate(size);
            bytes.resize(size, 0)?;
        }
        Step::Write(_, at, count, byte) | Step::Fill(_, at, count, byte) => {
            let from = at.min(MOST_FILE_BYTES) as usize;
            let end = from + count as usize;
            if bytes.len() < end {
                bytes.resize(end, 0)?;
            }
            bytes[from..end].fill(byte);
        }
        Step::Remove => bytes.clear(),
    }
    Ok(())
}

// Whether the file has these bytes as of an id, and no more.
fn shows(alloc: Global, store: &mut MemStore, bytes: &[u8], as_of: u64) -> Result<bool, Fail>
    requires { Balanced (⟦<MemStore as HasElements>⟧.elements store.old)
        (⟦<MemStore as HasRoom>⟧.extents store.old) }
    ensures { IfOk result (λ _. Balanced (⟦<MemStore as HasElements>⟧.elements store.new)
        (⟦<MemStore as HasRoom>⟧.extents store.new)) }
{
    let mut buffer = Vec::from_elem(alloc, 0xEE, bytes.len())?;
    let size = bytes.len() as u64;
    let count = read_bytes(store, PFS, FILE, size, 0, Id(as_of), &mut buffer)?;
    Ok(count == bytes.len() && buffer[..count] == bytes[..])
}

// A script's file after its last step, and the bytes that it had after each, or the first id after
// which it showed others.
#[derive(Drop)]
struct Outcome {
    store: MemStore,
    past: Vec<Vec<u8>>,
    other: Option<u64>,
}

// What becomes of a file of twenty bytes, which hides more.
fn run(alloc: Global, seed: u64) -> Result<Outcome, Fail>
    ensures { IfOk result (λ outcome. Balanced (⟦<MemStore as HasElements>⟧.elements outcome.store)
        (⟦<MemStore as HasRoom>⟧.extents outcome.store)) }
{
    let mut store = store_of(alloc, &PIECES)?;
    let mut bytes = Vec::from_elem(alloc, b'c', 20)?;
    let mut past = Vec::new(alloc);
    let mut other = None;
    let mut number = seed;
    for id in FIRST..PAST {
        number = next_number(number);
        let step = step_of(number, bytes.len() as u64);
        take(alloc, &mut store, step, id)?;
        change(&mut bytes, step)?;
        let same = shows(alloc, &mut store, &bytes, id)?;
        if !same && other.is_none() {
            other = Some(id);
        }
        past.push(Vec::from_slice(alloc, &bytes)?)?;
    }
    Ok(Outcome { store, past, other })
}

// The first id as of which the file shows other bytes at the end than after the step of that id.
fn other_past(alloc: Global, outcome: Outcome) -> Result<Option<u64>, Fail>
    requires { Balanced (⟦<MemStore as HasElements>⟧.elements outcome.store)
        (⟦<MemStore as HasRoom>⟧.extents outcome.store) }
{
    let mut store = outcome.store;
    let mut id = FIRST;
    for bytes in &outcome.past {
        if !shows(alloc, &mut store, bytes, id)? {
            return Ok(Some(id));
        }
        id = id.saturating_add(1);
    }
    Ok(None)
}

#[test]
fn files_are_as_plain_bytes_at_every_id(rt: HostRuntime) -> Result<(), Fail> {
    for seed in [1, 7, 4_711] {
        let outcome = run(rt.alloc(), seed)?;
        assert_eq!(rt; outcome.past.len(), 40);
        assert_eq!(rt; outcome.other, None, "{seed}");
        assert_eq!(rt;
            other_past(rt.alloc(), outcome)?,
            None,
            "{seed}, at the end"
        );
    }
    Ok(())
}
