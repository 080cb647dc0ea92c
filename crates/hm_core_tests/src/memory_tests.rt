// Want of memory as a flush begins: all that there is is taken first.
use crate::asks::Ask;
use crate::volume::{STAGES_OF_FLUSH, answers, do_all, ended, made, mounted, stopped, tried};
use hm_core::Staged;
use hm_model::Reply;
use hm_types::{Fault, Id, NoMemory};
use std::alloc::Global;
use std::process::Abort;
use std::test::Fail;

// More pieces than any machine has.
const MOST_PIECES: usize = 200_000;

// The size that is tried once one was refused. Freed pieces of a few sizes are kept apart for the next request of just
// their size, so small ones are tried one after another.
fn smaller(size: usize) -> usize {
    if size > 2_048 {
        size / 2
    } else {
        size.saturating_sub(1)
    }
}

// Takes all memory, in ever smaller pieces, and touches none of it.
fn all_memory(rt: &impl Abort, alloc: Global) -> Result<Vec<Vec<u8>>, NoMemory> {
    let mut pieces = Vec::with_capacity(alloc, MOST_PIECES)?;
    let mut size: usize = 1 << 46;
    for _ in 0..MOST_PIECES {
        match Vec::with_capacity(alloc, size) {
            Ok(piece) => pieces.push(piece)?,
            Err(_) if size == 1 => return Ok(pieces),
            Err(_) => size = smaller(size),
        }
    }
    panic!(rt; "memory is not refused")
}

// Freeze is refused, as the end of a run and for a call, and changes nothing but that the call draws its id: the flush
// has all its stages still.
#[test]
fn a_freeze_for_which_memory_is_refused_is_made_later(rt: HostRuntime) -> Result<(), Fail> {
    let alloc = rt.alloc();
    let mut core = mounted(&rt, alloc, made(&rt, alloc));
    do_all(&rt, alloc, &mut core, &[Ask::Touch(0)])?;
    core.reserve(2)?;
    let command = Ask::Touch(1).command(alloc)?;
    let memory = all_memory(&rt, alloc)?;
    let is_refused = match core.flush_stage(3, 7, command) {
        Staged::Refused(place) => {
            let entry = core.entry(place);
            entry.id == Id(3) && entry.reply == Reply::NoMemory
        }
        Staged::More(_) | Staged::Spent => false,
    };
    let last = core.end_stage();
    drop(memory);
    assert!(rt; is_refused);
    assert_eq!(rt; last, Err(Fault::NoMemory));
    assert_eq!(rt; (core.last(), core.boundary()), (Id(3), Id(1)));
    assert!(rt; answers(&rt, alloc, &mut core, Ask::Cat(1), &Reply::NotFound)?);
    assert_eq!(rt; ended(&rt, &mut core), (STAGES_OF_FLUSH, 0));
    let (_, ids) = tried(&rt, alloc, stopped(&rt, core));
    assert_eq!(rt; ids, Ok((Id(4), Id(4))));
    Ok(())
}
