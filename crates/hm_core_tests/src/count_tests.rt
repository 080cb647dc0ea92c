// Units of a job that is handed in, between calls and the stages of flushes.
use crate::asks::Ask;
use crate::count::{Count, counted};
use crate::elements::elements_on;
use crate::volume::{Volume, answers, do_all, finished, made, mounted};
use hm_key::Progress;
use hm_model::Reply;
use hm_types::NoMemory;
use std::alloc::Global;
use std::process::Abort;
use std::test::Fail;

// Some of their elements are closed.
const MADE: [Ask; 7] = [
    Ask::Touch(0),
    Ask::Fill(0, 1),
    Ask::Mkdir(1),
    Ask::Touch(2),
    Ask::Write(2),
    Ask::Fill(0, 2),
    Ask::Rm(2),
];

// No volume of these tests has more elements.
const MOST_UNITS: u32 = 256;

// How many elements a count finds. After each unit a call is refused, by the next id, and a stage of a flush is made.
fn count_of(rt: &impl Abort, alloc: Global, core: &mut Volume) -> Result<u64, NoMemory> {
    let mut count = Count::new();
    for _ in 0..MOST_UNITS {
        if counted(rt, core, &mut count) == Progress::Done {
            return Ok(count.found);
        }
        assert!(rt; answers(rt, alloc, core, Ask::Touch(0), &Reply::Exists)?);
        assert!(rt; core.end_stage().is_ok());
    }
    panic!(rt; "the count does not end")
}

#[test]
fn a_count_that_is_handed_in_finds_each_element(rt: HostRuntime) -> Result<(), Fail> {
    let alloc = rt.alloc();
    let mut core = mounted(&rt, alloc, made(&rt, alloc));
    do_all(&rt, alloc, &mut core, &MADE)?;
    let first = count_of(&rt, alloc, &mut core)?;
    do_all(&rt, alloc, &mut core, &[Ask::Touch(3)])?;
    // The inode and the entry of the file.
    assert_eq!(rt; count_of(&rt, alloc, &mut core)?, first.saturating_add(2));
    let mut disk = finished(&rt, core);
    let elements = elements_on(&rt, alloc, &mut disk)?;
    assert_eq!(rt; elements.len() as u64, first.saturating_add(2));
    Ok(())
}
