// What is done with a volume between the stages of its flushes, step by step, and what crashes within them leave.
use crate::crashes::{Mounts, Part, Volumes, mount_between};
use crate::run::Run;
use crate::shown::Shown;
use crate::volume::mounted;
use hm_types::NoMemory;
use std::alloc::Global;
use std::process::Abort;

// What is done between two stages.
#[derive(Clone, Copy)]
pub enum Between {
    // A line is answered so, whatever its id. It opens a prune or a reblock where it is the line of one.
    Line(&'static str, &'static str),
    // A unit is done of this one of the calls that are open, and there is more to do.
    More(usize),
    // Its last unit is.
    Ends(usize),
}

// The stages of a flush, counted from those of the first one on: how many there are before it, and up to which the log is
// settled, the header names it, the pages are placed, and the flush has ended.
#[derive(Clone, Copy)]
pub struct Flush {
    pub before: u32,
    pub logged: u32,
    pub armed: u32,
    pub placed: u32,
    pub end: u32,
}

// From the end of one stage of a flush to that of another.
#[derive(Clone, Copy)]
pub struct Stretch {
    pub flush: Flush,
    pub from: u32,
    pub to: u32,
}

pub fn go_on(
    rt: &impl Abort,
    alloc: Global,
    run: &mut Run,
    between: Between,
) -> Result<(), NoMemory> {
    match between {
        Between::Line(line, want) => run.asks(rt, alloc, line, want),
        Between::More(index) => {
            assert_eq!(rt; run.unit(rt, alloc, index)?, None);
            Ok(())
        }
        Between::Ends(index) => {
            let ending = run.unit(rt, alloc, index)?;
            assert!(rt; ending.is_some_and(|text| text.ends_with(b" done")));
            Ok(())
        }
    }
}

pub fn go_on_by(
    rt: &impl Abort,
    alloc: Global,
    run: &mut Run,
    steps: &[Between],
) -> Result<(), NoMemory> {
    for between in steps {
        go_on(rt, alloc, run, *between)?;
    }
    Ok(())
}

// Makes so many stages of flushes, and goes on after each of them by its steps.
pub fn make_stages(
    rt: &impl Abort,
    alloc: Global,
    run: &mut Run,
    between: &[&[Between]],
    stages: u32,
) -> Result<(), NoMemory> {
    for stage in 0..stages {
        run.stage(rt);
        if let Some(steps) = between.get(stage as usize) {
            go_on_by(rt, alloc, run, steps)?;
        }
    }
    Ok(())
}

// What a volume shows once its use was ended.
pub fn shown_of(rt: &impl Abort, alloc: Global, run: Run) -> Result<Shown, NoMemory> {
    let mut core = mounted(rt, alloc, run.finished(rt));
    Shown::of(rt, alloc, &mut core)
}

// Mounts what crashes may leave within a flush that a run has ended: in a part of it from where one run of the same steps
// has come to up to where another one has.
pub fn mount_runs(
    rt: &impl Abort,
    alloc: Global,
    volumes: &Volumes,
    ended: Run,
    first: Run,
    last: Run,
    part: Part,
) -> Result<Mounts, NoMemory> {
    assert_eq!(rt; ended.boundary(), volumes.frozen.last);
    let disk = ended.stopped(rt);
    let changes = (first.stopped(rt).changes(), last.stopped(rt).changes());
    mount_between(rt, alloc, volumes, &disk, changes, part, disk.changes())
}
