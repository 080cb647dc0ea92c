// Images of crashes, of which each is mounted, and what it recovers to compared with what it may be.
use crate::shown::Shown;
use crate::test_disk::TestDisk;
use crate::volume::{mounted, stopped};
use hm_disk_forms::Crash;
use hm_types::NoMemory;
use std::alloc::Global;
use std::process::Abort;

// Which of two volumes an image may recover to.
#[derive(Clone, Copy, Debug)]
struct Due {
    committed: bool,
    frozen: bool,
}

// What the volumes show that ran the calls up to the committed and up to the frozen boundary alone.
#[derive(Drop)]
pub struct Volumes {
    pub committed: Shown,
    pub frozen: Shown,
}

impl Volumes {
    // Mounts an image, and compares what it shows. Gives its disk, and which of the two it is.
    fn check(
        &self,
        rt: &impl Abort,
        alloc: Global,
        image: TestDisk,
        due: Due,
    ) -> Result<(TestDisk, Due), NoMemory> {
        let mut core = mounted(rt, alloc, image);
        let is_frozen = core.last() == self.frozen.last;
        assert!(rt; if is_frozen { due.frozen } else { due.committed });
        let shown = if is_frozen {
            &self.frozen
        } else {
            &self.committed
        };
        assert_eq!(rt; (core.last(), core.boundary()), (shown.last, shown.last));
        shown.is_of(rt, alloc, &mut core)?;
        let is = Due {
            committed: !is_frozen,
            frozen: is_frozen,
        };
        Ok((stopped(rt, core), is))
    }
}

// How much is put of a write that is torn.
const FRONTS: [usize; 4] = [1, 16, 2_048, 4_095];

// In how many ways a crash after so many changes of a disk is tried: it loses nothing, or it loses or tears one
// unsettled write.
fn ways(disk: &TestDisk, count: usize) -> usize {
    disk.unsettled(count).saturating_mul(2).saturating_add(1)
}

fn is_before_sync(disk: &TestDisk, count: usize) -> bool {
    disk.unsettled(count.saturating_add(1)) == 0
}

// What such a crash leaves.
fn image_of(
    alloc: Global,
    disk: &TestDisk,
    count: usize,
    way: usize,
) -> Result<TestDisk, NoMemory> {
    if way == 0 {
        return disk.crashed(alloc, count, Crash::Lost(&[]));
    }
    let write = (way - 1) / 2;
    if way % 2 == 1 {
        return disk.crashed(alloc, count, Crash::Lost(&[write]));
    }
    let front = FRONTS[write % 4];
    disk.crashed(alloc, count, Crash::Torn { write, front })
}

// Which of the changes of a disk from one to another a test takes, so that it has its time.
#[derive(Clone, Copy)]
pub enum Part {
    All,
    // Behind so many of them, so many.
    Some { after: usize, most: usize },
    // All behind so many.
    Rest(usize),
}

impl Part {
    fn of(self, changes: (usize, usize)) -> (usize, usize) {
        let (first, last) = changes;
        match self {
            Part::All => changes,
            Part::Some { after, most } => {
                let begin = first.saturating_add(after);
                (begin, begin.saturating_add(most).saturating_sub(1))
            }
            Part::Rest(after) => (first.saturating_add(after), last),
        }
    }
}

// How many images were mounted, and how many of them recovered: the disk was changed by it.
#[derive(Clone, Copy, Debug)]
pub struct Mounts {
    pub images: u32,
    pub recovered: u32,
}

// Mounts what a crash after so many changes of a disk may leave, and what crashes within the recoveries may.
fn mount_all(
    rt: &impl Abort,
    alloc: Global,
    volumes: &Volumes,
    disk: &TestDisk,
    count: usize,
    due: Due,
    mounts: &mut Mounts,
) -> Result<(), NoMemory> {
    for way in 0..ways(disk, count) {
        let image = image_of(alloc, disk, count, way)?;
        let first = image.changes();
        let (next, is) = volumes.check(rt, alloc, image, due)?;
        mounts.images = mounts.images.saturating_add(1);
        if first < next.changes() {
            mounts.recovered = mounts.recovered.saturating_add(1);
        }
        let twice = way == 0 && is_before_sync(disk, count);
        mount_within(rt, alloc, volumes, &next, first, is, twice)?;
    }
    Ok(())
}

// Mounts what crashes may leave after each number of changes of a disk in a part of those from one to another, within a
// flush that has ended after so many.
pub fn mount_between(
    rt: &impl Abort,
    alloc: Global,
    volumes: &Volumes,
    disk: &TestDisk,
    changes: (usize, usize),
    part: Part,
    end: usize,
) -> Result<Mounts, NoMemory> {
    let (first, last) = part.of(changes);
    let mut mounts = Mounts {
        images: 0,
        recovered: 0,
    };
    for count in first..=last {
        // Before its last two changes, the last stage was not begun.
        let due = Due {
            committed: count < end,
            frozen: end < count.saturating_add(2),
        };
        mount_all(rt, alloc, volumes, disk, count, due, &mut mounts)?;
    }
    Ok(mounts)
}

// Mounts what crashes within a recovery may leave: after each of its changes, as the disk reads. Twice over, it is so in
// all ways where a sync is next, and where the disk reads so of each recovery that follows.
fn mount_within(
    rt: &impl Abort,
    alloc: Global,
    volumes: &Volumes,
    disk: &TestDisk,
    first: usize,
    due: Due,
    twice: bool,
) -> Result<(), NoMemory> {
    for count in first..disk.changes() {
        let most = if twice && is_before_sync(disk, count) {
            ways(disk, count)
        } else {
            1
        };
        for way in 0..most {
            let image = image_of(alloc, disk, count, way)?;
            let first = image.changes();
            let (next, _) = volumes.check(rt, alloc, image, due)?;
            if twice && way == 0 {
                mount_again(rt, alloc, volumes, &next, first, due)?;
            }
        }
    }
    Ok(())
}

// Mounts what a crash within the recovery that follows may leave, at each of its changes, as the disk reads.
fn mount_again(
    rt: &impl Abort,
    alloc: Global,
    volumes: &Volumes,
    disk: &TestDisk,
    first: usize,
    due: Due,
) -> Result<(), NoMemory> {
    for count in first..disk.changes() {
        let image = image_of(alloc, disk, count, 0)?;
        volumes.check(rt, alloc, image, due)?;
    }
    Ok(())
}
