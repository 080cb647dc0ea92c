// What a volume shows, as of now and as of each id that it retains.
use crate::asks::Ask;
use crate::volume::{Volume, answers};
use hm_core::Step;
use hm_model::Reply;
use hm_types::{Id, NoMemory};
use std::alloc::Global;
use std::process::Abort;

// The files that are looked at, and the blocks of each.
const FILES: u32 = 7;

const BLOCKS: [(u32, u8); 9] = [
    (0, 0),
    (0, 1),
    (1, 0),
    (2, 0),
    (3, 0),
    (3, 1),
    (4, 0),
    (5, 0),
    (6, 0),
];

// Looks at a volume, each with its reply.
#[derive(Drop)]
pub struct Shown {
    // The last id of the volume before them.
    pub last: Id,
    looks: Vec<(Ask, Reply)>,
}

impl Shown {
    // What a volume shows. It must have so few ids that each fits a byte.
    pub fn of(rt: &impl Abort, alloc: Global, core: &mut Volume) -> Result<Shown, NoMemory> {
        let last = core.last();
        assert!(rt; last.0 < 256);
        let asks = asks_of(alloc, last.0 as u8)?;
        let mut looks = Vec::new(alloc);
        for ask in &asks {
            looks.push((*ask, told(rt, alloc, core, *ask)?))?;
        }
        Ok(Shown { last, looks })
    }

    // Another volume shows the same.
    pub fn is_of(&self, rt: &impl Abort, alloc: Global, core: &mut Volume) -> Result<(), NoMemory> {
        for (ask, want) in &self.looks {
            assert!(rt; answers(rt, alloc, core, *ask, want)?, "{ask:?}");
        }
        Ok(())
    }
}

// The names, and each block, as of each id up to the last; and what tells of the files as of now.
fn asks_of(alloc: Global, last: u8) -> Result<Vec<Ask>, NoMemory> {
    let mut asks = Vec::new(alloc);
    asks.push(Ask::Ls)?;
    for file in 0..FILES {
        asks.push(Ask::Stat(file))?;
    }
    for id in 1..=last {
        push_asks_at(&mut asks, id)?;
    }
    Ok(asks)
}

fn push_asks_at(asks: &mut Vec<Ask>, id: u8) -> Result<(), NoMemory> {
    asks.push(Ask::LsAt(id))?;
    for (file, block) in BLOCKS {
        asks.push(Ask::BlockAt(id, file, block))?;
    }
    Ok(())
}

// What a look is answered, without a flush.
fn told(rt: &impl Abort, alloc: Global, core: &mut Volume, ask: Ask) -> Result<Reply, NoMemory> {
    core.reserve(2)?;
    let since = core.last();
    match core.call(3, 7, since, ask.command(alloc)?) {
        Step::Answered(place) => copy_of(rt, &core.entry(place).reply),
        Step::Opened(..) | Step::MustFlush(_) | Step::Spent => panic!(rt; "not answered: {ask:?}"),
    }
}

fn copy_of(rt: &impl Abort, reply: &Reply) -> Result<Reply, NoMemory> {
    match reply {
        Reply::Listing { names } => Ok(Reply::Listing {
            names: names.clone()?,
        }),
        Reply::Content { bytes } => Ok(Reply::Content {
            bytes: bytes.clone()?,
        }),
        Reply::Status {
            kind,
            obj,
            size,
            links,
        } => Ok(Reply::Status {
            kind: *kind,
            obj: *obj,
            size: *size,
            links: *links,
        }),
        Reply::NotFound => Ok(Reply::NotFound),
        Reply::NotRetained => Ok(Reply::NotRetained),
        Reply::IsDir => Ok(Reply::IsDir),
        _ => panic!(rt; "{reply:?}"),
    }
}
