// The calls that are timed.

use crate::store::Store;
use hm_freemap::Freemap;
use hm_types::{BIGBLOCK_BYTES, Fault, MOST_BIGBLOCKS, SpaceFault, TREE_ZONE, Zones};

/// Which call is done.
#[derive(Clone, Copy, Debug, PartialEq, Eq)]
pub enum Call {
    /// The free big-blocks are counted.
    Count,
    /// Zone 8, which is full, begins a big-block, and fills it.
    Renew,
    /// More is asked for than is free.
    Refuse,
}

impl Call {
    /// The call with a name.
    pub fn named(word: &str) -> Option<Call> {
        match word {
            "count" => Some(Call::Count),
            "renew" => Some(Call::Renew),
            "refuse" => Some(Call::Refuse),
            _ => None,
        }
    }
}

/// Does a call so many times. It answers how many free big-blocks the last one told, and 0 where it
/// tells none.
pub fn repeat(freemap: &mut Freemap<Store>, call: Call, times: u32) -> Result<u32, Fault> {
    let mut found = 0;
    for _ in 0..times {
        found = match call {
            Call::Count => freemap.free_blocks()?,
            Call::Renew => renew(freemap)?,
            Call::Refuse => refuse(freemap)?,
        };
    }
    Ok(found)
}

// One big-block more of zone 8, filled at once.
fn renew(freemap: &mut Freemap<Store>) -> Result<u32, Fault> {
    let found = told(freemap.admit(Zones::TREE, 0))?;
    freemap.take_extent(TREE_ZONE, BIGBLOCK_BYTES as u32)?;
    Ok(found)
}

// As many held back as a volume may have.
fn refuse(freemap: &mut Freemap<Store>) -> Result<u32, Fault> {
    told(freemap.admit(Zones::TREE, MOST_BIGBLOCKS))
}

// How many free big-blocks an answer tells.
fn told(answer: Result<(), SpaceFault>) -> Result<u32, Fault> {
    match answer {
        Ok(()) => Ok(0),
        Err(SpaceFault::NoSpace { free, .. }) => Ok(free),
        Err(SpaceFault::Fault(fault)) => Err(fault),
    }
}
