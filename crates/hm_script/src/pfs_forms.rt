// The forms of housekeeping and mirroring, each by its words after the name.
ghost use Rattle.std.specs.Prelude.{[], ◌∷◌, codes, IfOk};
ghost use Rattle.hm_script.specs.Commands.{FindsCommand};

use crate::number::{read_hex_number, read_id_word, read_number_between};
use crate::words::copy_of;
use hm_model::Command;
use hm_types::NoMemory;
use std::alloc::Global;

/// The greatest FILL, in percent, and the one of a line that gives none. The least is 1.
pub(crate) const WHOLE_FILL: u8 = 100;

/// How many hexadecimal digits a shared id has.
const SHARED_DIGITS: usize = 16;

pub(crate) fn reblock(fill: &[u8]) -> Option<Command>
    ensures { FindsCommand (codes "reblock" ∷ fill.now ∷ []) result }
{
    let fill = read_number_between(fill, 1, u64::from(WHOLE_FILL))?;
    Some(Command::Reblock { fill: fill as u8 })
}

pub(crate) fn pfs_master(
    alloc: Global,
    path: &[u8],
    shared: &[u8],
) -> Result<Option<Command>, NoMemory>
    ensures { IfOk result (FindsCommand (codes "pfs-master" ∷ path.now ∷ shared.now ∷ [])) }
{
    let Some(shared) = read_hex_number(shared, SHARED_DIGITS) else {
        return Ok(None);
    };
    let path = copy_of(alloc, path)?;
    Ok(Some(Command::PfsMaster { path, shared }))
}

pub(crate) fn pfs_slave(
    alloc: Global,
    path: &[u8],
    shared: &[u8],
) -> Result<Option<Command>, NoMemory>
    ensures { IfOk result (FindsCommand (codes "pfs-slave" ∷ path.now ∷ shared.now ∷ [])) }
{
    let Some(shared) = read_hex_number(shared, SHARED_DIGITS) else {
        return Ok(None);
    };
    let path = copy_of(alloc, path)?;
    Ok(Some(Command::PfsSlave { path, shared }))
}

pub(crate) fn mirror_read(
    alloc: Global,
    path: &[u8],
    begin: &[u8],
) -> Result<Option<Command>, NoMemory>
    ensures { IfOk result (FindsCommand (codes "mirror-read" ∷ path.now ∷ begin.now ∷ [])) }
{
    let Some(begin) = read_id_word(begin) else {
        return Ok(None);
    };
    let path = copy_of(alloc, path)?;
    Ok(Some(Command::MirrorRead { path, begin }))
}

pub(crate) fn mirror_copy(
    alloc: Global,
    master: &[u8],
    slave: &[u8],
) -> Result<Option<Command>, NoMemory>
    ensures { IfOk result (FindsCommand (codes "mirror-copy" ∷ master.now ∷ slave.now ∷ [])) }
{
    Ok(Some(Command::MirrorCopy {
        master: copy_of(alloc, master)?,
        slave: copy_of(alloc, slave)?,
        limit: None,
    }))
}

pub(crate) fn limited_mirror_copy(
    alloc: Global,
    master: &[u8],
    slave: &[u8],
    limit: &[u8],
) -> Result<Option<Command>, NoMemory>
    ensures { IfOk result
        (FindsCommand (codes "mirror-copy" ∷ master.now ∷ slave.now ∷ limit.now ∷ [])) }
{
    let Some(limit) = read_number_between(limit, 1, u64::from(u32::MAX)) else {
        return Ok(None);
    };
    Ok(Some(Command::MirrorCopy {
        master: copy_of(alloc, master)?,
        slave: copy_of(alloc, slave)?,
        limit: Some(limit as u32),
    }))
}
