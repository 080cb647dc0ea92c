// Runs over disks without a volume that can be opened.

use super::*;

// Whether a run over zeros of so many big-blocks tells that there is no volume, or no room for one.
fn has_none<R: AllocGlobal + Threads + Wait + Sync>(
    rt: &R,
    words: &[&str],
    bigblocks: u32,
    printed: &str,
) -> Result<bool, AllocError> {
    let disk = MemDisk::new(rt.alloc(), bigblocks, Vec::new(rt.alloc()));
    let (is_so, _) = ends(rt, words, disk, "mkdir /a\n", 3, printed)?;
    Ok(is_so)
}

#[test]
fn tells_a_disk_without_a_volume(rt: HostRuntime) -> Result<(), Fail> {
    assert!(rt; has_none(&rt, &["v"], 24, "not a volume\n")?);
    assert!(rt; has_none(&rt, &["v"], 0, "not a volume\n")?);
    assert!(rt; has_none(&rt, &MAKES, 23, "bad header field 12\n")?);
    assert!(rt; has_none(&rt, &MAKES, 0, "bad header field 12\n")?);
    Ok(())
}
