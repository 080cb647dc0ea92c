// Prunes, each with its ending in its own line, and lines on pseudo file systems.

use super::*;

const SNAPSHOTS: &str = "touch /f\n\
write /f 0 31\n\
mkdir /s\n\
snapshot /s/one\n\
write /f 0 32\n\
write /f 0 33\n\
snapshot /s/two\n\
write /f 0 34\n\
prune /s\n\
cat /@@0x0000000000000004/f 0 1\n\
cat /@@0x0000000000000006/f 0 1\n\
cat /@@0x0000000000000007/f 0 1\n\
cat /f 0 1\n\
prune /\n\
pfs-status /\n\
readlink /s/one\n";

const SNAPSHOTS_REPLIES: &str = "0x0000000000000002 ok\n\
0x0000000000000003 ok\n\
0x0000000000000004 ok\n\
0x0000000000000005 ok\n\
0x0000000000000006 ok\n\
0x0000000000000007 ok\n\
0x0000000000000008 ok\n\
0x0000000000000009 ok\n\
0x000000000000000a ok 0x000000000000000b done\n\
0x000000000000000c ok 1 31\n\
0x000000000000000d not retained\n\
0x000000000000000e ok 1 33\n\
0x000000000000000f ok 1 34\n\
0x0000000000000010 no snapshots\n\
0x0000000000000011 ok master 00000 0000000000000000 2\n\
0x0000000000000012 ok @@0x0000000000000004\n";

const PRESENT: &str = "touch /f\n\
write /f 0 31\n\
write /f 0 32\n\
prune-everything /\n\
cat /@@0x0000000000000003/f 0 1\n\
cat /@@0x0000000000000005/f 0 1\n\
prune-everything /x\n";

const PRESENT_REPLIES: &str = "0x0000000000000002 ok\n\
0x0000000000000003 ok\n\
0x0000000000000004 ok\n\
0x0000000000000005 ok 0x0000000000000006 done\n\
0x0000000000000007 not retained\n\
0x0000000000000008 ok 1 32\n\
0x0000000000000009 not found\n";

const SYSTEMS: &str = "pfs-master /m 00000000000000aa\n\
pfs-slave /n 00000000000000bb\n\
pfs-status /m\n\
pfs-status /n\n\
touch /m/a\n\
prune-everything /m\n\
pfs-master /m 00000000000000cc\n";

const SYSTEMS_REPLIES: &str = "0x0000000000000002 ok 00001\n\
0x0000000000000003 ok 00002\n\
0x0000000000000004 ok master 00001 00000000000000aa 1\n\
0x0000000000000005 ok slave 00002 00000000000000bb 0 0x0000000000000000\n\
0x0000000000000006 ok\n\
0x0000000000000007 ok 0x0000000000000008 done\n\
0x0000000000000009 exists\n";

const LATER: &str = "ls /m\n\
pfs-status /m\n";

const LATER_REPLIES: &str = "0x000000000000000a ok 1 f:a\n\
0x000000000000000b ok master 00001 00000000000000aa 1\n";

#[test]
fn a_prune_ends_in_its_own_line(rt: HostRuntime) -> Result<(), Fail> {
    let (kept, _) = ends(&rt, &MAKES, blank(&rt), SNAPSHOTS, 0, SNAPSHOTS_REPLIES)?;
    assert!(rt; kept);
    let (present, _) = ends(&rt, &MAKES, blank(&rt), PRESENT, 0, PRESENT_REPLIES)?;
    assert!(rt; present);
    Ok(())
}

#[test]
fn pseudo_file_systems_are_there_in_a_later_run(rt: HostRuntime) -> Result<(), Fail> {
    let (made, disk) = ends(&rt, &MAKES, blank(&rt), SYSTEMS, 0, SYSTEMS_REPLIES)?;
    assert!(rt; made);
    let (found, _) = ends(&rt, &["v"], disk, LATER, 0, LATER_REPLIES)?;
    assert!(rt; found);
    Ok(())
}
