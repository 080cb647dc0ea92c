// Many files on one volume, made over many flushes.
use crate::asks::Ask;
use crate::volume::{answered, finished, made, mounted, tried};
use hm_model::Reply;
use hm_types::Id;
use std::test::Fail;

#[test]
fn a_hundred_thousand_files_are_made_over_many_flushes(rt: HostRuntime) -> Result<(), Fail> {
    let alloc = rt.alloc();
    let mut core = mounted(&rt, alloc, made(&rt, alloc));
    let mut next: u64 = 2;
    let mut stages: u32 = 0;
    for file in 0..100_000 {
        let Some((id, waited)) = answered(&rt, alloc, &mut core, Ask::Touch(file), &Reply::Done)?
        else {
            panic!(rt; "{file}");
        };
        assert_eq!(rt; id, next, "{file}");
        next = next.saturating_add(1);
        stages = stages.saturating_add(waited);
    }
    // Calls waited for stages, so that most files are committed before the last flush.
    assert!(rt; stages > 1_024 && core.boundary() > Id(50_000), "{stages}");
    let (disk, ids) = tried(&rt, alloc, finished(&rt, core));
    assert_eq!(rt; ids, Ok((Id(100_001), Id(100_001))));
    let mut core = mounted(&rt, alloc, disk);
    for (file, want) in [
        (0, Reply::Exists),
        (99_999, Reply::Exists),
        (100_000, Reply::Done),
    ] {
        assert!(rt;
            answered(&rt, alloc, &mut core, Ask::Touch(file), &want)?.is_some(),
            "{file}"
        );
    }
    Ok(())
}
