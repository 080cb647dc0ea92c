// Tables from the rules: what lists are retentions, what they keep, and what cuts and joins leave.
use hm_retain::{RetainFault, Retention};
use hm_types::{Id, MOST_INTERVALS};
use std::alloc::Global;
use std::test::Fail;

const OPEN: u64 = u64::MAX;

fn pairs_of(alloc: Global, numbers: &[(u64, u64)]) -> Result<Vec<(Id, Id)>, Fail> {
    let mut pairs = Vec::new(alloc);
    for &(first, last) in numbers {
        pairs.push((Id(first), Id(last)))?;
    }
    Ok(pairs)
}

fn ids_of(alloc: Global, numbers: &[u64]) -> Result<Vec<Id>, Fail> {
    let mut ids = Vec::new(alloc);
    for &number in numbers {
        ids.push(Id(number))?;
    }
    Ok(ids)
}

fn retention(alloc: Global, numbers: &[(u64, u64)]) -> Result<Retention, Fail> {
    Ok(Retention::of(pairs_of(alloc, numbers)?).ok_or("no retention")?)
}

// The ids 0, 2, 4 and so on, as many as `count`.
fn even_ids(alloc: Global, count: u32) -> Result<Vec<Id>, Fail> {
    let mut ids = Vec::new(alloc);
    for index in 0..count {
        ids.push(Id(2 * index as u64))?;
    }
    Ok(ids)
}

// The intervals that hold one even id each.
fn even_pairs(alloc: Global, count: u32) -> Result<Vec<(Id, Id)>, Fail> {
    let mut pairs = Vec::new(alloc);
    for index in 0..count {
        let id = Id(2 * index as u64);
        pairs.push((id, id))?;
    }
    Ok(pairs)
}

#[test]
fn takes_rising_maximal_intervals_alone(rt: HostRuntime) -> Result<(), Fail> {
    let alloc = rt.alloc();
    let rows: [(&[(u64, u64)], bool); 12] = [
        (&[], true),
        (&[(0, 0)], true),
        (&[(1, 3), (5, 7)], true),
        (&[(0, OPEN - 2), (OPEN, OPEN)], true),
        (&[(0, OPEN - 1), (OPEN, OPEN)], false),
        (&[(1, 3), (4, 7)], false),
        (&[(1, 3), (3, 7)], false),
        (&[(1, 7), (3, 5)], false),
        (&[(5, 7), (1, 3)], false),
        (&[(3, 1)], false),
        (&[(1, 3), (7, 5)], false),
        (&[(1, OPEN), (0, 0)], false),
    ];
    for (numbers, is_retention) in rows {
        let found = Retention::of(pairs_of(alloc, numbers)?);
        assert_eq!(rt; found.is_some(), is_retention, "at {numbers:?}");
    }
    // A master begins with all ids from 1 on.
    let expected = pairs_of(alloc, &[(1, OPEN)])?;
    assert_eq!(rt; Retention::master(alloc)?.pairs(), expected.as_slice());
    // 4,096 intervals are the most.
    assert!(rt; Retention::of(even_pairs(alloc, 4096)?).is_some());
    assert!(rt; Retention::of(even_pairs(alloc, 4097)?).is_none());
    Ok(())
}

#[test]
fn keeps_what_its_intervals_hold(rt: HostRuntime) -> Result<(), Fail> {
    let alloc = rt.alloc();
    let set = retention(alloc, &[(0, 0), (4, 4), (7, 9), (20, OPEN)])?;
    let rows = [
        (0, true),
        (1, false),
        (3, false),
        (4, true),
        (5, false),
        (6, false),
        (7, true),
        (8, true),
        (9, true),
        (10, false),
        (19, false),
        (20, true),
        (OPEN, true),
    ];
    for (id, is_kept) in rows {
        assert_eq!(rt; set.keeps(Id(id)), is_kept, "at {id}");
    }
    assert!(rt; !retention(alloc, &[])?.keeps(Id(0)));
    Ok(())
}

#[test]
fn finds_the_least_id_from_one_on(rt: HostRuntime) -> Result<(), Fail> {
    let alloc = rt.alloc();
    let set = retention(alloc, &[(0, 0), (4, 4), (7, 9), (20, 30), (OPEN, OPEN)])?;
    let rows = [
        (0, 0),
        (1, 4),
        (3, 4),
        (4, 4),
        (5, 7),
        (7, 7),
        (8, 8),
        (9, 9),
        (10, 20),
        (25, 25),
        (30, 30),
        (31, OPEN),
        (OPEN, OPEN),
    ];
    for (id, least) in rows {
        assert_eq!(rt; set.first_kept(Id(id)), Some(Id(least)), "from {id}");
    }
    let ended = retention(alloc, &[(4, 4), (7, 9)])?;
    assert_eq!(rt; ended.first_kept(Id(9)), Some(Id(9)));
    assert_eq!(rt; ended.first_kept(Id(10)), None);
    assert_eq!(rt; ended.first_kept(Id(OPEN)), None);
    assert_eq!(rt; retention(alloc, &[])?.first_kept(Id(0)), None);
    Ok(())
}

#[test]
fn cuts_to_listed_ids(rt: HostRuntime) -> Result<(), Fail> {
    let alloc = rt.alloc();
    let rows: [(&[(u64, u64)], &[u64], u64, &[(u64, u64)]); 11] = [
        (&[(1, OPEN)], &[4, 7], 7, &[(4, 4), (7, OPEN)]),
        (&[(1, OPEN)], &[7, 4], 7, &[(4, 4), (7, OPEN)]),
        (&[(1, OPEN)], &[4, 4, 5, 5], 9, &[(4, 5), (9, OPEN)]),
        (
            &[(1, OPEN)],
            &[9, 4, 9, 5, 4],
            12,
            &[(4, 5), (9, 9), (12, OPEN)],
        ),
        (&[(1, OPEN)], &[6], 7, &[(6, OPEN)]),
        (&[(1, OPEN)], &[0], 0, &[(1, OPEN)]),
        (&[(1, OPEN)], &[3, OPEN], OPEN, &[(3, 3), (OPEN, OPEN)]),
        (&[(2, 3), (6, 8)], &[1, 3, 4, 5, 7], 8, &[(3, 3), (7, 8)]),
        (&[(2, 3), (6, 8)], &[2, 9], 9, &[(2, 2)]),
        (&[(2, 3), (6, 8)], &[], 7, &[(7, 8)]),
        (&[], &[1, 2], 1, &[]),
    ];
    for (numbers, ids, from, left) in rows {
        let set = retention(alloc, numbers)?;
        let cut = set.cut_to(alloc, &ids_of(alloc, ids)?, Id(from))?;
        assert_eq!(rt;
            cut.pairs(),
            pairs_of(alloc, left)?.as_slice(),
            "{ids:?} from {from}"
        );
    }
    let set = retention(alloc, &[(0, OPEN)])?;
    let most = set.cut_to(alloc, &even_ids(alloc, 4095)?, Id(8190))?;
    assert_eq!(rt; most.pairs().len(), MOST_INTERVALS);
    let more = set.cut_to(alloc, &even_ids(alloc, 4097)?, Id(8194));
    assert_eq!(rt; more.err(), Some(RetainFault::TooMany { count: 4098 }));
    let master = Retention::master(alloc)?;
    let more = master.cut_to(alloc, &even_ids(alloc, 4098)?, Id(8196));
    assert_eq!(rt; more.err(), Some(RetainFault::TooMany { count: 4098 }));
    Ok(())
}

#[test]
fn joins_what_was_passed(rt: HostRuntime) -> Result<(), Fail> {
    let alloc = rt.alloc();
    let rows: [(&[(u64, u64)], &[(u64, u64)], u64, u64, &[(u64, u64)]); 11] = [
        (&[(1, 3)], &[(1, OPEN)], 3, 7, &[(1, 7)]),
        (&[(1, 3)], &[(1, OPEN)], 4, 7, &[(1, 3), (5, 7)]),
        (&[(1, 3)], &[(2, 5), (7, 9)], 1, 8, &[(1, 5), (7, 8)]),
        (
            &[(5, 6)],
            &[(1, 2), (8, 8)],
            0,
            8,
            &[(1, 2), (5, 6), (8, 8)],
        ),
        (&[(5, 6), (9, 9)], &[(4, 4), (7, 8)], 0, 9, &[(4, 9)]),
        (&[(1, 3)], &[(1, OPEN)], 7, 7, &[(1, 3)]),
        (&[(1, 3)], &[(1, OPEN)], 9, 7, &[(1, 3)]),
        (&[(1, 3)], &[(1, OPEN)], OPEN, OPEN, &[(1, 3)]),
        (&[(1, OPEN)], &[(5, OPEN)], 0, OPEN, &[(1, OPEN)]),
        (&[], &[(0, 0), (2, OPEN)], 0, OPEN, &[(2, OPEN)]),
        (&[(4, 4)], &[], 0, OPEN, &[(4, 4)]),
    ];
    for (numbers, other, begin, end, whole) in rows {
        let set = retention(alloc, numbers)?;
        let other = retention(alloc, other)?;
        let join = set.join_pass(alloc, &other, Id(begin), Id(end))?;
        assert_eq!(rt;
            join.pairs(),
            pairs_of(alloc, whole)?.as_slice(),
            "{begin} to {end}"
        );
    }
    let set = Retention::of(even_pairs(alloc, 4096)?).ok_or("no retention")?;
    let other = Retention::master(alloc)?;
    let more = set.join_pass(alloc, &other, Id(8191), Id(9000));
    assert_eq!(rt; more.err(), Some(RetainFault::TooMany { count: 4097 }));
    let same = set.join_pass(alloc, &other, Id(8190), Id(9000))?;
    assert_eq!(rt; same.pairs().len(), MOST_INTERVALS);
    Ok(())
}
