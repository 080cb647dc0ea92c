// Elements by their spans of ids, retentions, and prunes that are run to their end.
ghost use Rattle.std.specs.Prelude.{IfOk};
ghost use Rattle.hm_key.specs.Balance.{Balanced};

use hm_key::{
    Base, DIRECTORY_ENTRY, ELEMENT, ElementStore, Extents, HasElements, HasRoom, Job, OTHER_PART,
    Progress,
};
use hm_prune::Prune;
use hm_retain::Retention;
use hm_types::{Fault, Id, Obj};
use std::alloc::Global;
use std::test::Fail;

/// How many spans there are.
pub(crate) const SPANS: u64 = 11;

/// The greatest id.
pub(crate) const LAST: u64 = u64::MAX;

/// The ids that made and closed an element. The first one was made at the greatest id.
pub(crate) fn span(index: u64) -> (u64, u64) {
    match index % SPANS {
        0 => (LAST, 0),
        1 => (1, 3),
        2 => (1, 5),
        3 => (3, 5),
        4 => (3, 9),
        5 => (5, 6),
        6 => (5, 0),
        7 => (6, 9),
        8 => (9, 12),
        9 => (12, 0),
        _ => (2, LAST),
    }
}

/// Intervals that are kept, at most two, and which spans then stay: a digit for each in turn.
pub(crate) type Row = (Option<(u64, u64)>, Option<(u64, u64)>, u32);

/// The rows of the table.
pub(crate) fn rows() -> [Row; 9] {
    [
        (Some((1, LAST)), None, 0b_1111_1111_111),
        (Some((5, LAST)), None, 0b_1000_1111_111),
        (Some((1, 2)), Some((9, LAST)), 0b_1110_0010_111),
        (Some((4, 4)), Some((7, 7)), 0b_1011_1011_111),
        (Some((3, 3)), Some((9, 9)), 0b_1011_1010_111),
        (Some((11, 11)), None, 0b_1000_0010_111),
        (Some((12, LAST)), None, 0b_1000_0010_011),
        (Some((LAST, LAST)), None, 0b_1000_0010_010),
        (None, None, 0b_1111_1111_111),
    ]
}

/// The entry of a PFS under a key, with the span of that number.
pub(crate) fn entry(pfs: u16, key: u64) -> Base {
    let (create, delete) = span(key);
    Base {
        obj: Obj(2),
        key,
        create,
        delete,
        rec_type: DIRECTORY_ENTRY,
        obj_type: 1,
        btype: ELEMENT,
        localization: u32::from(pfs) * 65_536 + u32::from(OTHER_PART),
    }
}

/// The retention with these intervals.
pub(crate) fn kept(
    alloc: Global,
    first: Option<(u64, u64)>,
    second: Option<(u64, u64)>,
) -> Result<Retention, Fail> {
    let mut list = Vec::new(alloc);
    for pair in [first, second] {
        if let Some((from, to)) = pair {
            list.push((Id(from), Id(to)))?;
        }
    }
    match Retention::of(list) {
        Some(retention) => Ok(retention),
        None => Err("no retention")?,
    }
}

/// Does units until the prune is done, and says how many it took.
pub(crate) fn run<T: ElementStore + Extents>(prune: &mut Prune, store: &mut T) -> Result<u32, Fault>
    requires { Balanced (T.elements store.old) (T.extents store.old) }
    ensures { IfOk result (λ _. Balanced (T.elements store.new) (T.extents store.new)) }
{
    for units in 0..1_000u32 {
        if prune.unit(store)? == Progress::Done {
            return Ok(units + 1);
        }
    }
    Err(Fault::NoMemory)
}
