// Searches in a whole tree.
ghost use Rattle.std.specs.Prelude.{◌<◌};

use crate::tree::{
    CheckedPages, boundary, entry, first_found, found_at, last_found, leaf_of, offset, put,
    quiet_from, tree,
};
use hm_fields::MemPages;
use hm_key::Base;
use hm_search::Found;
use hm_types::Id;
use std::test::Fail;

// The first entry from a directory on, by counting: those of leaf k are of 10 k + 3 and 10 k + 6.
fn wanted_from(obj: u16) -> Option<u16>
    requires { obj < 400 }
{
    let next = match obj % 10 {
        0..=3 => obj / 10 * 10 + 3,
        4..=6 => obj / 10 * 10 + 6,
        _ => obj / 10 * 10 + 13,
    };
    if next < 320 { Some(next) } else { None }
}

// The last entry up to a directory, likewise.
fn wanted_to(obj: u16) -> Option<u16>
    requires { obj < 400 }
{
    let last = match obj % 10 {
        0..=2 => (obj / 10 * 10).checked_sub(4)?,
        3..=5 => obj / 10 * 10 + 3,
        _ => obj / 10 * 10 + 6,
    };
    Some(last.min(316))
}

#[test]
fn a_search_finds_the_first_element_from_each_key_on(rt: HostRuntime) -> Result<(), Fail> {
    let mut pages = tree(rt.alloc())?;
    for obj in 0u16..330 {
        let found = first_found(&mut pages, offset(1)?, &entry(obj).base)?;
        let wanted = wanted_from(obj).map(entry);
        assert_eq!(rt; found, wanted, "{obj}");
    }
    let found = first_found(&mut pages, offset(1)?, &Base::least())?;
    assert_eq!(rt; found, Some(entry(3)));
    let found = first_found(&mut pages, offset(1)?, &Base::greatest())?;
    assert_eq!(rt; found, None);
    Ok(())
}

#[test]
fn a_search_finds_the_last_element_up_to_each_key(rt: HostRuntime) -> Result<(), Fail> {
    let mut pages = tree(rt.alloc())?;
    for obj in 0u16..330 {
        let found = last_found(&mut pages, offset(1)?, &entry(obj).base)?;
        let wanted = wanted_to(obj).map(entry);
        assert_eq!(rt; found, wanted, "{obj}");
    }
    let found = last_found(&mut pages, offset(1)?, &Base::least())?;
    assert_eq!(rt; found, None);
    let found = last_found(&mut pages, offset(1)?, &Base::greatest())?;
    assert_eq!(rt; found, Some(entry(316)));
    Ok(())
}

#[test]
fn each_key_has_its_place(rt: HostRuntime) -> Result<(), Fail> {
    let mut pages = tree(rt.alloc())?;
    for number in 0u8..32 {
        for (digit, place) in [(0, 0), (3, 0), (4, 1), (6, 1), (7, 2), (9, 2)] {
            let at = entry(u16::from(number) * 10 + digit).base;
            let leaf = offset(number.saturating_add(10))?;
            assert_eq!(rt;
                found_at(&mut pages, offset(1)?, &at)?,
                Found { leaf, place }
            );
        }
    }
    Ok(())
}

#[test]
fn what_did_not_change_goes_as_far_as_marks_say(rt: HostRuntime) -> Result<(), Fail> {
    let mut pages = tree(rt.alloc())?;
    for (obj, since, wanted) in [
        (0, 9, None),
        (0, 10, Some(boundary(1))),
        (0, 12, Some(boundary(1))),
        (25, 12, Some(boundary(3))),
        (35, 12, None),
        (35, 24, Some(boundary(4))),
        (155, 24, None),
        (35, 25, Some(boundary(16))),
        (155, 25, Some(boundary(16))),
        (160, 25, None),
        (160, 40, Some(boundary(17))),
        (319, 40, None),
        (0, 41, Some(boundary(32))),
        (319, 41, Some(boundary(32))),
    ] {
        let end = quiet_from(&mut pages, offset(1)?, &entry(obj).base, Id(since))?;
        assert_eq!(rt; end, wanted, "{obj} {since}");
    }
    Ok(())
}

#[test]
fn a_root_may_be_a_leaf_without_elements(rt: HostRuntime) -> Result<(), Fail> {
    let mut pages = CheckedPages {
        stored: MemPages::new(rt.alloc()),
    };
    put(&mut pages, 1, &leaf_of(5, &[])?)?;
    let at = offset(1)?;
    let base = entry(15).base;
    assert_eq!(rt;
        found_at(&mut pages, at, &base)?,
        Found { leaf: at, place: 0 }
    );
    assert_eq!(rt; first_found(&mut pages, at, &base)?, None);
    assert_eq!(rt; quiet_from(&mut pages, at, &base, Id(4))?, None);
    assert_eq!(rt;
        quiet_from(&mut pages, at, &base, Id(5))?,
        Some(Base::greatest())
    );
    Ok(())
}
