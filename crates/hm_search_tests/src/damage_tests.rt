// What each damage below the root of a tree is told as.
use crate::tree::{
    CheckedPages, boundary, entry, first_found, found_at, inner, leaf, leaf_of, offset, put,
    quiet_from, root, tree,
};
use hm_fields::{Page, Pages, put_u8, put_u64};
use hm_node::{Node, encode};
use hm_search::{Parent, Subtree, read_node};
use hm_types::{
    BAD_BOUNDS, BAD_COUNT, BAD_FIELD, BAD_LEVEL, BAD_MIRROR, BAD_ORDER, Fault, HOff, Id,
};
use std::test::Fail;

// Puts a node at a page, with bytes of it changed.
fn put_damaged(
    pages: &mut CheckedPages,
    number: u8,
    node: &Node,
    bytes: &[(u16, u8)],
) -> Result<(), Fail> {
    let mut page = Page::zero();
    encode(node, &mut page);
    for &(at, byte) in bytes {
        if at < 4_096 {
            put_u8(&mut page, usize::from(at), byte);
        }
    }
    pages.stored.change(offset(number)?, &page)?;
    Ok(())
}

// What a parent of this level says of a node, with its boundaries and its `mirror`.
fn place_of(at: HOff, bounds: (u8, u8), level: u8, mirror: u64) -> Subtree {
    Subtree {
        at,
        left: boundary(bounds.0),
        right: boundary(bounds.1),
        parent: Some(Parent { level, mirror }),
    }
}

#[test]
fn a_damaged_leaf_below_the_root_tells_the_first_rule_that_it_breaks(
    rt: HostRuntime,
) -> Result<(), Fail> {
    // Leaf 1, at page 11, has the boundaries 10 and 20 and the mirror 11.
    let rows: [(&str, &[u16], u8, &[(u16, u8)], u8); 14] = [
        ("an inner node", &[13, 16], 11, &[(0, 2), (1, 2)], BAD_LEVEL),
        ("no element", &[], 11, &[], BAD_COUNT),
        ("no element, and another mirror", &[], 12, &[], BAD_COUNT),
        (
            "an element before the left boundary",
            &[9, 16],
            11,
            &[],
            BAD_BOUNDS,
        ),
        (
            "an element at the right boundary",
            &[13, 20],
            11,
            &[],
            BAD_BOUNDS,
        ),
        (
            "an element after the right boundary",
            &[13, 21],
            11,
            &[],
            BAD_BOUNDS,
        ),
        ("another mirror", &[13, 16], 12, &[], BAD_MIRROR),
        ("a lower mirror", &[13, 16], 10, &[], BAD_MIRROR),
        (
            "an element outside, and another mirror",
            &[13, 21],
            12,
            &[],
            BAD_BOUNDS,
        ),
        (
            "an element outside, and a broken field",
            &[13, 21],
            11,
            &[(99, 2)],
            BAD_BOUNDS,
        ),
        (
            "elements swapped, and one outside",
            &[21, 13],
            11,
            &[],
            BAD_ORDER,
        ),
        (
            "a broken field, and another mirror",
            &[13, 16],
            12,
            &[(99, 2)],
            BAD_FIELD,
        ),
        (
            "a byte that is not 0, and another mirror",
            &[13],
            12,
            &[(4_095, 1)],
            BAD_FIELD,
        ),
        (
            "an element outside, and a mirror below its id",
            &[13, 21],
            2,
            &[],
            BAD_BOUNDS,
        ),
    ];
    for (damage, objects, mirror, bytes, kind) in rows {
        let mut pages = tree(rt.alloc())?;
        put_damaged(&mut pages, 11, &leaf_of(mirror, objects)?, bytes)?;
        let at = offset(11)?;
        let place = place_of(at, (1, 2), 2, 11);
        let told = read_node(&mut pages.stored, &place).err();
        assert_eq!(rt; told, Some(Fault::Damaged { at, kind }), "{damage}");
    }
    Ok(())
}

#[test]
fn a_damaged_inner_node_below_the_root_tells_the_first_rule_that_it_breaks(
    rt: HostRuntime,
) -> Result<(), Fail> {
    // The node at page 2 has the level 2, the mirror 25, and the leaves 0 to 15.
    let rows: [(&str, Node, &[(u16, u8)], u8); 9] = [
        ("a leaf", leaf(1)?, &[], BAD_LEVEL),
        ("level 3", inner(3, 25, 0, 16)?, &[], BAD_LEVEL),
        ("level 1", inner(2, 25, 0, 16)?, &[(1, 1)], BAD_LEVEL),
        ("15 children", inner(2, 25, 0, 15)?, &[], BAD_COUNT),
        (
            "another first boundary",
            inner(2, 25, 1, 16)?,
            &[],
            BAD_BOUNDS,
        ),
        (
            "another right boundary",
            inner(2, 25, 0, 17)?,
            &[],
            BAD_BOUNDS,
        ),
        ("another mirror", inner(2, 26, 0, 16)?, &[], BAD_MIRROR),
        (
            "another boundary and mirror",
            inner(2, 33, 0, 17)?,
            &[],
            BAD_BOUNDS,
        ),
        (
            "another mirror, and a byte that is not 0",
            inner(2, 26, 0, 16)?,
            &[(4, 1)],
            BAD_FIELD,
        ),
    ];
    for (damage, node, bytes, kind) in rows {
        let mut pages = tree(rt.alloc())?;
        put_damaged(&mut pages, 2, &node, bytes)?;
        let at = offset(2)?;
        let place = place_of(at, (0, 16), 3, 25);
        let told = read_node(&mut pages.stored, &place).err();
        assert_eq!(rt; told, Some(Fault::Damaged { at, kind }), "{damage}");
    }
    Ok(())
}

#[test]
fn a_search_tells_which_rule_of_its_place_a_node_breaks(rt: HostRuntime) -> Result<(), Fail> {
    let rows: [(&str, u8, Node, u8); 9] = [
        ("an inner node", 11, inner(2, 25, 0, 16)?, BAD_LEVEL),
        ("no element", 11, leaf_of(12, &[])?, BAD_COUNT),
        ("an element before", 11, leaf_of(11, &[9, 16])?, BAD_BOUNDS),
        ("one at the right", 11, leaf_of(11, &[13, 20])?, BAD_BOUNDS),
        ("and a mirror", 11, leaf_of(12, &[13, 21])?, BAD_BOUNDS),
        ("another mirror", 11, leaf_of(12, &[13, 16])?, BAD_MIRROR),
        ("15 children", 2, inner(2, 25, 0, 15)?, BAD_COUNT),
        ("another boundary", 2, inner(2, 26, 0, 17)?, BAD_BOUNDS),
        ("a mirror", 2, inner(2, 26, 0, 16)?, BAD_MIRROR),
    ];
    for (damage, number, node, kind) in rows {
        let mut pages = tree(rt.alloc())?;
        put(&mut pages, number, &node)?;
        let at = offset(number)?;
        let base = entry(15).base;
        let told = Some(Fault::Damaged { at, kind });
        assert_eq!(rt;
            found_at(&mut pages, offset(1)?, &base).err(),
            told,
            "{damage}"
        );
        let found = first_found(&mut pages, offset(1)?, &base);
        assert_eq!(rt; found.err(), told, "{damage}");
        let end = quiet_from(&mut pages, offset(1)?, &base, Id(9));
        assert_eq!(rt; end.err(), told, "{damage}");
    }
    Ok(())
}

#[test]
fn a_child_that_is_its_own_parent_is_damage(rt: HostRuntime) -> Result<(), Fail> {
    let mut pages = tree(rt.alloc())?;
    let mut page = Page::zero();
    encode(&root()?, &mut page);
    let at = offset(1)?;
    put_u64(&mut page, 104, at.raw());
    pages.stored.change(at, &page)?;
    let damage = Fault::Damaged {
        at,
        kind: BAD_LEVEL,
    };
    let base = entry(15).base;
    assert_eq!(rt; found_at(&mut pages, at, &base).err(), Some(damage));
    assert_eq!(rt; first_found(&mut pages, at, &base).err(), Some(damage));
    assert_eq!(rt;
        quiet_from(&mut pages, at, &base, Id(9)).err(),
        Some(damage)
    );
    Ok(())
}
