// Edits of pages, against bytes that were written by hand.
ghost use Rattle.std.specs.Prelude.{OnOk};
ghost use Rattle.hm_types.specs.Offset.{IsOffset};
ghost use Rattle.hm_node.specs.Edits.{IsLeafPage, IsInnerPage};

use crate::node_tests::{FRESH_RECORD, fresh_root, offset, tall_root};
use hm_fields::Page;
use hm_key::{Element, is_element};
use hm_node::{
    Head, INNER, LEAF, Leaf, broken_rule, insert_element, place, put_delete, put_payload,
    read_element, remove_element, set_mirror,
};
use hm_types::HOff;
use std::test::Fail;

// Does nothing where a page holds a leaf.
fn require_leaf(page: &Page) -> Result<(), Fail>
    ensures { OnOk result (IsLeafPage page.now) }
{
    if Head::read(page).kind != LEAF {
        return Err(Fail::from("no leaf"));
    }
    match broken_rule(page) {
        None => Ok(()),
        Some(_) => Err(Fail::from("a broken leaf")),
    }
}

// Does nothing where a page holds an inner node.
fn require_inner(page: &Page) -> Result<(), Fail>
    ensures { OnOk result (IsInnerPage page.now) }
{
    if Head::read(page).kind != INNER {
        return Err(Fail::from("no inner node"));
    }
    match broken_rule(page) {
        None => Ok(()),
        Some(_) => Err(Fail::from("a broken inner node")),
    }
}

// The element in a place of a leaf.
fn element_of(page: &Page, i: usize) -> Result<Element, Fail> {
    require_leaf(page)?;
    let leaf = Leaf::of(page);
    Ok(*leaf.places.get(i).ok_or("no such place")?)
}

// Does nothing, and says what the type of an offset tells of it.
fn known_offset(at: HOff)
    ensures { IsOffset at }
{}

// Inserts an element into a leaf.
fn insert(page: &mut Page, at: usize, element: &Element) -> Result<(), Fail> {
    require_leaf(page)?;
    let head = Head::read(page);
    if usize::from(head.count) < at || 63 <= head.count || !is_element(element) {
        return Err(Fail::from("no room for it there"));
    }
    known_offset(element.payload);
    insert_element(page, at, element);
    Ok(())
}

// Gives a child of an inner node this `mirror`.
fn give_mirror(page: &mut Page, at: usize, mirror: u64) -> Result<bool, Fail> {
    require_inner(page)?;
    if usize::from(Head::read(page).count) <= at {
        return Err(Fail::from("no such child"));
    }
    Ok(set_mirror(page, at, mirror))
}

// An element with other ids.
fn dated(element: &Element, create: u64, delete: u64) -> Element {
    let mut dated = *element;
    dated.base.create = create;
    dated.base.delete = delete;
    dated
}

#[test]
fn an_element_comes_in_before_others_and_after_them(rt: HostRuntime) -> Result<(), Fail> {
    let whole = fresh_root(&[])?;
    let inode = element_of(&whole, 0)?;
    let record = element_of(&whole, 1)?;
    // The record alone, and the inode alone.
    let mut page = fresh_root(&[(2, &[1]), (64, &FRESH_RECORD), (128, &[0; 64])])?;
    insert(&mut page, 0, &inode)?;
    assert!(rt; page.bytes() == whole.bytes());
    let mut page = fresh_root(&[(2, &[1]), (128, &[0; 64])])?;
    insert(&mut page, 1, &record)?;
    assert!(rt; page.bytes() == whole.bytes());
    Ok(())
}

#[test]
fn the_mirror_rises_to_the_ids_of_an_element(rt: HostRuntime) -> Result<(), Fail> {
    let record = element_of(&fresh_root(&[])?, 1)?;
    for (create, delete, mirror) in [(7u8, 0u8, 7u8), (7, 8, 8), (1, 0, 1)] {
        let mut page = fresh_root(&[(2, &[1]), (128, &[0; 64])])?;
        insert(
            &mut page,
            1,
            &dated(&record, u64::from(create), u64::from(delete)),
        )?;
        let whole = fresh_root(&[(8, &[mirror]), (144, &[create]), (152, &[delete])])?;
        assert!(rt; page.bytes() == whole.bytes(), "{create} {delete}");
    }
    Ok(())
}

#[test]
fn the_mirror_of_a_child_is_put(rt: HostRuntime) -> Result<(), Fail> {
    // The place, the `mirror` that its child gets, and those of the node and of both children then.
    for (at, mirror, node, first, second) in [
        (0, 9u64, 9u8, 9u8, 4u8),
        (1, 4, 9, 9, 4),
        (1, 5, 9, 9, 5),
        (1, 12, 12, 9, 12),
        (0, 3, 9, 3, 4),
    ] {
        let mut page = tall_root(&[])?;
        let changed = give_mirror(&mut page, at, mirror)?;
        assert_eq!(rt; changed, first != 9 || second != 4);
        let whole = tall_root(&[(8, &[node]), (112, &[first]), (176, &[second])])?;
        assert!(rt; page.bytes() == whole.bytes(), "{at} {mirror}");
    }
    Ok(())
}

// Takes the element at a place of a leaf out.
fn take_out(page: &mut Page, at: usize) -> Result<(), Fail> {
    require_leaf(page)?;
    if usize::from(Head::read(page).count) <= at {
        return Err(Fail::from("no such element"));
    }
    remove_element(page, at);
    Ok(())
}

// Lets the payload of the element at a place of a leaf stand elsewhere.
fn move_payload(page: &mut Page, at: usize, to: HOff) -> Result<(), Fail> {
    require_leaf(page)?;
    if usize::from(Head::read(page).count) <= at {
        return Err(Fail::from("no such element"));
    }
    known_offset(to);
    put_payload(page, at, to);
    Ok(())
}

#[test]
fn an_element_goes_and_the_others_move_up(rt: HostRuntime) -> Result<(), Fail> {
    let mut page = fresh_root(&[])?;
    take_out(&mut page, 0)?;
    let rest = fresh_root(&[(2, &[1]), (64, &FRESH_RECORD), (128, &[0; 64])])?;
    assert!(rt; page.bytes() == rest.bytes());
    let mut page = fresh_root(&[])?;
    take_out(&mut page, 1)?;
    let rest = fresh_root(&[(2, &[1]), (128, &[0; 64])])?;
    assert!(rt; page.bytes() == rest.bytes());
    take_out(&mut page, 0)?;
    let none = fresh_root(&[(2, &[0]), (64, &[0; 64]), (128, &[0; 64])])?;
    assert!(rt; page.bytes() == none.bytes());
    Ok(())
}

// Gives the element at a place of a leaf another delete id.
#[tactic(auto, using(hm_node::proofs::EditLemmas::leaf_few))]
fn close(page: &mut Page, at: usize, delete: u64) -> Result<(), Fail> {
    require_leaf(page)?;
    if usize::from(Head::read(page).count) <= at {
        return Err(Fail::from("no such element"));
    }
    let mut closed = read_element(page, place(at));
    closed.base.delete = delete;
    if !is_element(&closed) {
        return Err(Fail::from("no such id"));
    }
    known_offset(closed.payload);
    put_delete(page, at, delete);
    Ok(())
}

#[test]
fn an_offset_and_a_delete_id_are_put_in_their_place(rt: HostRuntime) -> Result<(), Fail> {
    let mut page = fresh_root(&[])?;
    move_payload(&mut page, 1, offset(0xA000_0000_0700_0040)?)?;
    let moved = fresh_root(&[(168, &[0x40, 0, 0, 0x07, 0, 0, 0, 0xA0])])?;
    assert!(rt; page.bytes() == moved.bytes());
    // The element, the delete id that it gets, where that stands, and `mirror` before and after.
    for (at, delete, place, before, after) in [(0, 5u8, 88, 1u8, 5u8), (1, 5, 152, 9, 9)] {
        let mut page = fresh_root(&[(8, &[before])])?;
        close(&mut page, at, u64::from(delete))?;
        let closed = fresh_root(&[(8, &[after]), (place, &[delete])])?;
        assert!(rt; page.bytes() == closed.bytes(), "{at} {delete}");
    }
    Ok(())
}
