// Fields against bytes that were written by hand, and how a caller composes puts.
ghost use Rattle.std.specs.Prelude.{◌≡◌, ◌≤◌, ◌+◌, ℕ, length};
ghost use Rattle.hm_types.specs.declared.limits.TheConstants.{PAGE_BYTES};
ghost use Rattle.hm_fields.specs.Fields.{Apart, get};

use crate::{
    Page, clear_bytes, get_u8, get_u16, get_u32, get_u64, move_bytes, put_u8, put_u16, put_u32,
    put_u64,
};
use hm_types::PAGE_BYTES;

// A head of 24 bytes, which is proved from the contracts alone: what each field of it holds, and that
// every field outside it is as before.
#[tactic(auto, using(crate::proofs::FieldLemmas::fields))]
fn put_head(page: &mut Page, at: usize, kind: u16, count: u32, tid: u64)
    requires { at + 24 ≤ PAGE_BYTES }
    ensures kind { get page.new at 2 ≡ kind }
    ensures flags { get page.new (at + 2) 2 ≡ 0 }
    ensures count { get page.new (at + 4) 4 ≡ count }
    ensures first { get page.new (at + 8) 8 ≡ tid }
    ensures last { get page.new (at + 16) 8 ≡ tid }
    ensures others { (other width : ℕ) → Apart at 24 other width →
        get page.new other width ≡ get page.old other width }
{
    put_u64(page, at + 8, tid);
    put_u64(page, at + 16, tid);
    put_u32(page, at + 4, count);
    put_u16(page, at + 2, 0);
    put_u16(page, at, kind);
}

// A put, others past it and before it, and a get of the first.
#[tactic(auto, using(crate::proofs::FieldLemmas::fields))]
fn put_and_get(page: &mut Page, kind: u16, count: u32, tid: u64) -> u64
    ensures { result ≡ tid }
{
    put_u64(page, 8, tid);
    put_u32(page, 16, count);
    put_u16(page, 0, kind);
    get_u64(page, 8)
}

// As many puts as a leaf's element needs.
#[tactic(auto, using(crate::proofs::FieldLemmas::fields))]
fn put_many(page: &mut Page, tid: u64) -> u64
    ensures value { result ≡ tid }
    ensures last { get page.new 4088 8 ≡ get page.old 4088 8 }
{
    put_u64(page, 0, tid);
    put_u64(page, 8, 1);
    put_u64(page, 16, 2);
    put_u64(page, 24, 3);
    put_u32(page, 32, 4);
    put_u32(page, 36, 5);
    put_u32(page, 40, 6);
    put_u16(page, 44, 7);
    put_u16(page, 46, 8);
    put_u64(page, 48, 9);
    put_u64(page, 56, 10);
    put_u64(page, 64, 11);
    put_u64(page, 72, 12);
    get_u64(page, 0)
}

// A page with 0xA5 in each byte.
fn filled() -> Page {
    let mut page = Page::zero();
    page.copy_from(&[0xA5; PAGE_BYTES]);
    page
}

// Whether the page holds these bytes from `at` on, and 0xA5 in each byte before and after them.
fn holds_alone(page: &Page, at: usize, bytes: &[u8]) -> bool
    requires { at + length bytes.now ≤ PAGE_BYTES }
{
    let (before, rest) = page.bytes().split_at(at);
    let (field, after) = rest.split_at(bytes.len());
    field == bytes && before.iter().all(|b| *b == 0xA5) && after.iter().all(|b| *b == 0xA5)
}

#[test]
fn numbers_stand_with_their_lowest_byte_first(rt: HostRuntime) {
    for (at, value, bytes) in [
        (
            32,
            0x8000_0000_0580_0000,
            [0x00, 0x00, 0x80, 0x05, 0x00, 0x00, 0x00, 0x80],
        ),
        (
            0,
            0x0102_0304_0506_0708,
            [0x08, 0x07, 0x06, 0x05, 0x04, 0x03, 0x02, 0x01],
        ),
        (
            4_088,
            0xFFEE_DDCC_BBAA_9988,
            [0x88, 0x99, 0xAA, 0xBB, 0xCC, 0xDD, 0xEE, 0xFF],
        ),
        (1_001, 1, [0x01, 0x00, 0x00, 0x00, 0x00, 0x00, 0x00, 0x00]),
    ] {
        assert!(rt; at <= PAGE_BYTES - 8);
        let mut page = filled();
        put_u64(&mut page, at, value);
        assert!(rt; holds_alone(&page, at, &bytes), "{value:x}");
        assert_eq!(rt; get_u64(&page, at), value);
    }
    for (at, value, bytes) in [
        (4, 0x0580_0000, [0x00, 0x00, 0x80, 0x05]),
        (0, 0x0102_0304, [0x04, 0x03, 0x02, 0x01]),
        (4_092, 0xFFEE_DDCC, [0xCC, 0xDD, 0xEE, 0xFF]),
    ] {
        assert!(rt; at <= PAGE_BYTES - 4);
        let mut page = filled();
        put_u32(&mut page, at, value);
        assert!(rt; holds_alone(&page, at, &bytes), "{value:x}");
        assert_eq!(rt; get_u32(&page, at), value);
    }
    for (at, value, bytes) in [
        (6, 0x0580, [0x80, 0x05]),
        (0, 0x0102, [0x02, 0x01]),
        (4_094, 0xFFEE, [0xEE, 0xFF]),
    ] {
        assert!(rt; at <= PAGE_BYTES - 2);
        let mut page = filled();
        put_u16(&mut page, at, value);
        assert!(rt; holds_alone(&page, at, &bytes), "{value:x}");
        assert_eq!(rt; get_u16(&page, at), value);
    }
    for (at, value) in [(0, 0x01), (35, 0xFF), (4_095, 0x80)] {
        assert!(rt; at < PAGE_BYTES);
        let mut page = filled();
        put_u8(&mut page, at, value);
        assert!(rt; holds_alone(&page, at, &[value]), "{value:x}");
        assert_eq!(rt; get_u8(&page, at), value);
    }
}

#[test]
fn a_page_is_read_at_any_place(rt: HostRuntime) {
    let mut page = Page::zero();
    assert!(rt; page.bytes().iter().all(|b| *b == 0));
    let mut bytes = [0; PAGE_BYTES];
    bytes[4_086..].copy_from_slice(&[0x01, 0x02, 0x03, 0x04, 0x05, 0x06, 0x07, 0x08, 0x09, 0x0A]);
    page.copy_from(&bytes);
    assert_eq!(rt; get_u64(&page, 4_088), 0x0A09_0807_0605_0403);
    assert_eq!(rt; get_u64(&page, 4_085), 0x0706_0504_0302_0100);
    assert_eq!(rt; get_u32(&page, 4_092), 0x0A09_0807);
    assert_eq!(rt; get_u16(&page, 4_094), 0x0A09);
    assert_eq!(rt; get_u16(&page, 0), 0);
    assert_eq!(rt; get_u8(&page, 4_094), 0x09);
    page.clear();
    assert!(rt; page.bytes().iter().all(|b| *b == 0));
}

#[test]
fn fields_side_by_side_keep_apart(rt: HostRuntime) {
    let mut page = Page::zero();
    assert_eq!(rt;
        put_and_get(&mut page, 0x1234, u32::MAX, 0x8000_0000_0580_0000),
        0x8000_0000_0580_0000
    );
    assert_eq!(rt; put_many(&mut page, u64::MAX), u64::MAX);
    put_head(&mut page, 4_072, 0x1234, 0x0102_0304, 5);
    assert_eq!(rt;
        &page.bytes()[4_072..],
        [
            0x34, 0x12, 0, 0, 4, 3, 2, 1, 5, 0, 0, 0, 0, 0, 0, 0, 5, 0, 0, 0, 0, 0, 0, 0
        ]
        .as_slice()
    );
    let copy = page;
    put_u16(&mut page, 4_072, 0);
    assert_eq!(rt; get_u16(&copy, 4_072), 0x1234);
}

// Moves bytes of a page, where they lie in it and go to a part of it.
fn try_move(page: &mut Page, from: usize, to: usize, dest: usize) -> bool {
    if from > to || to > PAGE_BYTES || dest > PAGE_BYTES || to - from > PAGE_BYTES - dest {
        return false;
    }
    move_bytes(page, from, to, dest);
    true
}

// The number of the byte at each place of a page, where those before 250 are numbered.
fn numbered() -> Page {
    let mut bytes = [0; PAGE_BYTES];
    for number in 0u8..250 {
        bytes[usize::from(number)] = number;
    }
    let mut page = Page::zero();
    page.copy_from(&bytes);
    page
}

#[test]
fn bytes_are_moved_over_each_other_and_cleared(rt: HostRuntime) {
    // From where to where, and some bytes afterwards: at the first place of the table and on.
    for (from, to, dest, at, want) in [
        (100, 104, 102, 100, [100u8, 101, 100, 101, 102, 103, 106]),
        (102, 106, 100, 100, [102, 103, 104, 105, 104, 105, 106]),
        (10, 12, 200, 198, [198, 199, 10, 11, 202, 203, 204]),
        (7, 7, 20, 18, [18, 19, 20, 21, 22, 23, 24]),
    ] {
        let mut page = numbered();
        assert!(rt; try_move(&mut page, from, to, dest));
        assert_eq!(rt;
            page.bytes().get(at..at + 7),
            Some(want.as_slice()),
            "{from} {to} {dest}"
        );
    }
    let mut page = numbered();
    assert!(rt; !try_move(&mut page, 1, 3, PAGE_BYTES - 1));
    assert!(rt; try_move(&mut page, 1, 3, PAGE_BYTES - 2));
    clear_bytes(&mut page, 2, 5);
    assert_eq!(rt; &page.bytes()[..7], [0, 1, 0, 0, 0, 5, 6].as_slice());
    assert_eq!(rt; &page.bytes()[PAGE_BYTES - 3..], [0, 1, 2].as_slice());
}
