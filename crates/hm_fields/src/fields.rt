// The numbers in the fields of a page.
ghost use Rattle.std.specs.Prelude.{◌≡◌, ◌≤◌, ◌+◌, length};
ghost use Rattle.hm_types.specs.declared.limits.TheConstants.{PAGE_BYTES};
ghost use Rattle.hm_fields.specs.Fields.{get, put};

use crate::page::Page;
use byteorder::{ByteOrder, LittleEndian};

/// The number in the byte at `at`, counted from the start of the page.
pub fn get_u8(page: &Page, at: usize) -> u8
    requires { at + 1 ≤ PAGE_BYTES }
    ensures { result ≡ get page.now at 1 }
{
    page.bytes[at]
}

/// The number in the 2 bytes from `at` on, counted from the start of the page.
pub fn get_u16(page: &Page, at: usize) -> u16
    requires { at + 2 ≤ PAGE_BYTES }
    ensures { result ≡ get page.now at 2 }
{
    LittleEndian::read_u16(&page.bytes[at..at + 2])
}

/// The number in the 4 bytes from `at` on, counted from the start of the page.
pub fn get_u32(page: &Page, at: usize) -> u32
    requires { at + 4 ≤ PAGE_BYTES }
    ensures { result ≡ get page.now at 4 }
{
    LittleEndian::read_u32(&page.bytes[at..at + 4])
}

/// The number in the 8 bytes from `at` on, counted from the start of the page.
pub fn get_u64(page: &Page, at: usize) -> u64
    requires { at + 8 ≤ PAGE_BYTES }
    ensures { result ≡ get page.now at 8 }
{
    LittleEndian::read_u64(&page.bytes[at..at + 8])
}

/// Puts a number into the byte at `at`, counted from the start of the page.
pub fn put_u8(page: &mut Page, at: usize, value: u8)
    requires { at + 1 ≤ PAGE_BYTES }
    ensures change { page.new ≡ put page.old at 1 value }
    ensures held { get page.new at 1 ≡ value }
    ensures sized { length page.new ≡ PAGE_BYTES }
{
    page.bytes[at] = value;
}

/// Puts a number into the 2 bytes from `at` on, counted from the start of the page.
pub fn put_u16(page: &mut Page, at: usize, value: u16)
    requires { at + 2 ≤ PAGE_BYTES }
    ensures change { page.new ≡ put page.old at 2 value }
    ensures held { get page.new at 2 ≡ value }
    ensures sized { length page.new ≡ PAGE_BYTES }
{
    LittleEndian::write_u16(&mut page.bytes[at..at + 2], value);
}

/// Puts a number into the 4 bytes from `at` on, counted from the start of the page.
pub fn put_u32(page: &mut Page, at: usize, value: u32)
    requires { at + 4 ≤ PAGE_BYTES }
    ensures change { page.new ≡ put page.old at 4 value }
    ensures held { get page.new at 4 ≡ value }
    ensures sized { length page.new ≡ PAGE_BYTES }
{
    LittleEndian::write_u32(&mut page.bytes[at..at + 4], value);
}

/// Puts a number into the 8 bytes from `at` on, counted from the start of the page.
pub fn put_u64(page: &mut Page, at: usize, value: u64)
    requires { at + 8 ≤ PAGE_BYTES }
    ensures change { page.new ≡ put page.old at 8 value }
    ensures held { get page.new at 8 ≡ value }
    ensures sized { length page.new ≡ PAGE_BYTES }
{
    LittleEndian::write_u64(&mut page.bytes[at..at + 8], value);
}
