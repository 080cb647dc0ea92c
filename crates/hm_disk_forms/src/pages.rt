// The written pages of a disk in memory.
ghost use Rattle.std.specs.Prelude.{◌≡◌, ◌<◌, ◌≤◌, ◌+◌, ◌/◌, ◌%◌, ◌^◌, ℕ, IsSome, IfOk, OnOk, length, slice_index, replicate};
ghost use Rattle.std.specs.Ordering.{nat_cmp};
ghost use Rattle.std.specs.BTreeMap as tree;
ghost use Rattle.hm_types.specs.declared.limits.TheConstants.{PAGE_BYTES};
ghost use Rattle.hm_disk.specs.Disk.{overwritten};
ghost use Rattle.hm_disk_forms.specs.Pages.{PagesAreThere, Overwrites, byte_in_pages};

use hm_types::{NoMemory, PAGE_BYTES};
use std::alloc::Global;
use std::collections::BTreeMap;

// The size of a page, in bytes, as a distance on the disk.
const PAGE: u64 = PAGE_BYTES as u64;

/// The bytes of a disk, of which only the pages that were written take memory. Each other byte is 0.
#[derive(Drop)]
pub(crate) struct Pages {
    alloc: Global,
    pages: BTreeMap<u64, Box<[u8; PAGE_BYTES]>>,
}

impl Pages {
    /// All bytes are 0. It takes no memory.
    pub(crate) fn new(alloc: Global) -> Pages
        ensures zero { (byte : ℕ) → byte_in_pages result byte ≡ 0 }
    {
        Pages {
            alloc,
            pages: BTreeMap::new(alloc),
        }
    }

    /// Makes each page that holds one of `count` bytes from `place` on. No byte changes, also after
    /// `NoMemory`.
    pub(crate) fn make_room(&mut self, place: u64, count: usize) -> Result<(), NoMemory>
        requires range { place + count < 2 ^ 64 }
        ensures made { OnOk result (PagesAreThere self.new place count) }
        ensures same { (byte : ℕ) → byte_in_pages self.new byte ≡ byte_in_pages self.old byte }
    {
        for number in place / PAGE..(place + count as u64).div_ceil(PAGE) {
            self.make(number)?;
        }
        Ok(())
    }

    /// Writes the bytes from `place` on. It takes no memory, since their pages are there.
    pub(crate) fn put(&mut self, place: u64, bytes: &[u8])
        requires range { place + length bytes.now < 2 ^ 64 }
        requires there { PagesAreThere self.old place (length bytes.now) }
        ensures { Overwrites (byte_in_pages self.old) (byte_in_pages self.new) place bytes.now }
    {
        let mut done = 0;
        while done < bytes.len() {
            let at = place + done as u64;
            let count = piece_len(at, bytes.len() - done);
            self.put_piece(at, &bytes[done..done + count]);
            done += count;
        }
    }

    /// Fills `buf` with the bytes from `place` on.
    pub(crate) fn read(&self, place: u64, buf: &mut [u8])
        requires range { place + length buf.old < 2 ^ 64 }
        ensures { (i : ℕ) → i < length buf.old →
            slice_index buf.new i ≡ byte_in_pages self.now (place + i) }
    {
        let mut done = 0;
        while done < buf.len() {
            let at = place + done as u64;
            let count = piece_len(at, buf.len() - done);
            self.read_piece(at, &mut buf[done..done + count]);
            done += count;
        }
    }

    // Makes the page with this number, from 0 on, where it is not there yet.
    fn make(&mut self, number: u64) -> Result<(), NoMemory>
        ensures made { OnOk result (IsSome (tree.get nat_cmp self.new.pages number)) }
        ensures others { (k : ℕ) → IsSome (tree.get nat_cmp self.old.pages k) →
            IsSome (tree.get nat_cmp self.new.pages k) }
        ensures same { (byte : ℕ) → byte_in_pages self.new byte ≡ byte_in_pages self.old byte }
    {
        if !self.pages.contains_key(&number) {
            let page = zero_page(self.alloc)?;
            self.pages.insert(number, page)?;
        }
        Ok(())
    }

    // Writes bytes that lie inside one page, which is there.
    fn put_piece(&mut self, place: u64, bytes: &[u8])
        requires there { IsSome (tree.get nat_cmp self.old.pages (place / PAGE_BYTES)) }
        requires within { place % PAGE_BYTES + length bytes.now ≤ PAGE_BYTES }
        ensures written { Overwrites (byte_in_pages self.old) (byte_in_pages self.new) place bytes.now }
        ensures others { (k : ℕ) → IsSome (tree.get nat_cmp self.old.pages k) →
            IsSome (tree.get nat_cmp self.new.pages k) }
    {
        if let Some(page) = self.pages.get_mut(&(place / PAGE)) {
            overwrite(page, (place % PAGE) as usize, bytes);
        }
    }

    // Reads bytes that lie inside one page.
    fn read_piece(&self, place: u64, buf: &mut [u8])
        requires within { place % PAGE_BYTES + length buf.old ≤ PAGE_BYTES }
        ensures { (i : ℕ) → i < length buf.old → slice_index buf.new i ≡ byte_in_pages self.now (place + i) }
    {
        match self.pages.get(&(place / PAGE)) {
            Some(page) => {
                let at = (place % PAGE) as usize;
                buf.copy_from_slice(&page[at..at + buf.len()]);
            }
            None => buf.fill(0),
        }
    }
}

fn zero_page(alloc: Global) -> Result<Box<[u8; PAGE_BYTES]>, NoMemory>
    ensures { IfOk result (λ page. page.value ≡ replicate PAGE_BYTES 0) }
{
    Ok(Box::new(alloc, [0; PAGE_BYTES])?)
}

// Writes bytes at this place of a page.
fn overwrite(page: &mut [u8; PAGE_BYTES], at: usize, bytes: &[u8])
    requires { at + length bytes.now ≤ PAGE_BYTES }
    ensures value { page.new ≡ overwritten page.old at bytes.now }
    ensures sized { length page.old ≡ PAGE_BYTES }
{
    page[at..at + bytes.len()].copy_from_slice(bytes);
}

// How many of so many bytes from `place` on lie in its page.
fn piece_len(place: u64, most: usize) -> usize
    ensures within { place % PAGE_BYTES + result ≤ PAGE_BYTES }
    ensures most { result ≤ most }
    ensures some { 0 < most → 0 < result }
{
    most.min((PAGE - place % PAGE) as usize)
}
