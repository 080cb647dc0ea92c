// A disk with a buffer.
ghost use Rattle.std.specs.Prelude.{◌≡◌, ◌<◌, ◌^◌, IfOk, IfSome, OnOk, true};
ghost use Rattle.std.proofs.Props.{props};
ghost use Rattle.hm_types.specs.Faults.{HasCause};
ghost use Rattle.hm_disk.specs.Moments.{SameLeft};
ghost use Rattle.hm_buffer.specs.Held.{AgreeWithDisk, ArePlaced, GivesPage, IsToldSize, IsWithin};

use crate::held_page::{HeldPage, Slot, empty_slots, forget, slot_of};
use hm_disk::Disk;
use hm_types::{Failed, PAGE_BYTES};
use std::alloc::Global;

/// A disk whose pages of 4,096 bytes are held in memory once a short read has come by them, so that the
/// next short read of such a page makes no call. It is a disk itself, and tells what the disk below it
/// tells.
///
/// It holds at most 2,048 pages, 8 MiB, each in the slot of its number modulo 2,048, where it takes the
/// place of the one before. Reads that are not shorter than a page, or cross the end of one, go to the
/// disk below, and so does every write, after which no page is held that has a byte of its range. Where memory
/// is refused, pages are not held, and nothing fails.
#[derive(Drop)]
pub struct BufferedDisk<D: Disk> {
    alloc: Global,
    disk: D,
    // The size of the disk in bytes, once it was asked for.
    size: Option<u64>,
    slots: Vec<Slot>,
    ghost sized: { IsToldSize size (D.told disk) } by { Prim.hlevel props },
    ghost held: { AgreeWithDisk (D.told disk) slots.items } by { Prim.hlevel props },
    ghost placed: { ArePlaced slots.items } by { Prim.hlevel props },
}

impl<D: Disk> BufferedDisk<D> {
    /// A buffer of no pages over a disk. It makes no call.
    pub fn new(alloc: Global, disk: D) -> BufferedDisk<D>
        ensures { result.disk ≡ disk }
    {
        BufferedDisk {
            alloc,
            disk,
            size: None,
            slots: empty_slots(alloc),
        }
    }

    /// The disk below.
    pub fn into_inner(self) -> D
        ensures { result ≡ self.disk }
    {
        let BufferedDisk { disk, .. } = self;
        disk
    }
}

impl<D: Disk> BufferedDisk<D> {
    // Whether a page lies inside the disk.
    fn has_page(&mut self, number: u64) -> Result<bool, Failed>
        ensures within { IfOk result (IsWithin number (D.told self.old.disk)) }
        ensures slots { self.new.slots ≡ self.old.slots }
        ensures same { D.told self.new.disk ≡ D.told self.old.disk }
        ensures past { D.past self.new.disk ≡ D.past self.old.disk }
        ensures any_moment { SameLeft (D.left_since self.old.disk) (D.left_since self.new.disk) }
        ensures cause { HasCause (D.faults self.old.disk) (D.faults self.new.disk) result }
    {
        let size = match self.size {
            Some(size) => size,
            None => {
                let size = self.disk.size()?;
                self.size = Some(size);
                size
            }
        };
        Ok(number < size / PAGE_BYTES as u64)
    }

    // Reads a page that is inside the disk, and holds it.
    fn read_page(&mut self, number: u64, page: &mut [u8; PAGE_BYTES]) -> Result<(), Failed>
        requires few { number < 2 ^ 52 }
        requires within { IsWithin number (D.told self.old.disk) true }
        ensures ok { OnOk result (GivesPage number page.new (D.told self.old.disk)) }
        ensures same { D.told self.new.disk ≡ D.told self.old.disk }
        ensures past { D.past self.new.disk ≡ D.past self.old.disk }
        ensures any_moment { SameLeft (D.left_since self.old.disk) (D.left_since self.new.disk) }
        ensures cause { HasCause (D.faults self.old.disk) (D.faults self.new.disk) result }
    {
        self.disk.read_at(number * PAGE_BYTES as u64, page)?;
        if let Some(slot) = self.slots.get_mut(slot_of(number)) {
            let held = HeldPage {
                number,
                bytes: *page,
            };
            *slot = Box::new(self.alloc, held).ok();
        }
        Ok(())
    }

    // The page with this number, if it is held.
    fn look(&self, number: u64) -> Option<&[u8; PAGE_BYTES]>
        ensures { IfSome result (λ page. GivesPage number page.now (D.told self.now.disk)) }
    {
        match self.slots.get(slot_of(number)) {
            Some(Some(page)) if page.number == number => Some(&page.bytes),
            _ => None,
        }
    }
}

impl<D: Disk> Disk for BufferedDisk<D> {
    ghost told = { λ b. D.told b.disk };

    ghost left_since = { λ b. D.left_since b.disk };

    ghost Past = { D.Past };

    ghost past = { λ b. D.past b.disk };

    ghost left_before = { D.left_before };

    ghost faults = { λ b. D.faults b.disk };

    ghost counts_now = { λ b moment image. D.counts_now b.disk moment image };

    ghost only_now = { λ b image. D.only_now b.disk image };

    ghost since_earlier = { λ b earlier moment image. D.since_earlier b.disk earlier moment image };

    ghost splits = { λ b moment image. D.splits b.disk moment image };

    ghost joins = { λ b moment image. D.joins b.disk moment image };

    fn size(&mut self) -> Result<u64, Failed> {
        self.disk.size()
    }

    /// Fills `buf`, where it is shorter than a page and lies in one, from the page if it is held, and else
    /// holds the page first.
    fn read_at(&mut self, place: u64, buf: &mut [u8]) -> Result<(), Failed> {
        let number = place / PAGE_BYTES as u64;
        let from = (place % PAGE_BYTES as u64) as usize;
        if buf.len() == PAGE_BYTES || buf.len() > PAGE_BYTES - from {
            return self.disk.read_at(place, buf);
        }
        let to = from + buf.len();
        if let Some(page) = self.look(number) {
            buf.copy_from_slice(&page[from..to]);
            return Ok(());
        }
        if !self.has_page(number)? {
            return self.disk.read_at(place, buf);
        }
        let mut page = [0; PAGE_BYTES];
        self.read_page(number, &mut page)?;
        buf.copy_from_slice(&page[from..to]);
        Ok(())
    }

    fn write_at(&mut self, place: u64, bytes: &[u8]) -> Result<(), Failed> {
        forget(&mut self.slots, place, bytes.len());
        self.disk.write_at(place, bytes)
    }

    fn sync(&mut self) -> Result<(), Failed> {
        self.disk.sync()
    }

    fn faults(&self) -> u64 {
        self.disk.faults()
    }
}
