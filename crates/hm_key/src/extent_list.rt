// The extents of a store in memory.
ghost use Rattle.hm_key.specs.Extents.{AreExtents};
ghost use Rattle.hm_key.specs.Memory.{extents_of, EndBy};
ghost use Rattle.hm_key.specs.Props.{AreExtents-prop, EndBy-prop};

use crate::held::Held;
use hm_types::{HOff, NoMemory};
use std::alloc::Global;

/// Live extents in the order of their places. A new one comes after all that were there before, so
/// no place is used twice.
#[derive(Drop)]
pub struct ExtentList {
    pub alloc: Global,
    pub list: Vec<Held>,
    /// The byte of the volume at which the next extent begins.
    pub next: u64,
    pub ghost live: { AreExtents (extents_of list.items) } by { AreExtents-prop _ },
    pub ghost below: { EndBy next (extents_of list.items) } by { EndBy-prop next _ },
}

impl ExtentList {
    ghost use Rattle.std.specs.Prelude.{◌≡◌, ◌<◌, ◌≤◌, ◌^◌, [], IfOk, OnErr, IsSome, IsSomeAnd, IfSome, option_map, length, take};
    ghost use Rattle.hm_types.specs.Offset.{zone_of};
    ghost use Rattle.hm_types.specs.Space.{IsPayloadZone, rounded};
    ghost use Rattle.hm_key.specs.Extents.{PlacesAt, extent_at, shared_at, given_back_at};
    ghost use Rattle.hm_key.specs.Memory.{extents_of, length_and_references, IsAt};

    /// Takes no memory.
    pub fn new(alloc: Global) -> ExtentList
        ensures { result.list.items ≡ [] }
    {
        ExtentList {
            alloc,
            list: Vec::new(alloc),
            next: 0,
        }
    }

    /// The length in bytes of the extent at `at`, and how many references it has.
    pub fn extent(&self, at: HOff) -> Option<(usize, u32)>
        ensures { result ≡ option_map length_and_references (extent_at at (extents_of self.now.list.items)) }
    {
        for held in &self.list {
            if held.at == at {
                return Some((held.bytes.len(), held.refs));
            }
        }
        None
    }

    /// Puts the bytes into a new extent of a zone, which has one reference. After an error the
    /// list is as before.
    pub fn place(&mut self, zone: u8, bytes: &[u8]) -> Result<HOff, NoMemory>
        requires zone { IsPayloadZone zone }
        requires some { 1 ≤ length bytes.now }
        ensures ok { IfOk result (λ at. PlacesAt at bytes.now
            (extents_of self.old.list.items) (extents_of self.new.list.items)) }
        ensures zone { IfOk result (λ at. zone_of at ≡ zone) }
        ensures err { OnErr result (self.new.list.items ≡ self.old.list.items) }
    {
        let Some(at) = HOff::make(zone, self.next) else {
            return Err(NoMemory);
        };
        let len = (bytes.len() + 15) / 16 * 16;
        let mut all = Vec::from_slice(self.alloc, bytes)?;
        all.resize(len, 0)?;
        self.next += len as u64;
        self.list.push(Held {
            at,
            bytes: all,
            refs: 1,
        })?;
        Ok(at)
    }

    /// Reads the first bytes of the extent at `at`, which is at least as long as the buffer.
    pub fn fetch(&self, at: HOff, buf: &mut [u8])
        requires { IsSomeAnd (extent_at at (extents_of self.now.list.items))
            (λ x. length buf.old ≤ x.len) }
        ensures { IfSome (extent_at at (extents_of self.now.list.items))
            (λ x. buf.new ≡ take (length buf.old) x.bytes) }
    {
        let place = self.place_of(at);
        let len = buf.len();
        buf.copy_from_slice(&self.list[place].bytes[..len]);
    }

    /// Adds a reference to the extent at `at`, which has fewer than 64.
    pub fn share(&mut self, at: HOff)
        requires { IsSomeAnd (extent_at at (extents_of self.old.list.items)) (λ x. x.refs < 64) }
        ensures { extents_of self.new.list.items ≡ shared_at at (extents_of self.old.list.items) }
    {
        let place = self.place_of(at);
        self.list[place].refs += 1;
    }

    /// Takes a reference off the extent at `at`, which goes with its last one.
    pub fn give_back(&mut self, at: HOff)
        requires { IsSome (extent_at at (extents_of self.old.list.items)) }
        ensures { extents_of self.new.list.items
            ≡ given_back_at at (extents_of self.old.list.items) }
    {
        let place = self.place_of(at);
        if self.list[place].refs > 1 {
            self.list[place].refs -= 1;
        } else {
            self.list.remove(place);
        }
    }

    // The place of the extent at `at`.
    fn place_of(&self, at: HOff) -> usize
        requires { IsSome (extent_at at (extents_of self.now.list.items)) }
        ensures { IsAt at self.now.list.items result }
    {
        let mut place = 0;
        while self.list[place].at != at {
            place += 1;
        }
        place
    }
}
