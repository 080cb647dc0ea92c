// The live extents of a store, and its space.
ghost use Rattle.std.specs.Prelude.{◌≡◌, ◌+◌, ℕ, ◌<◌, ◌≤◌, List, Option, is_some, length, take, IfSome, IsSomeAnd};
ghost use Rattle.std.specs.Prelude.{IfOk, OnOk, IfErr};
ghost use Rattle.hm_types.specs.Faults.{HasStoreCause, HasAdmitCause};
ghost use Rattle.hm_types.specs.Space.{IsPayloadZone, nothing, in_zone, rounded};
ghost use Rattle.hm_key.specs.Calls.{Admission, Placement};
ghost use Rattle.hm_key.specs.Extents.{AreExtents, extent_at, shared_at, given_back_at};
ghost use Rattle.hm_key.specs.Stores.{ExtentsChange};
ghost use Rattle.hm_key.specs.Members.{IsSame, KeepsTold, SpendsAtMost};

use crate::room::HasRoom;
use crate::store::HasElements;
use hm_types::{Counted, Fault, HOff, SpaceFault, Zones};

/// Room for payloads: extents of the zones 9, 10 and 11, each of which up to 64 elements may share.
/// A condition that speaks of the content binds only where the store tells it.
///
/// The faults of its calls are those of an `ElementStore`. After an error that holds a fault, of a
/// call other than `fetch`, nothing is known of the content, also not whether it is told.
pub trait Extents: HasElements {
    /// Lets each named zone have room of at least its reserve: 1,048,576 bytes in zone 8, and
    /// 131,072 bytes in the zones 9, 10 and 11. A zone that has less room takes one free big-block;
    /// the one that it replaces becomes free at once where nothing in it is live. `NoSpace` exactly
    /// where more zones need one than are free after `held` of them were held back; the store is
    /// then as before.
    fn admit(&mut self, zones: Zones, held: u32) -> Result<(), SpaceFault>
        ensures answers { Admission Self.elements Self.mark Self.extents Self.room Self.free
            zones held self.old self.new result }
        ensures keeps { KeepsTold Self.HasElements self.old self.new result }
        ensures name { Self.name self.new ≡ Self.name self.old }
        ensures frame { Self.frame self.new ≡ Self.frame self.old }
        ensures cause { HasAdmitCause (Self.extents self.old)
            (Self.faults self.old) (Self.faults self.new) result };

    /// Reads the first bytes of a live extent, which is at least as long as the buffer.
    fn fetch(&mut self, at: HOff, buf: &mut [u8]) -> Result<(), Fault>
        requires live { IfSome (Self.extents self.old) (λ xs.
            IsSomeAnd (extent_at at xs) (λ x. length buf.old ≤ x.len)) }
        ensures ok { IfSome (Self.extents self.old) (λ xs.
            IfSome (extent_at at xs) (λ x. OnOk result (buf.new ≡ take (length buf.old) x.bytes))) }
        ensures keeps { IsSame Self.HasElements
            self.old self.new }
        ensures name { Self.name self.new ≡ Self.name self.old }
        ensures frame { Self.frame self.new ≡ Self.frame self.old }
        ensures cause { HasStoreCause (Self.extents self.old)
            (Self.faults self.old) (Self.faults self.new) result };

    /// Puts the bytes, of which there is at least one, into a new extent of a zone, 9, 10 or 11.
    /// Its length is theirs, rounded up to 16, and the zone must have so much room.
    fn place(&mut self, zone: u8, bytes: &[u8]) -> Result<HOff, Fault>
        requires zone { IsPayloadZone zone }
        requires some { 1 ≤ length bytes.now }
        requires room { rounded (length bytes.now) ≤ Self.room self.old zone }
        ensures ok { IfOk result
            (Placement Self.elements Self.mark Self.extents Self.room zone bytes.now self.old self.new) }
        ensures space { SpendsAtMost Self.HasElements (in_zone zone (rounded (length bytes.now)))
            self.old self.new }
        ensures keeps { KeepsTold Self.HasElements self.old self.new result }
        ensures name { Self.name self.new ≡ Self.name self.old }
        ensures frame { Self.frame self.new ≡ Self.frame self.old }
        ensures cause { HasStoreCause (Self.extents self.old)
            (Self.faults self.old) (Self.faults self.new) result };

    /// Adds a reference to the live extent at `at`, which is as long as `len` bytes take, and has
    /// fewer than 64.
    fn share(&mut self, at: HOff, len: u32) -> Result<(), Fault>
        requires live { IfSome (Self.extents self.old) (λ xs.
            IsSomeAnd (extent_at at xs) (λ x. (x.len ≡ rounded len) × (x.refs < 64))) }
        ensures ok { OnOk result (ExtentsChange Self.elements Self.mark Self.extents
            (λ xs ys. ys ≡ shared_at at xs) self.old self.new) }
        ensures keeps { KeepsTold Self.HasElements self.old self.new result }
        ensures space { SpendsAtMost Self.HasElements nothing self.old self.new }
        ensures name { Self.name self.new ≡ Self.name self.old }
        ensures frame { Self.frame self.new ≡ Self.frame self.old }
        ensures cause { HasStoreCause (Self.extents self.old)
            (Self.faults self.old) (Self.faults self.new) result };

    /// Takes a reference off the live extent at `at`, which is as long as `len` bytes take. With
    /// its last one the extent is gone.
    fn give_back(&mut self, at: HOff, len: u32) -> Result<(), Fault>
        requires live { IfSome (Self.extents self.old) (λ xs.
            IsSomeAnd (extent_at at xs) (λ x. x.len ≡ rounded len)) }
        ensures ok { OnOk result (ExtentsChange Self.elements Self.mark Self.extents
            (λ xs ys. ys ≡ given_back_at at xs) self.old self.new) }
        ensures keeps { KeepsTold Self.HasElements self.old self.new result }
        ensures space { SpendsAtMost Self.HasElements nothing self.old self.new }
        ensures name { Self.name self.new ≡ Self.name self.old }
        ensures frame { Self.frame self.new ≡ Self.frame self.old }
        ensures cause { HasStoreCause (Self.extents self.old)
            (Self.faults self.old) (Self.faults self.new) result };

    /// Told extents are live, disjoint and in the order of their places.
    ghost live: { (s : Self) → IfSome (Self.extents s) AreExtents };

    /// Extents are told exactly where elements are.
    ghost together: { (s : Self) → is_some (Self.extents s) ≡ is_some (Self.elements s) };
}

impl<T: Extents> Extents for &mut T {
    ghost live = { λ t. T.Extents.live t.now };

    ghost together = { λ t. T.Extents.together t.now };

    fn admit(&mut self, zones: Zones, held: u32) -> Result<(), SpaceFault> {
        (**self).admit(zones, held)
    }

    fn fetch(&mut self, at: HOff, buf: &mut [u8]) -> Result<(), Fault> {
        (**self).fetch(at, buf)
    }

    fn place(&mut self, zone: u8, bytes: &[u8]) -> Result<HOff, Fault> {
        (**self).place(zone, bytes)
    }

    fn share(&mut self, at: HOff, len: u32) -> Result<(), Fault> {
        (**self).share(at, len)
    }

    fn give_back(&mut self, at: HOff, len: u32) -> Result<(), Fault> {
        (**self).give_back(at, len)
    }
}
