// A toy disk, for a store that shows what is still known of a disk after generic code ran on it.
ghost use Rattle.std.specs.Prelude.{◌≡◌, ℕ, ◌<◌, ◌≤◌, refl, List, Option, Some, IfSome, IfOk, OnOk, OnErr, length, slice_index};
ghost use Rattle.hm_types.specs.Faults.{HasCause, Rose};
ghost use Rattle.hm_types.specs.Told.{BothTell};
ghost use Rattle.hm_key.specs.ToyDisk.{ToyTold, ToyMayLeave, MayBeBegun, ToySynced, ToyWritten};

use hm_types::Failed;

/// Bytes that are read and written one by one. A write is unsettled until the next sync that
/// succeeds: till then a crash may leave any byte at its place. The moment counts these syncs, so a
/// write keeps it.
pub trait Disk {
    /// What the disk holds, where it tells that.
    ghost told: { Self → Option ToyTold };

    /// Which images a crash at that moment or at any later one may have left.
    ghost left_since: { Self → ℕ → List ℕ → Type 0 };

    /// How many calls failed.
    ghost faults: { Self → ℕ };

    fn read_at(&mut self, place: u64) -> Result<u8, Failed>
        requires within { IfSome (told self.old) (λ t. place < length t.bytes) }
        ensures ok { IfOk result (λ byte. IfSome (told self.old) (λ t.
            byte ≡ slice_index t.bytes place)) }
        ensures same { told self.new ≡ told self.old }
        ensures cause { HasCause (faults self.old) (faults self.new) result };

    fn write_at(&mut self, place: u64, byte: u8) -> Result<(), Failed>
        requires within { IfSome (told self.old) (λ t. place < length t.bytes) }
        ensures ok { OnOk result (BothTell (told self.old) (told self.new) (ToyWritten place byte)) }
        ensures begun { BothTell (told self.old) (told self.new) (MayBeBegun place) }
        ensures cause { HasCause (faults self.old) (faults self.new) result };

    fn sync(&mut self) -> Result<(), Failed>
        ensures ok { OnOk result (BothTell (told self.old) (told self.new) ToySynced) }
        ensures err { OnErr result (told self.new ≡ told self.old) }
        ensures cause { HasCause (faults self.old) (faults self.new) result };

    fn faults(&self) -> u64
        ensures { result ≡ faults self.now };

    /// What a crash now may leave counts as left since each moment up to now.
    ghost counts_now: { (disk : Self) (moment : ℕ) (image : List ℕ) → IfSome (told disk) (λ t.
        moment ≤ t.moment → ToyMayLeave t.bytes t.unsettled image → left_since disk moment image) };

    /// Since the present moment nothing else was left.
    ghost only_now: { (disk : Self) (image : List ℕ) → IfSome (told disk) (λ t.
        left_since disk t.moment image → ToyMayLeave t.bytes t.unsettled image) };
}

/// A toy disk in memory. A worn one takes the byte of a write and answers that it failed. Of moments
/// that are over it says nothing: since then any image may have been left.
#[derive(Drop)]
pub struct ByteDisk {
    pub bytes: Vec<u8>,
    pub unsettled: Vec<u64>,
    pub moment: u64,
    pub faults: u64,
    pub is_worn: bool,
}

impl ByteDisk {
    // Counts a fault.
    fn fail(&mut self) -> Failed
        ensures same { self.new ≡ record self.old { faults = self.new.faults } }
        ensures never_falls { self.old.faults ≤ self.new.faults }
        ensures rose { Rose self.old.faults self.new.faults }
    {
        self.faults = self.faults.saturating_add(1);
        Failed
    }
}

impl Disk for ByteDisk {
    ghost told = { λ d. Some (record {
      bytes = d.bytes.items;
      unsettled = d.unsettled.items;
      moment = d.moment;
    }) };

    ghost left_since = { λ d moment image.
        moment ≡ d.moment → ToyMayLeave d.bytes.items d.unsettled.items image };

    ghost faults = { λ d. d.faults };

    fn read_at(&mut self, place: u64) -> Result<u8, Failed> {
        Ok(self.bytes[place as usize])
    }

    fn write_at(&mut self, place: u64, byte: u8) -> Result<(), Failed> {
        if self.unsettled.insert(0, place).is_err() {
            return Err(self.fail());
        }
        self.bytes[place as usize] = byte;
        if self.is_worn {
            return Err(self.fail());
        }
        Ok(())
    }

    fn sync(&mut self) -> Result<(), Failed> {
        if self.moment == u64::MAX {
            return Err(self.fail());
        }
        self.unsettled.clear();
        self.moment += 1;
        Ok(())
    }

    fn faults(&self) -> u64 {
        self.faults
    }

    ghost counts_now = { λ disk moment image before left is. left };

    ghost only_now = { λ disk image left. left refl };
}
