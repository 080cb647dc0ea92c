// Where a flush stands, and how its stages bring it on.
ghost use Rattle.std.specs.Prelude.{◌≡◌, ◌≢◌, ◌<◌, ◌≤◌, true, IfSome, OnOk, OnErr, length, slice_index};
ghost use Rattle.hm_types.specs.Faults.{HasCause};
ghost use Rattle.hm_types.specs.Told.{BothTell};
ghost use Rattle.hm_disk.specs.Moments.{WriteElapses};
ghost use Rattle.hm_disk.specs.Transfer.{TornAll};
ghost use Rattle.hm_header.specs.Change.{IsNext, StageElapses, StageFailed};
ghost use Rattle.hm_header.specs.Range.{HasRoom, IsHeader};
ghost use Rattle.hm_pages.specs.Store.{contents};
ghost use Rattle.hm_flush.specs.declared.stage.Stage.TheVariants.{Freeze};
ghost use Rattle.hm_flush.specs.Calls.{AreFlushPlaces, FlushStands};
ghost use Rattle.hm_flush.specs.Device.{IsSaved};
ghost use Rattle.hm_flush.specs.Flush.{IsFlush, IsGroupOf, armed_header, begun_flush, due_change, committed_header, is_last};
ghost use Rattle.hm_flush.specs.Flush.{next_generation, header_to_write, tried};
ghost use Rattle.hm_flush.specs.Group.{group_of};
ghost use Rattle.hm_flush.specs.Stages.{IsNumbered, DueStageMade, armed, asks, committed};
ghost use Rattle.hm_flush.specs.Stages.{due_stage, moved_flush, range_of, undo_range};

use crate::change::{Change, change_header};
use crate::device::{place_page, save_page};
use crate::group::next_live;
use crate::stage::Stage;
use hm_disk::Disk;
use hm_header::Header;
use hm_pages::PageStore;
use hm_types::Failed;
use hm_undo::entry_at;

/// How far a flush has come, by what is due next.
#[derive(Clone, Copy, Debug, PartialEq, Eq)]
pub enum Position {
    /// No flush is in flight.
    Idle,
    /// The log has the old bytes of each live page before the one of this number.
    Undoing(u32),
    /// The log is settled; the header is changed to the one that names it.
    Arming(Change),
    /// The log can be recovered from, and the pages before the one of this number were placed.
    Placing(u32),
    /// The pages are settled; the header is changed to the one with the new state.
    Committing(Change),
}

/// A flush, or that none is in flight.
#[derive(Clone, Copy, Debug, PartialEq, Eq)]
pub struct Flush {
    /// The header that counts, and its slot, 0 or 1.
    pub header: Header,
    pub slot: u8,
    /// The header that Freeze was given: its version, last id, root and append big-blocks are to be committed.
    pub target: Header,
    pub at: Position,
    /// How many pages are frozen, and how many of them were live as committed.
    pub pages: u32,
    pub live: u32,
    /// How many entries of the log were written.
    pub written: u32,
}

impl Flush {
    /// The stage that is due.
    pub fn due(&self, pages: &PageStore) -> Stage
        requires sound { IsFlush self.now }
        requires group { IsGroupOf self.now (contents pages.now) }
        ensures value { result ≡ due_stage self.now (group_of (contents pages.now)) }
        ensures number { IsNumbered result self.now.pages }
    {
        match self.at {
            Position::Idle => Stage::Freeze,
            Position::Undoing(from) => {
                let next = next_live(pages, from, self.pages);
                if next < self.pages {
                    Stage::Undo(next)
                } else {
                    Stage::UndoSync
                }
            }
            Position::Arming(change) => Stage::Arm(change.number()),
            Position::Placing(i) if i < self.pages => Stage::Place(i),
            Position::Placing(_) => Stage::PlaceSync,
            Position::Committing(change) => Stage::Commit(change.number()),
        }
    }

    /// Does to the disk what the stage that is due does.
    pub fn make<D: Disk>(&self, stage: Stage, pages: &PageStore, disk: &mut D) -> Result<(), Failed>
        requires sound { IsFlush self.now }
        requires group { IsGroupOf self.now (contents pages.now) }
        requires places { AreFlushPlaces self.now.header.bigblocks (contents pages.now) }
        requires stands { IfSome (D.told disk.old) (FlushStands self.now) }
        requires due { stage ≡ due_stage self.now (group_of (contents pages.now)) }
        requires flight { stage ≢ Freeze }
        ensures ok { OnOk result (BothTell (D.told disk.old) (D.told disk.new)
            (DueStageMade self.now (group_of (contents pages.now)))) }
        ensures err { OnErr result (BothTell (D.told disk.old) (D.told disk.new)
            (StageFailed (asks self.now) (range_of self.now (group_of (contents pages.now))).0
            (range_of self.now (group_of (contents pages.now))).1)) }
        ensures any_moment { BothTell (D.told disk.old) (D.told disk.new)
            (StageElapses (asks self.now) (range_of self.now (group_of (contents pages.now))).0
            (range_of self.now (group_of (contents pages.now))).1
            (D.left_since disk.old) (D.left_since disk.new)) }
        ensures cause { HasCause (D.faults disk.old) (D.faults disk.new) result }
    {
        match stage {
            Stage::Freeze => Ok(()),
            Stage::Undo(i) => self.save(i, pages, disk),
            Stage::UndoSync | Stage::PlaceSync => disk.sync(),
            Stage::Place(i) => place_page(disk, pages, i),
            Stage::Arm(_) | Stage::Commit(_) => {
                change_header(
                    disk,
                    &self.header,
                    self.slot,
                    &self.next_header(),
                    self.change(),
                )
            }
        }
    }

    // Writes the old bytes of a frozen page into the next entry of the log.
    fn save<D: Disk>(&self, i: u32, pages: &PageStore, disk: &mut D) -> Result<(), Failed>
        requires sound { IsFlush self.now }
        requires i { i < length (contents pages.now).frozen_group }
        requires places { AreFlushPlaces self.now.header.bigblocks (contents pages.now) }
        requires room { IfSome (D.told disk.old) (λ t. HasRoom (length t.bytes) self.now.header.bigblocks) }
        ensures ok { OnOk result (BothTell (D.told disk.old) (D.told disk.new)
            (IsSaved (undo_range self.now).0 (next_generation self.now.header)
            (slice_index (contents pages.now).frozen_group i))) }
        ensures err { OnErr result (BothTell (D.told disk.old) (D.told disk.new)
            (TornAll (undo_range self.now).0 (undo_range self.now).1)) }
        ensures any_moment { BothTell (D.told disk.old) (D.told disk.new)
            (WriteElapses (undo_range self.now).0 (undo_range self.now).1
            (D.left_since disk.old) (D.left_since disk.new)) }
        ensures cause { HasCause (D.faults disk.old) (D.faults disk.new) result }
    {
        let entry = entry_at(self.header.undo_next, self.written);
        let generation = self.header.next_generation();
        save_page(
            disk,
            self.header.bigblocks,
            entry,
            generation,
            pages.frozen_place(i),
        )
    }

    // The header that the flush changes to next.
    fn next_header(&self) -> Header
        requires { IsFlush self.now }
        ensures value { result ≡ header_to_write self.now }
        ensures header { IsHeader result }
        ensures follows { IsNext self.now.header result }
    {
        match self.at {
            Position::Idle | Position::Undoing(_) | Position::Arming(_) => self.armed_header(),
            Position::Placing(_) | Position::Committing(_) => self.committed_header(),
        }
    }

    // The header that names the range of the log.
    fn armed_header(&self) -> Header
        requires { IsFlush self.now }
        ensures { result ≡ armed_header self.now.header self.now.written }
    {
        Header {
            generation: self.header.next_generation(),
            undo_first: self.header.undo_next,
            undo_count: self.written,
            undo_next: entry_at(self.header.undo_next, self.written),
            ..self.header
        }
    }

    // The header with the state that is to be committed, which names no range.
    fn committed_header(&self) -> Header
        ensures { result ≡ committed_header self.now.header self.now.target }
    {
        Header {
            generation: self.header.next_generation(),
            undo_count: 0,
            version: self.target.version,
            last: self.target.last,
            root: self.target.root,
            append: self.target.append,
            ..self.header
        }
    }

    // Which stage of the header change is due.
    fn change(&self) -> Change
        ensures { result ≡ due_change self.now.at }
    {
        match self.at {
            Position::Arming(change) | Position::Committing(change) => change,
            Position::Idle | Position::Undoing(_) | Position::Placing(_) => Change::Close,
        }
    }

    /// Whether the stage that is due ends the flush.
    pub fn is_last(&self) -> bool
        ensures { result ≡ is_last self.now.at }
    {
        matches!(self.at, Position::Committing(Change::Open { tried: _ }))
    }

    /// The flush of a group that was frozen, of so many pages, of which so many were live as committed.
    pub fn begun(&self, target: &Header, pages: u32, live: u32) -> Flush
        ensures { result ≡ begun_flush target.now pages live self.now }
    {
        Flush {
            header: self.header,
            slot: self.slot,
            target: *target,
            at: Position::Undoing(0),
            pages,
            live,
            written: 0,
        }
    }

    /// The flush as the stage that is due was tried: both headers may count after it opened a gate.
    pub fn tried(&self) -> Flush
        ensures { result ≡ tried self.now }
    {
        match self.at {
            Position::Arming(Change::Open { tried: _ }) => {
                self.with(Position::Arming(Change::Open { tried: true }))
            }
            Position::Committing(Change::Open { tried: _ }) => {
                self.with(Position::Committing(Change::Open { tried: true }))
            }
            _ => *self,
        }
    }

    /// The flush after this stage succeeded, which was due.
    pub fn moved(&self, stage: Stage) -> Flush
        requires sound { IsFlush self.now }
        requires number { IsNumbered stage self.now.pages }
        ensures { result ≡ moved_flush stage self.now }
    {
        match stage {
            Stage::Freeze => *self,
            Stage::Undo(i) => Flush {
                at: Position::Undoing(i + 1),
                written: self.written + 1,
                ..*self
            },
            Stage::UndoSync => self.with(Position::Arming(Change::Close)),
            Stage::Arm(_) => self.armed(),
            Stage::Place(i) => self.with(Position::Placing(i + 1)),
            Stage::PlaceSync => self.with(Position::Committing(Change::Close)),
            Stage::Commit(_) => self.committed(),
        }
    }

    // The flush at another position.
    fn with(&self, at: Position) -> Flush
        ensures { result ≡ record self.now { at = at } }
    {
        Flush { at, ..*self }
    }

    // The flush after a stage of Arm.
    fn armed(&self) -> Flush
        requires { IsFlush self.now }
        ensures { result ≡ armed (due_change self.now.at) self.now }
    {
        match self.change() {
            Change::Close => self.with(Position::Arming(Change::Write)),
            Change::Write => self.with(Position::Arming(Change::Open { tried: false })),
            Change::Open { tried: _ } => Flush {
                header: self.next_header(),
                slot: 1 - self.slot,
                at: Position::Placing(0),
                ..*self
            },
        }
    }

    // The flush after a stage of Commit.
    fn committed(&self) -> Flush
        requires { IsFlush self.now }
        ensures { result ≡ committed (due_change self.now.at) self.now }
    {
        match self.change() {
            Change::Close => self.with(Position::Committing(Change::Write)),
            Change::Write => self.with(Position::Committing(Change::Open { tried: false })),
            Change::Open { tried: _ } => Flush {
                header: self.next_header(),
                slot: 1 - self.slot,
                at: Position::Idle,
                ..*self
            },
        }
    }
}
