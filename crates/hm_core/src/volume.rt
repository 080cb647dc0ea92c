// One volume in use.
ghost use Rattle.std.specs.Prelude.{◌≡◌, ◌-◌, ◌≤◌, length, vec_capacity, vec_len};
ghost use Rattle.hm_stored.specs.Space.{heap};
ghost use Rattle.hm_core.specs.Caused.{IsCausedWith};
ghost use Rattle.hm_core.specs.Counts.{disk_counts};
ghost use Rattle.hm_core.specs.Inside.{IsInOrder};
ghost use Rattle.hm_core.specs.Numbers.{numbers_told};
ghost use Rattle.hm_core.specs.Running.{open_jobs};

use crate::calls::failure;
use crate::mounting::open_space;
use crate::numbers::numbers_by;
use crate::outcome::Outcome;
use crate::placed::answer_placed;
use crate::running::Running;
use crate::served::is_sync;
use crate::staged::Staged;
use crate::step::Step;
use crate::ticket::Ticket;
use hm_disk::Disk;
use hm_flush::{Flusher, Stage};
use hm_header::Header;
use hm_model::{Command, Entry, Reply};
use hm_recover::{OpenFault, Opened, recover};
use hm_stored::Stored;
use hm_types::{FULL_GROUP_PAGES, Fault, GREATEST_ID, Id, NoMemory};
use std::alloc::Global;

/// One volume in use on a disk, with the history of the run, and the two streams of the run, which it
/// only keeps.
///
/// The volume is read as it is mounted. Payloads are written at the call that makes them, where nothing
/// stood, and all else by a flush, stage by stage, between any two calls.
#[derive(Drop)]
pub struct Core<D: Disk, I, O> {
    pub(crate) alloc: Global,
    pub(crate) stored: Stored<D>,
    pub(crate) input: I,
    pub(crate) output: O,
    pub(crate) flusher: Flusher,
    pub(crate) last: Id,
    pub(crate) first: Id,
    pub(crate) free: u32,
    pub(crate) start: u64,
    pub(crate) history: Vec<Entry>,
    // All numbers of pseudo file systems below this one are used, as the history tells.
    pub(crate) numbers: u32,
    // The calls of housekeeping that are open. The history has a place for the ending of each.
    pub(crate) running: Vec<Running>,
    ghost placed: { length running.items ≤ vec_capacity history - vec_len history },
    ghost numbered: { numbers ≡ numbers_told history.items },
    ghost ordered: { ∥ IsInOrder flusher last.0 free (heap stored.space) history.items ∥₁ },
    ghost caused: { ∥ IsCausedWith first.0 (disk_counts start)
        (disk_counts (D.faults stored.space.disk)) last.0 (open_jobs running.items) history.items ∥₁ },
}

// How it is opened, and what its use ends with.
impl<D: Disk, I, O> Core<D, I, O> {
    ghost use Rattle.std.specs.Prelude.{◌≡◌, ◌≤◌, IfErr, IfOk};
    ghost use Rattle.hm_types.specs.Told.{BothTell};
    ghost use Rattle.hm_core.specs.Finished.{HandsBack};
    ghost use Rattle.hm_core.specs.Opened.{IsMounted, IsNotMounted, IsOpenCaused, MountsDisk};
    ghost use Rattle.hm_core.specs.Seen.{devices, seen};

    /// Opens the volume on a disk, and keeps two streams for it. Where the disk was cut off in a flush it
    /// is recovered first: the old pages that its header names are put back. Then it reads the freemap, the
    /// tree, and each inode, directory entry and record, and writes nothing. Of file bytes and of the targets
    /// of softlinks it checks the lengths.
    ///
    /// An error hands back the disk and the streams, and says why: that the disk has no volume, that a
    /// field of its header is out of range, the first damage of its UNDO entries, its freemap or its tree,
    /// a fault of the disk, or want of memory. What the disk recovers to stays the same.
    pub fn mount(
        alloc: Global,
        disk: D,
        input: I,
        output: O,
    ) -> Result<Core<D, I, O>, (D, I, O, OpenFault)>
        ensures ok { IfOk result (λ core. IsMounted (D.faults disk) (seen core)) }
        ensures disk { IfOk result (λ core. BothTell (D.told disk) (seen core).heap.disk
            (MountsDisk (seen core) (D.left_since disk) (D.left_since (devices core).disk))) }
        ensures streams { IfOk result (λ core. ((devices core).input ≡ input) × ((devices core).output ≡ output)) }
        ensures err { IfErr result (λ e. BothTell (D.told disk) (D.told e.0)
            (IsNotMounted e.3 (D.left_since disk) (D.left_since e.0))) }
        ensures back { IfErr result (λ e. (e.1 ≡ input) × (e.2 ≡ output)) }
        ensures cause { IfErr result (λ e. (D.faults disk ≤ D.faults e.0)
            × IsOpenCaused (D.faults disk) (D.faults e.0) e.3) }
    {
        let mut disk = disk;
        let Opened { header, slot } = match recover(&mut disk) {
            Ok(opened) => opened,
            Err(fault) => return Err((disk, input, output, fault)),
        };
        match open_space(alloc, disk, &header) {
            Ok((space, free)) => {
                let core = Core {
                    alloc,
                    input,
                    output,
                    flusher: Flusher::new(&header, slot),
                    last: header.last,
                    first: header.last,
                    free,
                    start: space.disk().faults(),
                    history: Vec::new(alloc),
                    numbers: 0,
                    running: Vec::new(alloc),
                    stored: Stored::over(space, header.root),
                };
                core.core_is_sound();
                Ok(core)
            }
            Err((disk, fault)) => Err((disk, input, output, OpenFault::Fault(fault))),
        }
    }

    /// Ends the use of the volume as it stands, and hands back the disk and the streams.
    pub fn into_devices(self) -> (D, I, O)
        ensures { HandsBack (devices self) result.0 result.1 result.2 }
    {
        let Core {
            stored,
            input,
            output,
            ..
        } = self;
        let (space, _root) = stored.into_parts();
        (space.into_disk(), input, output)
    }
}

// What it tells.
impl<D: Disk, I, O> Core<D, I, O> {
    ghost use Rattle.std.specs.Prelude.{◌≡◌, ◌≤◌, ◌<◌, OnErr, OnOk, Some, length, slice_get};
    ghost use Rattle.hm_core.specs.Core.{IsSoundCore};
    ghost use Rattle.hm_core.specs.Inside.{AreUpTo};
    ghost use Rattle.hm_core.specs.Seen.{devices, seen};

    /// Does nothing, and says what is so of every core.
    pub fn core_is_sound(&self)
        ensures { IsSoundCore (seen self.now) }
    {
        self.flusher.flush_is_sound();
        self.stored.pages_are_sound();
    }

    /// The last id that was drawn.
    pub fn last(&self) -> Id
        ensures { result.0 ≡ (seen self.now).last }
    {
        self.last
    }

    /// The last id that is committed: no reply told a later one as a boundary, and it is at most the last
    /// id.
    pub fn boundary(&self) -> Id
        ensures is { result.0 ≡ (seen self.now).boundary }
        ensures told { AreUpTo result.0 (seen self.now).history }
        ensures drawn { result.0 ≤ (seen self.now).last }
    {
        self.flusher.boundary()
    }

    /// The entry at this place of the history.
    pub fn entry(&self, place: usize) -> &Entry
        requires { place < length (seen self.now).history }
        ensures { slice_get (seen self.now).history place ≡ Some result.now }
    {
        &self.history[place]
    }

    /// Makes room for at least so many more entries. Where memory is refused, all is as before.
    pub fn reserve(&mut self, entries: u32) -> Result<(), NoMemory>
        ensures ok { OnOk result (entries ≤ (seen self.new).spare) }
        ensures err { OnErr result ((seen self.new).spare ≡ (seen self.old).spare) }
        ensures keeps { seen self.new ≡ record (seen self.old) { spare = (seen self.new).spare } }
        ensures streams { devices self.new ≡ devices self.old }
    {
        self.history.reserve(entries as usize + self.running.len())?;
        Ok(())
    }
}

// Its calls.
impl<D: Disk, I, O> Core<D, I, O> {
    ghost use Rattle.std.specs.Prelude.{◌≡◌, ◌≤◌, ◌↔◌, IsTrue};
    ghost use Rattle.hm_core.specs.Core.{Follows, LeavesDevices, LeavesHeld, NeedsFlush, Steps};
    ghost use Rattle.hm_core.specs.Live.{CallKeepsLive};
    ghost use Rattle.hm_core.specs.Replied.{RepliesExactly};
    ghost use Rattle.hm_core.specs.Chosen.{BeginsIfOpened, KeepChoices};
    ghost use Rattle.hm_core.specs.Seen.{choice_of, devices, seen};
    ghost use Rattle.hm_core.specs.Served.{IsAsked};

    /// Answers a call and enters it in the history, with the next id. Where no id is left, or the call
    /// must wait for a flush, it does nothing. The history must have room for two entries. `since` is
    /// the last id when the call began: a sync is answered once the boundary, which it tells, is no
    /// earlier. The opening of a prune or a reblock that is accepted leaves it open, and a place in the
    /// history for its ending. Where memory for what it keeps is refused, the call is. A reblock begins with
    /// each big-block of the pool to which no zone appends, and in which some bytes are live, but fewer than
    /// its FILL in a hundred.
    pub fn call(&mut self, lane: u8, line: u32, since: Id, command: Command) -> Step
        requires room { 2 ≤ (seen self.old).spare }
        requires since { since.0 ≤ (seen self.old).last }
        requires asked { IsAsked command }
        ensures steps { Steps (seen self.old) (seen self.new) lane line since.0 command result }
        ensures replied { RepliesExactly (seen self.old) (seen self.new) command result }
        ensures begins { BeginsIfOpened command (seen self.old).heap (λ opening. choice_of opening self.new) result }
        ensures choices { KeepChoices (λ opening. choice_of opening self.old) (λ opening. choice_of opening self.new)
            (seen self.old).running }
        ensures follows { Follows (D.left_since (devices self.old).disk) (D.left_since (devices self.new).disk)
            (seen self.old) (seen self.new) }
        ensures crashes { LeavesHeld (D.left_since (devices self.old).disk) (D.left_since (devices self.new).disk)
            (seen self.old) }
        ensures live { CallKeepsLive (seen self.old) (seen self.new) }
        ensures streams { LeavesDevices (devices self.old) (devices self.new) result }
    {
        self.core_is_sound();
        if self.last.0 == GREATEST_ID {
            return Step::Spent;
        }
        if self.must_flush(since, &command) {
            return Step::MustFlush(command);
        }
        let answered = answer_placed(
            self.alloc,
            &mut self.stored,
            &self.flusher,
            &mut self.running,
            &command,
            self.last,
            self.numbers,
        );
        let id = Id(self.last.0 + 1);
        let place = self.history.len();
        self.last = id;
        match answered {
            Outcome::Replied(reply) => {
                self.numbers = self.numbers.max(numbers_by(&command, &reply));
                self.history.push_reserved(Entry {
                    id,
                    lane,
                    line,
                    call: command,
                    reply,
                });
                self.core_is_sound();
                Step::Answered(place)
            }
            Outcome::Opened(work) => {
                let reply = Reply::Done;
                self.history.push_reserved(Entry {
                    id,
                    lane,
                    line,
                    call: command,
                    reply,
                });
                self.running.push_reserved(Running {
                    opening: id,
                    lane,
                    line,
                    work,
                });
                self.core_is_sound();
                Step::Opened(place, Ticket { opening: id })
            }
        }
    }

    // Whether a call waits for a flush.
    fn must_flush(&self, since: Id, command: &Command) -> bool
        ensures { IsTrue result ↔ NeedsFlush (seen self.now) since.0 command.now }
    {
        self.stored.space().group_len() >= FULL_GROUP_PAGES
            || (is_sync(command) && self.boundary().0 < since.0)
    }
}

// The stages of its flushes, between any two calls.
impl<D: Disk, I, O> Core<D, I, O> {
    ghost use Rattle.std.specs.Prelude.{◌≡◌, ◌≤◌, ◌↔◌, IfOk, IfSome, IsTrue};
    ghost use Rattle.hm_flush.specs.Calls.{HasStageCause, IsTarget};
    ghost use Rattle.hm_core.specs.Core.{Follows, GoesOnOverEach, KeepsStreams, LeavesHeld};
    ghost use Rattle.hm_core.specs.Finished.{IsCommittedOn};
    ghost use Rattle.hm_core.specs.Live.{StageKeepsLive};
    ghost use Rattle.hm_core.specs.Chosen.{KeepChoices};
    ghost use Rattle.hm_core.specs.Seen.{choice_of, devices, seen};
    ghost use Rattle.hm_core.specs.Served.{IsAsked};
    ghost use Rattle.hm_core.specs.Staged.{EndsBy, IsFlushed, IsStaged, KeepsTree, Settles, Stages, header_now};

    /// Makes one stage of a flush for a call that waits for it. Where none is in flight, one begins with
    /// the state of now. A stage that fails changes nothing but its own range of the disk, and is made
    /// again next time; the call is refused with the fault, by the next id. The history must have room
    /// for two entries.
    pub fn flush_stage(&mut self, lane: u8, line: u32, command: Command) -> Staged
        requires room { 2 ≤ (seen self.old).spare }
        requires asked { IsAsked command }
        ensures stages { Stages (seen self.old) (seen self.new) lane line command result }
        ensures choices { KeepChoices (λ opening. choice_of opening self.old) (λ opening. choice_of opening self.new)
            (seen self.old).running }
        ensures follows { Follows (D.left_since (devices self.old).disk) (D.left_since (devices self.new).disk)
            (seen self.old) (seen self.new) }
        ensures crashes { LeavesHeld (D.left_since (devices self.old).disk) (D.left_since (devices self.new).disk)
            (seen self.old) }
        ensures live { StageKeepsLive (seen self.old) (seen self.new) }
        ensures streams { KeepsStreams (devices self.old) (devices self.new) }
    {
        match self.make_stage() {
            Ok(_) => Staged::More(command),
            Err(_) if self.last.0 == GREATEST_ID => Staged::Spent,
            Err(fault) => {
                let id = Id(self.last.0 + 1);
                let place = self.history.len();
                self.last = id;
                self.history.push_reserved(Entry {
                    id,
                    lane,
                    line,
                    call: command,
                    reply: failure(fault),
                });
                self.core_is_sound();
                Staged::Refused(place)
            }
        }
    }

    /// Makes one stage of the last flush, unless all is committed: `true` exactly where the boundary is
    /// the last id, and no flush is in flight. Then the disk stands for the volume. A stage that fails is
    /// made again next time: `Media` where the disk failed, and `NoMemory` as a group is frozen.
    pub fn end_stage(&mut self) -> Result<bool, Fault>
        ensures ends { EndsBy (seen self.old) (seen self.new) result }
        ensures choices { KeepChoices (λ opening. choice_of opening self.old) (λ opening. choice_of opening self.new)
            (seen self.old).running }
        ensures follows { Follows (D.left_since (devices self.old).disk) (D.left_since (devices self.new).disk)
            (seen self.old) (seen self.new) }
        ensures crashes { LeavesHeld (D.left_since (devices self.old).disk) (D.left_since (devices self.new).disk)
            (seen self.old) }
        ensures live { StageKeepsLive (seen self.old) (seen self.new) }
        ensures committed { IfOk result (λ all. IsTrue all →
            IfSome (seen self.new).heap.disk (IsCommittedOn (seen self.new))) }
        ensures streams { KeepsStreams (devices self.old) (devices self.new) }
        ensures cause { HasStageCause (seen self.old).flush.at (seen self.old).counts.disk
            (seen self.new).counts.disk result }
    {
        if self.is_flushed() {
            self.core_is_sound();
            return Ok(true);
        }
        self.make_stage()?;
        Ok(self.is_flushed())
    }

    // Makes the stage that is due. The core goes on also as if no fault had been counted meanwhile: so the
    // call for which it was made can be refused with one.
    pub(crate) fn make_stage(&mut self) -> Result<Stage, Fault>
        ensures stage { IsStaged (seen self.old) (seen self.new) result }
        ensures running { self.new.running ≡ self.old.running }
        ensures tree { KeepsTree (seen self.old) (seen self.new) }
        ensures follows { Follows (D.left_since (devices self.old).disk) (D.left_since (devices self.new).disk)
            (seen self.old) (seen self.new) }
        ensures uncounted { GoesOnOverEach (D.left_since (devices self.old).disk) (D.left_since (devices self.new).disk)
            (seen self.old) (record (seen self.new) { counts = (seen self.old).counts }) }
        ensures crashes { LeavesHeld (D.left_since (devices self.old).disk) (D.left_since (devices self.new).disk)
            (seen self.old) }
        ensures live { StageKeepsLive (seen self.old) (seen self.new) }
        ensures settled { IfOk result (λ _. Settles (seen self.new)) }
        ensures streams { KeepsStreams (devices self.old) (devices self.new) }
        ensures cause { HasStageCause (seen self.old).flush.at (seen self.old).counts.disk
            (seen self.new).counts.disk result }
    {
        let now = self.header_now();
        let result = self.stored.flush_stage(&mut self.flusher, &now);
        self.core_is_sound();
        result
    }

    // Whether all that was answered is committed. Then the disk stands for the volume.
    fn is_flushed(&self) -> bool
        ensures is { IsTrue result ↔ IsFlushed (seen self.now) }
        ensures committed { IsTrue result → IfSome (seen self.now).heap.disk (IsCommittedOn (seen self.now)) }
    {
        self.flusher.flush_is_sound();
        self.flusher.is_idle() && self.flusher.boundary() == self.last
    }

    // The header of the state of now.
    fn header_now(&self) -> Header
        ensures value { result ≡ header_now (seen self.now) }
        ensures target { IsTarget (seen self.now).flush result }
    {
        self.flusher.flush_is_sound();
        self.stored.changes_are_placed();
        Header {
            last: self.last,
            root: self.stored.root(),
            append: self.stored.space().append(),
            ..*self.flusher.header()
        }
    }
}
