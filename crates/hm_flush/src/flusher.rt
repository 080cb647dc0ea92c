// The flusher: the header that counts, and the flush that is in flight.
ghost use Rattle.std.specs.Prelude.{◌≡◌, ◌≢◌, ◌≤◌, ◌↔◌, IfOk, IfErr, IfSome, IsTrue, OnOk, OnErr};
ghost use Rattle.hm_types.specs.Told.{BothTell};
ghost use Rattle.hm_types.specs.declared.fault.Fault.TheVariants.{NoMemory};
ghost use Rattle.hm_disk.specs.Crash.{Told};
ghost use Rattle.hm_header.specs.declared.header.Header.{Header};
ghost use Rattle.hm_header.specs.Change.{StageElapses, StageFailed};
ghost use Rattle.hm_header.specs.Range.{IsHeader};
ghost use Rattle.hm_pages.specs.Store.{contents};
ghost use Rattle.hm_flush.specs.declared.flush.Position.TheVariants.{Idle};
ghost use Rattle.hm_flush.specs.Calls.{HasStageCause, IsFlushReady, IsTarget, StageSucceeds, PagesMove, FlushStands, StageFails};
ghost use Rattle.hm_flush.specs.Ends.{StageEnds, StageTells};
ghost use Rattle.hm_flush.specs.Flush.{IsFlush, IsGroupOf, idle_flush};
ghost use Rattle.hm_flush.specs.Group.{group_of};
ghost use Rattle.hm_flush.specs.Guard.{ElapsesRecoverable, Guards, GuardsOn};
ghost use Rattle.hm_flush.specs.Stages.{DueStageMade, asks, range_of};

use crate::flush::{Flush, Position};
use crate::group::count_live;
use crate::stage::Stage;
use hm_disk::{Disk, disk_fault};
use hm_header::Header;
use hm_pages::{PageStore, store_is_sound};
use hm_types::{Failed, Fault, Id};
use std::marker::Model;

/// What brings frozen groups onto a disk, one stage a call. It holds the header that counts and how far
/// the flush in flight has come, as plain data, and no page.
#[derive(Drop)]
pub struct Flusher {
    flush: Flush,
}

impl Model for Flusher {
    ghost use Rattle.hm_flush.specs.declared.flush.Flush.{Flush};

    ghost Value = { Flush };

    ghost use Rattle.hm_flush.specs.Flush.{IsFlush};

    ghost view = { λ a. a.flush };

    ghost invariant = { λ a. IsFlush a.flush };
}

impl Flusher {
    /// For the header that counts, in this slot, 0 or 1. No flush is in flight.
    pub fn new(header: &Header, slot: u8) -> Flusher
        requires header { IsHeader header.now }
        requires slot { slot ≤ 1 }
        ensures { result ≡ idle_flush header.now slot }
    {
        Flusher {
            flush: Flush {
                header: *header,
                slot,
                target: *header,
                at: Position::Idle,
                pages: 0,
                live: 0,
                written: 0,
            },
        }
    }

    /// The boundary that is committed: the last id of the header that counts.
    pub fn boundary(&self) -> Id
        ensures { result ≡ self.now.header.last }
    {
        self.flush.header.last
    }

    /// The header that counts.
    pub fn header(&self) -> &Header
        ensures { result.now ≡ self.now.header }
    {
        &self.flush.header
    }

    /// Whether no flush is in flight.
    pub fn is_idle(&self) -> bool
        ensures { IsTrue result ↔ (self.now.at ≡ Idle) }
    {
        self.flush.at == Position::Idle
    }

    /// Does nothing, and says what always holds of a flush.
    pub fn flush_is_sound(&self)
        ensures { IsFlush self.now }
    {
        let _ = &self.flush;
    }

    /// Makes the stage that is due, and answers which. Where no flush is in flight this is Freeze, which
    /// takes the version, the last id, the root and the append big-blocks of `now`; no other stage reads
    /// it. No call may be open in `pages`. After a fault all is as before but for the range that the
    /// stage writes, and the same stage is due: `Media` where the disk failed, and at Freeze `NoMemory`.
    pub fn stage<D: Disk>(
        &mut self,
        pages: &mut PageStore,
        disk: &mut D,
        now: &Header,
    ) -> Result<Stage, Fault>
        requires now { IsTarget self.old now.now }
        requires ready { IsFlushReady self.old (contents pages.old) }
        requires stands { IfSome (D.told disk.old) (FlushStands self.old) }
        ensures ends { StageEnds now.now self.old self.new (contents pages.old) (contents pages.new) result }
        ensures disk { BothTell (D.told disk.old) (D.told disk.new)
            (StageTells self.old self.new (contents pages.old) (contents pages.new) result
            (D.left_since disk.old) (D.left_since disk.new)) }
        ensures stands { IfSome (D.told disk.new) (FlushStands self.new) }
        ensures cause { HasStageCause self.old.at (D.faults disk.old) (D.faults disk.new) result }
    {
        if self.flush.at == Position::Idle {
            self.freeze(pages, now)
        } else {
            self.go_on(pages, disk)
        }
    }

    // Freezes the current group, and begins its flush.
    fn freeze(&mut self, pages: &mut PageStore, now: &Header) -> Result<Stage, Fault>
        requires idle { self.old.at ≡ Idle }
        requires now { IsTarget self.old now.now }
        requires ready { IsFlushReady self.old (contents pages.old) }
        ensures ok { IfOk result (λ stage. StageSucceeds now.now stage self.old self.new
            (contents pages.old) (contents pages.new)) }
        ensures err { OnErr result (StageFails self.old self.new (contents pages.old) (contents pages.new)) }
        ensures guards { (t : Told) → Guards self.old (contents pages.old) t →
            Guards self.new (contents pages.new) t }
        ensures fault { IfErr result (λ fault. fault ≡ NoMemory) }
    {
        store_is_sound(pages);
        pages.freeze(now.last)?;
        store_is_sound(pages);
        let live = count_live(pages);
        self.flush = self.flush.begun(now, pages.frozen_len(), live);
        Ok(Stage::Freeze)
    }

    // Makes the stage that is due of the flush in flight.
    fn go_on<D: Disk>(&mut self, pages: &mut PageStore, disk: &mut D) -> Result<Stage, Fault>
        requires flight { self.old.at ≢ Idle }
        requires ready { IsFlushReady self.old (contents pages.old) }
        requires stands { IfSome (D.told disk.old) (FlushStands self.old) }
        ensures ok { (now : Header) → IfOk result (λ stage. StageSucceeds now stage self.old self.new
            (contents pages.old) (contents pages.new)) }
        ensures err { OnErr result (StageFails self.old self.new (contents pages.old) (contents pages.new)) }
        ensures made { OnOk result (BothTell (D.told disk.old) (D.told disk.new)
            (DueStageMade self.old (group_of (contents pages.old)))) }
        ensures failed { OnErr result (BothTell (D.told disk.old) (D.told disk.new)
            (StageFailed (asks self.old) (range_of self.old (group_of (contents pages.old))).0
            (range_of self.old (group_of (contents pages.old))).1)) }
        ensures any_moment { BothTell (D.told disk.old) (D.told disk.new)
            (StageElapses (asks self.old) (range_of self.old (group_of (contents pages.old))).0
            (range_of self.old (group_of (contents pages.old))).1
            (D.left_since disk.old) (D.left_since disk.new)) }
        ensures stands { IfSome (D.told disk.new) (FlushStands self.new) }
        ensures guards { BothTell (D.told disk.old) (D.told disk.new)
            (GuardsOn self.old (contents pages.old) self.new (contents pages.new)) }
        ensures recoverable { BothTell (D.told disk.old) (D.told disk.new)
            (ElapsesRecoverable self.old (contents pages.old)
            (D.left_since disk.old) (D.left_since disk.new)) }
        ensures cause { HasStageCause self.old.at (D.faults disk.old) (D.faults disk.new) result }
    {
        store_is_sound(pages);
        let flush = self.flush;
        let stage = flush.due(pages);
        let before = disk.faults();
        match flush.make(stage, pages, disk) {
            Ok(()) => {
                commit_last(&flush, pages);
                self.flush = flush.moved(stage);
                Ok(stage)
            }
            Err(Failed) => {
                self.flush = flush.tried();
                Err(disk_fault(disk, before))
            }
        }
    }
}

// Makes the frozen pages the committed ones, where the stage that was due ends the flush.
fn commit_last(flush: &Flush, pages: &mut PageStore)
    requires flight { flush.now.at ≢ Idle }
    requires group { IsGroupOf flush.now (contents pages.old) }
    ensures { (now : Header) → PagesMove flush.now.at now (contents pages.old) (contents pages.new) }
{
    if flush.is_last() {
        pages.commit();
    }
}
