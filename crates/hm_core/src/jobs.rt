// The units of open calls of housekeeping, and their endings.
ghost use Rattle.std.specs.Prelude.{◌≡◌, IfErr, IfNone, IfOk, IfSome};
ghost use Rattle.hm_types.specs.Space.{IfNoSpace};
ghost use Rattle.hm_core.specs.Told.{reply_to_stop};

use crate::calls::failure;
use crate::running::close;
use crate::ticket::{Ticket, UnitEnd};
use crate::volume::Core;
use crate::work::work_over;
use hm_disk::Disk;
use hm_key::Progress;
use hm_model::{Command, Entry, Reply};
use hm_types::{FULL_GROUP_PAGES, GREATEST_ID, Id, SpaceFault};

impl<D: Disk, I, O> Core<D, I, O> {
    ghost use Rattle.hm_core.specs.Core.{Follows, GoesOnOverEach, KeepsStreams, LeavesHeld};
    ghost use Rattle.hm_core.specs.Jobs.{DoesUnit, DoesWork, GetsOnIfMore, HasWorked, IsOpenJob, LacksBy};
    ghost use Rattle.hm_core.specs.Jobs.{UnitKeepsLive, Units, WorksByUnit};
    ghost use Rattle.hm_core.specs.Live.{CallKeepsLive};
    ghost use Rattle.hm_core.specs.Running.{place_among};
    ghost use Rattle.hm_core.specs.Chosen.{KeepOtherChoices, LeavesAt, LeavesBy};
    ghost use Rattle.hm_core.specs.Seen.{choice_of, devices, progress_of, seen};
    ghost use Rattle.hm_core.specs.Unit.{LacksForChoice};

    /// Does one unit of the call that a ticket names, which must be open; or makes one stage of a flush,
    /// where the group of changed pages is full. Nothing else is written than what that writes. There is
    /// more to do only where that stage was made or, in a core whose space holds a volume, the unit got
    /// on. That of a prune came further, or an element went or was moved. That of a reblock came further
    /// with the payloads, moved one or left none of them in its choice, moved a node out of it, or turned
    /// to the nodes.
    ///
    /// Where the call comes to its end, its ending is entered by the next id, with the lane and the line
    /// of its opening; it has its place in the history. `Finished` tells that nothing is left that is
    /// dead for what a prune keeps, and that the choice of a reblock is empty. A unit or stage that fails
    /// ends the call too: its reply tells the fault, what that unit changed is dropped, and the units
    /// before it stand. So does a unit of a reblock that needs a big-block where none is free: `NoSpace`. Where
    /// the space holds a volume, it needs that in a zone where something of its choice stands: a node of the
    /// tree, or a payload.
    pub fn job_unit(&mut self, ticket: Ticket) -> UnitEnd
        requires runs { IsOpenJob ticket.opening.0 (seen self.old) }
        ensures units { Units ticket.opening.0 (seen self.old) (seen self.new) result }
        ensures work { WorksByUnit ticket.opening.0
            (progress_of ticket.opening.0 self.old) (progress_of ticket.opening.0 self.new)
            (choice_of ticket.opening.0 self.old) (choice_of ticket.opening.0 self.new) (seen self.old) (seen self.new) result }
        ensures others { KeepOtherChoices ticket.opening.0 (λ id. choice_of id self.old) (λ id. choice_of id self.new)
            (seen self.old).running }
        ensures follows { Follows (D.left_since (devices self.old).disk) (D.left_since (devices self.new).disk)
            (seen self.old) (seen self.new) }
        ensures crashes { LeavesHeld (D.left_since (devices self.old).disk) (D.left_since (devices self.new).disk)
            (seen self.old) }
        ensures live { UnitKeepsLive (seen self.old) (seen self.new) }
        ensures size { (seen self.new).flush.header.bigblocks ≡ (seen self.old).flush.header.bigblocks }
        ensures streams { KeepsStreams (devices self.old) (devices self.new) }
    {
        let Some(reply) = self.work(ticket.opening) else {
            return UnitEnd::More(ticket);
        };
        let opening = ticket.opening;
        let at = self.place_of(opening);
        let open = &self.running[at];
        let (lane, line) = (open.lane, open.line);
        close(&mut self.running, opening);
        if self.last.0 == GREATEST_ID {
            self.core_is_sound();
            return UnitEnd::Spent;
        }
        let id = Id(self.last.0 + 1);
        let place = self.history.len();
        self.last = id;
        self.history.push_reserved(Entry {
            id,
            lane,
            line,
            call: Command::End { opening },
            reply,
        });
        self.core_is_sound();
        UnitEnd::Ended(place)
    }

    // Does a unit, or makes a stage, and answers the reply of the ending that is due then. The core goes
    // on also as if no fault had been counted meanwhile: so the ending can tell one.
    fn work(&mut self, opening: Id) -> Option<Reply>
        requires runs { IsOpenJob opening.0 (seen self.old) }
        ensures works { DoesWork opening.0 (seen self.old) (seen self.new) result }
        ensures more { IfNone result (HasWorked opening.0 (progress_of opening.0 self.old) (progress_of opening.0 self.new)
            (choice_of opening.0 self.old) (choice_of opening.0 self.new) (seen self.old) (seen self.new)) }
        ensures choice { LeavesBy (choice_of opening.0 self.old) (choice_of opening.0 self.new)
            (seen self.old).heap (seen self.new).heap result }
        ensures space { IfSome result (LacksBy (choice_of opening.0 self.old) (seen self.old)) }
        ensures others { KeepOtherChoices opening.0 (λ id. choice_of id self.old) (λ id. choice_of id self.new)
            (seen self.old).running }
        ensures follows { Follows (D.left_since (devices self.old).disk) (D.left_since (devices self.new).disk)
            (seen self.old) (seen self.new) }
        ensures uncounted { GoesOnOverEach (D.left_since (devices self.old).disk) (D.left_since (devices self.new).disk)
            (seen self.old) (record (seen self.new) { counts = (seen self.old).counts }) }
        ensures crashes { LeavesHeld (D.left_since (devices self.old).disk) (D.left_since (devices self.new).disk)
            (seen self.old) }
        ensures live { UnitKeepsLive (seen self.old) (seen self.new) }
        ensures size { (seen self.new).flush.header.bigblocks ≡ (seen self.old).flush.header.bigblocks }
        ensures streams { KeepsStreams (devices self.old) (devices self.new) }
    {
        if self.stored.space().group_len() >= FULL_GROUP_PAGES {
            return match self.make_stage() {
                Ok(_) => None,
                Err(fault) => Some(failure(fault)),
            };
        }
        match self.do_unit(opening) {
            Ok(Progress::More) => None,
            Ok(Progress::Done) => Some(Reply::Finished),
            Err(fault) => Some(stop_reply(fault)),
        }
    }

    // Does a unit.
    fn do_unit(&mut self, opening: Id) -> Result<Progress, SpaceFault>
        requires runs { IsOpenJob opening.0 (seen self.old) }
        ensures does { DoesUnit opening.0 (seen self.old) (seen self.new) result }
        ensures more { IfOk result (GetsOnIfMore opening.0 (progress_of opening.0 self.old) (progress_of opening.0 self.new)
            (choice_of opening.0 self.old) (choice_of opening.0 self.new) (seen self.old) (seen self.new)) }
        ensures choice { IfOk result (LeavesAt (choice_of opening.0 self.old) (choice_of opening.0 self.new)
            (seen self.old).heap (seen self.new).heap) }
        ensures space { IfErr result (IfNoSpace (LacksForChoice (choice_of opening.0 self.old) (seen self.old).last
            (seen self.old).heap (seen self.old).root)) }
        ensures others { KeepOtherChoices opening.0 (λ id. choice_of id self.old) (λ id. choice_of id self.new)
            (seen self.old).running }
        ensures follows { Follows (D.left_since (devices self.old).disk) (D.left_since (devices self.new).disk)
            (seen self.old) (seen self.new) }
        ensures uncounted { GoesOnOverEach (D.left_since (devices self.old).disk) (D.left_since (devices self.new).disk)
            (seen self.old) (record (seen self.new) { counts = (seen self.old).counts }) }
        ensures crashes { LeavesHeld (D.left_since (devices self.old).disk) (D.left_since (devices self.new).disk)
            (seen self.old) }
        ensures live { CallKeepsLive (seen self.old) (seen self.new) }
        ensures streams { KeepsStreams (devices self.old) (devices self.new) }
    {
        self.core_is_sound();
        let at = self.place_of(opening);
        let result = work_over(&mut self.stored, &mut self.running[at].work, self.last);
        self.core_is_sound();
        result
    }

    // The place of the call with this opening id among those that are open, or their number where it is
    // none of them.
    fn place_of(&self, opening: Id) -> usize
        ensures { result ≡ place_among opening.0 self.now.running.items }
    {
        let mut place = 0;
        while place < self.running.len() && self.running[place].opening != opening {
            place += 1;
        }
        place
    }
}

// The reply that tells why a unit stopped.
fn stop_reply(fault: SpaceFault) -> Reply
    ensures { result ≡ reply_to_stop fault }
{
    match fault {
        SpaceFault::NoSpace { free, needed } => Reply::NoSpace { free, needed },
        SpaceFault::Fault(fault) => failure(fault),
    }
}
