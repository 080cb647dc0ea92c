// A volume in use by lines, whose replies are told as a run prints them.
ghost use Rattle.std.specs.Prelude.{◌≡◌, filter};
ghost use Rattle.hm_core.specs.Seen.{seen};
ghost use Rattle.hm_core_tests.specs.Tests.{NameOpenCalls, is_other};

use crate::lines::{call_of, spelled};
use crate::shown::Shown;
use crate::test_disk::TestDisk;
use crate::volume::{Volume, finished, mounted, stopped, up_to};
use hm_core::{Staged, Step, Ticket, UnitEnd};
use hm_model::{Entry, push_answer};
use hm_types::{Id, NoMemory};
use std::alloc::Global;
use std::process::Abort;

// No line of these tests waits for more stages, and no prune or reblock has more units.
const MOST_WAITS: u32 = 8_192;

// The volume, and the tickets of the calls that its lines have opened, in the order of their openings.
#[derive(Drop)]
pub struct Run {
    core: Volume,
    tickets: Vec<Ticket>,
    ghost named: { NameOpenCalls (seen core) tickets.items },
}

impl Run {
    pub fn new(rt: &impl Abort, alloc: Global, disk: TestDisk) -> Run {
        Run {
            core: mounted(rt, alloc, disk),
            tickets: Vec::new(alloc),
        }
    }

    pub fn last(&self) -> Id {
        self.core.last()
    }

    pub fn boundary(&self) -> Id {
        self.core.boundary()
    }

    // How many open calls it has tickets of.
    pub fn open(&self) -> usize {
        self.tickets.len()
    }

    // Makes a stage of the flush, which is not the last that is to be made.
    pub fn stage(&mut self, rt: &impl Abort) {
        assert_eq!(rt; self.core.end_stage(), Ok(false));
    }

    // Tries a line once that began with this last id, and makes a stage for it where it waits. Once it is answered,
    // what a run prints of it.
    fn answer(
        &mut self,
        rt: &impl Abort,
        alloc: Global,
        since: Id,
        line: &str,
    ) -> Result<Option<Vec<u8>>, NoMemory> {
        self.core.reserve(2)?;
        let since = up_to(since, self.core.last());
        match self.core.call(0, 1, since, call_of(rt, alloc, line)?) {
            Step::Answered(place) => Ok(Some(printed(alloc, self.core.entry(place))?)),
            Step::Opened(place, ticket) => {
                self.tickets.push(ticket)?;
                Ok(Some(printed(alloc, self.core.entry(place))?))
            }
            Step::MustFlush(back) => match self.core.flush_stage(0, 1, back) {
                Staged::More(_) => Ok(None),
                Staged::Refused(place) => Ok(Some(printed(alloc, self.core.entry(place))?)),
                Staged::Spent => Ok(Some(spent(alloc)?)),
            },
            Step::Spent => Ok(Some(spent(alloc)?)),
        }
    }

    // Answers a line, and makes the stages for which it waits. The ticket of a call that it opens is the last one.
    pub fn ask(&mut self, rt: &impl Abort, alloc: Global, line: &str) -> Result<Vec<u8>, NoMemory> {
        let spelled = spelled(alloc, line)?;
        let Ok(line) = str::from_utf8(&spelled) else {
            panic!(rt; "{line}");
        };
        let since = self.core.last();
        for _ in 0..MOST_WAITS {
            if let Some(text) = self.answer(rt, alloc, since, line)? {
                return Ok(text);
            }
        }
        panic!(rt; "{line} waits")
    }

    // Does a unit of one of its open calls. Where there is more to do its ticket is the last one then. Else it tells the
    // ending, and has the ticket no more.
    pub fn unit(
        &mut self,
        rt: &impl Abort,
        alloc: Global,
        index: usize,
    ) -> Result<Option<Vec<u8>>, NoMemory> {
        assert!(rt; index < self.tickets.len());
        let ticket = self.tickets.remove(index);
        let opening = ticket.opening();
        match self.core.job_unit(ticket) {
            UnitEnd::More(ticket) => {
                self.tickets.push(ticket)?;
                Ok(None)
            }
            UnitEnd::Ended(place) => {
                close(&mut self.tickets, opening);
                Ok(Some(printed(alloc, self.core.entry(place))?))
            }
            UnitEnd::Spent => {
                close(&mut self.tickets, opening);
                Ok(Some(spent(alloc)?))
            }
        }
    }

    // Drops the ticket of one of its open calls.
    pub fn forget(&mut self, rt: &impl Abort, index: usize) {
        assert!(rt; index < self.tickets.len());
        drop(self.tickets.remove(index));
    }

    // Does all units of one of its open calls: how many, and its ending.
    pub fn end(
        &mut self,
        rt: &impl Abort,
        alloc: Global,
        index: usize,
    ) -> Result<(u32, Vec<u8>), NoMemory> {
        let mut at = index;
        for before in 0..MOST_WAITS {
            if let Some(ending) = self.unit(rt, alloc, at)? {
                return Ok((before.saturating_add(1), ending));
            }
            at = self.tickets.len().saturating_sub(1);
        }
        panic!(rt; "the call does not end")
    }

    // Answers a line as a run does, which does all units of a call that it opens, and prints its opening and its
    // ending together.
    pub fn line(
        &mut self,
        rt: &impl Abort,
        alloc: Global,
        line: &str,
    ) -> Result<Vec<u8>, NoMemory> {
        let before = self.tickets.len();
        let mut text = self.ask(rt, alloc, line)?;
        if before < self.tickets.len() {
            let (_, ending) = self.end(rt, alloc, before)?;
            text.push(b' ')?;
            text.extend_from_slice(&ending)?;
        }
        Ok(text)
    }

    // A line is answered so, whatever its id. A call that it opens stays open.
    pub fn asks(
        &mut self,
        rt: &impl Abort,
        alloc: Global,
        line: &str,
        want: &str,
    ) -> Result<(), NoMemory> {
        let got = self.ask(rt, alloc, line)?;
        is_text(rt, alloc, reply_in(&got), want, line)
    }

    // Each line prints what stands beside it.
    pub fn prints(
        &mut self,
        rt: &impl Abort,
        alloc: Global,
        rows: &[(&str, &str)],
    ) -> Result<(), NoMemory> {
        for (line, want) in rows {
            let got = self.line(rt, alloc, line)?;
            is_text(rt, alloc, &got, want, line)?;
        }
        Ok(())
    }

    // Each line answers this, whatever its id.
    pub fn replies(
        &mut self,
        rt: &impl Abort,
        alloc: Global,
        rows: &[(&str, &str)],
    ) -> Result<(), NoMemory> {
        for (line, want) in rows {
            let got = self.line(rt, alloc, line)?;
            is_text(rt, alloc, reply_in(&got), want, line)?;
        }
        Ok(())
    }

    // Another volume has shown this. The tickets are dropped.
    pub fn shows(self, rt: &impl Abort, alloc: Global, shown: &Shown) -> Result<Run, NoMemory> {
        let Run { core, .. } = self;
        let mut core = core;
        shown.is_of(rt, alloc, &mut core)?;
        Ok(Run {
            core,
            tickets: Vec::new(alloc),
        })
    }

    // Ends the use of the volume, and gives its disk.
    pub fn finished(self, rt: &impl Abort) -> TestDisk {
        let Run { core, .. } = self;
        finished(rt, core)
    }

    // Gives its disk as it stands.
    pub fn stopped(self, rt: &impl Abort) -> TestDisk {
        let Run { core, .. } = self;
        stopped(rt, core)
    }
}

// Takes out the ticket of the call with this opening id.
fn close(tickets: &mut Vec<Ticket>, opening: Id)
    ensures { tickets.new.items ≡ filter (is_other opening.0) tickets.old.items }
{
    tickets.retain(|other| other.opening() != opening);
}

// What a run prints of an entry.
fn printed(alloc: Global, entry: &Entry) -> Result<Vec<u8>, NoMemory> {
    let mut text = format!(in alloc; "{} ", entry.id)?.into_bytes();
    push_answer(alloc, &mut text, &entry.call, &entry.reply)?;
    Ok(text)
}

// What it prints where no id is left.
fn spent(alloc: Global) -> Result<Vec<u8>, NoMemory> {
    Ok(Vec::from_slice(alloc, b"- ids spent")?)
}

// The reply in what a run prints of a call, behind its id.
fn reply_in(printed: &[u8]) -> &[u8] {
    for (place, byte) in printed.iter().enumerate() {
        if *byte == b' ' {
            return printed.get(place.saturating_add(1)..).unwrap_or(printed);
        }
    }
    printed
}

// A text is the one that is spelled so.
pub fn is_text(
    rt: &impl Abort,
    alloc: Global,
    got: &[u8],
    want: &str,
    of: &str,
) -> Result<(), NoMemory> {
    let want = spelled(alloc, want)?;
    if got != &want[..] {
        match (str::from_utf8(got), str::from_utf8(&want)) {
            (Ok(got), Ok(want)) => panic!(rt; "{of}: {got}, and not {want}"),
            _ => panic!(rt; "{of}"),
        }
    }
    Ok(())
}
