// The lines of a script, run one after another.
ghost use Rattle.std.specs.Prelude.{◌≡◌, ◌*◌, ◌≤◌, [], IfErr, OnErr, OnOk, All, length};
ghost use Rattle.hm_types.specs.declared.limits.TheConstants.{MOST_SCRIPT_LINES};
ghost use Rattle.hm_core.specs.Core.{Follows, KeepsStreams};
ghost use Rattle.hm_core.specs.Jobs.{IsOpenJob};
ghost use Rattle.hm_core.specs.Seen.{devices as devices_of, seen as seen_core};
ghost use Rattle.hm_core.specs.Served.{IsAsked};
ghost use Rattle.hm_shell.specs.Lines.{NumbersRise, IsServedLine};
ghost use Rattle.hm_shell.specs.Running.{IsOutCause};
ghost use Rattle.hm_shell.specs.Seen.{seen};
ghost use Rattle.hm_shell.specs.Serving.{CallsLine, EndsOrLacks, IsUncommitted, KeepsSize};
ghost use Rattle.hm_shell.specs.Serving.{Served, ServedInPart, ServesLine, StoppedServing};

use crate::print::{print_ended, print_entry, print_spent, print_unended};
use crate::stop::RunStop;
use hm_core::{Core, Staged, Step, Ticket, UnitEnd};
use hm_disk::Disk;
use hm_model::{Command, Line};
use hm_pipe::Sink;
use hm_types::GREATEST_ID;
use std::alloc::Global;
use std::sync::Wait;

/// What calling a line came to.
#[derive(Drop)]
enum Called {
    /// It was answered, and opened nothing. Its entry stands at this place of the history.
    Closed(usize),
    /// It is an opening that was accepted, with its entry at this place of the history.
    Opened(usize, Ticket),
    /// No id was left for it.
    Spent,
}

/// Makes room for two entries a line, and then runs the lines in their order. Each reply is printed
/// before the next line is run.
pub(crate) fn serve_script<W: Wait, D: Disk, I, O, K: Sink>(
    rt: &W,
    alloc: Global,
    core: &mut Core<D, I, O>,
    lines: Vec<Line>,
    out: &mut K,
) -> Result<(), RunStop>
    requires each { All IsServedLine lines.items }
    requires rising { NumbersRise lines.items }
    requires few { length lines.items ≤ MOST_SCRIPT_LINES }
    requires start { (seen_core core.old).history ≡ [] }
    ensures ok { OnOk result (Served lines.items (D.left_since (devices_of core.old).disk)
        (D.left_since (devices_of core.new).disk) (seen_core core.old) (seen_core core.new)
        (K.held out.old) (K.held out.new)) }
    ensures behind { OnOk result (IsUncommitted (seen_core core.old) (seen_core core.new)) }
    ensures err { OnErr result (ServedInPart lines.items (D.left_since (devices_of core.old).disk)
        (D.left_since (devices_of core.new).disk) (seen_core core.old) (seen_core core.new)
        (seen K.held K.faults out.old) (seen K.held K.faults out.new)) }
    ensures streams { KeepsStreams (devices_of core.old) (devices_of core.new) }
    ensures cause { IfErr result (IsOutCause (K.faults out.old) (K.faults out.new)) }
    ensures never_falls { K.faults out.old ≤ K.faults out.new }
{
    core.core_is_sound();
    core.reserve(2 * lines.len() as u32)?;
    serve_lines(rt, alloc, core, lines, out)
}

fn serve_lines<W: Wait, D: Disk, I, O, K: Sink>(
    rt: &W,
    alloc: Global,
    core: &mut Core<D, I, O>,
    lines: Vec<Line>,
    out: &mut K,
) -> Result<(), RunStop>
    requires each { All IsServedLine lines.items }
    requires rising { NumbersRise lines.items }
    requires start { (seen_core core.old).history ≡ [] }
    requires room { 2 * length lines.items ≤ (seen_core core.old).spare }
    ensures ok { OnOk result (Served lines.items (D.left_since (devices_of core.old).disk)
        (D.left_since (devices_of core.new).disk) (seen_core core.old) (seen_core core.new)
        (K.held out.old) (K.held out.new)) }
    ensures behind { OnOk result (IsUncommitted (seen_core core.old) (seen_core core.new)) }
    ensures err { OnErr result (ServedInPart lines.items (D.left_since (devices_of core.old).disk)
        (D.left_since (devices_of core.new).disk) (seen_core core.old) (seen_core core.new)
        (seen K.held K.faults out.old) (seen K.held K.faults out.new)) }
    ensures streams { KeepsStreams (devices_of core.old) (devices_of core.new) }
    ensures cause { IfErr result (IsOutCause (K.faults out.old) (K.faults out.new)) }
    ensures never_falls { K.faults out.old ≤ K.faults out.new }
{
    core.core_is_sound();
    for line in lines {
        serve_line(rt, alloc, core, line, out)?;
    }
    Ok(())
}

// Runs one line, and prints its reply; of what it opened, once that has ended, with the ending.
fn serve_line<W: Wait, D: Disk, I, O, K: Sink>(
    rt: &W,
    alloc: Global,
    core: &mut Core<D, I, O>,
    line: Line,
    out: &mut K,
) -> Result<(), RunStop>
    requires asked { IsAsked line.command }
    requires room { 2 ≤ (seen_core core.old).spare }
    ensures ok { OnOk result (ServesLine (seen_core core.old) (seen_core core.new) line
        (K.held out.old) (K.held out.new)) }
    ensures err { IfErr result (StoppedServing (seen_core core.old) (seen_core core.new) line
        (seen K.held K.faults out.old) (seen K.held K.faults out.new)) }
    ensures follows { Follows (D.left_since (devices_of core.old).disk)
        (D.left_since (devices_of core.new).disk) (seen_core core.old) (seen_core core.new) }
    ensures size { KeepsSize (seen_core core.old) (seen_core core.new) }
    ensures streams { KeepsStreams (devices_of core.old) (devices_of core.new) }
    ensures never_falls { K.faults out.old ≤ K.faults out.new }
{
    let Line {
        lane,
        number,
        command,
    } = line;
    match call_line(core, lane, number, command) {
        Called::Closed(place) => print_entry(alloc, core.entry(place), out),
        Called::Opened(opening, ticket) => match end_job(rt, core, ticket) {
            Some(ending) => print_ended(alloc, core.entry(opening), core.entry(ending), out),
            None => print_unended(alloc, core.entry(opening), out),
        },
        Called::Spent => print_spent(out),
    }
}

// Calls until the call is answered, and makes a stage of a flush each time that it waits for one.
fn call_line<D: Disk, I, O>(
    core: &mut Core<D, I, O>,
    lane: u8,
    number: u32,
    command: Command,
) -> Called
    requires asked { IsAsked command }
    requires room { 2 ≤ (seen_core core.old).spare }
    ensures calls { CallsLine (seen_core core.old) (seen_core core.new) lane number command result }
    ensures follows { Follows (D.left_since (devices_of core.old).disk)
        (D.left_since (devices_of core.new).disk) (seen_core core.old) (seen_core core.new) }
    ensures size { KeepsSize (seen_core core.old) (seen_core core.new) }
    ensures streams { KeepsStreams (devices_of core.old) (devices_of core.new) }
{
    core.core_is_sound();
    let since = core.last();
    let mut waiting = command;
    'waiting: loop {
        match core.call(lane, number, since, waiting) {
            Step::Answered(place) => return Called::Closed(place),
            Step::Opened(place, ticket) => return Called::Opened(place, ticket),
            Step::MustFlush(back) => match core.flush_stage(lane, number, back) {
                Staged::More(back) => waiting = back,
                Staged::Refused(place) => return Called::Closed(place),
                Staged::Spent => return Called::Spent,
            },
            Step::Spent => return Called::Spent,
        }
    }
}

// Does the units of an open call until its ending stands, and tells where. Where no id is left for an
// ending, none is done.
fn end_job<W: Wait, D: Disk, I, O>(
    rt: &W,
    core: &mut Core<D, I, O>,
    ticket: Ticket,
) -> Option<usize>
    requires open { IsOpenJob ticket.opening.0 (seen_core core.old) }
    ensures ends { EndsOrLacks ticket.opening.0 (seen_core core.old) (seen_core core.new) result }
    ensures follows { Follows (D.left_since (devices_of core.old).disk)
        (D.left_since (devices_of core.new).disk) (seen_core core.old) (seen_core core.new) }
    ensures size { KeepsSize (seen_core core.old) (seen_core core.new) }
    ensures streams { KeepsStreams (devices_of core.old) (devices_of core.new) }
{
    core.core_is_sound();
    if core.last().0 == GREATEST_ID {
        return None;
    }
    let mut ticket = ticket;
    for _ in rt.forever() {
        match core.job_unit(ticket) {
            UnitEnd::More(back) => ticket = back,
            UnitEnd::Ended(place) => return Some(place),
            UnitEnd::Spent => unreachable!(),
        }
    }
    unreachable!()
}
