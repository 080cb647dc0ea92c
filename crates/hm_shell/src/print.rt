// What a run prints.
ghost use Rattle.std.specs.Prelude.{◌≡◌, ◌≤◌, [], ◌∷◌, ◌++◌, IfErr, IfOk, OnErr, OnOk, decimal};
ghost use Rattle.hm_pipe.specs.Pipe.{Gains};
ghost use Rattle.hm_model.specs.Lines.{line_feed};
ghost use Rattle.hm_model.specs.Out.{entry_words, printed_line, spent_words};
ghost use Rattle.hm_shell.specs.Stop.{counts_line, damage_line, last_line};
ghost use Rattle.hm_shell.specs.Printing.{Prints, IsCutShort, StoppedPrinting, ended_line, joined, unended_line};
ghost use Rattle.hm_shell.specs.Seen.{seen};

use crate::digits::hex_digits;
use crate::stop::RunStop;
use hm_model::{Entry, push_answer};
use hm_pipe::Sink;
use hm_types::{Failed, NoMemory};
use std::alloc::Global;

const USAGE: &[u8] =
    b"usage: hammer VOLUME [--newfs BIGBLOCKS] [--stream-in FILE] [--stream-out FILE] [--generate N]\n";

// Room for the line of any reply but a listing, bytes of a file and a long target: such a line takes memory once.
const LINE_BYTES: usize = 128;

/// Prints the line of one entry, in one piece.
pub(crate) fn print_entry<K: Sink>(alloc: Global, entry: &Entry, out: &mut K) -> Result<(), RunStop>
    ensures ok { OnOk result (Gains (K.held out.old) (printed_line (entry_words entry.now)) (K.held out.new)) }
    ensures err { IfErr result (StoppedPrinting (printed_line (entry_words entry.now))
        (seen K.held K.faults out.old) (seen K.held K.faults out.new)) }
    ensures never_falls { K.faults out.old ≤ K.faults out.new }
{
    let line = entry_line(alloc, entry)?;
    put_line(&line, out)
}

/// Prints the line of an opening and of its ending, in one piece.
pub(crate) fn print_ended<K: Sink>(
    alloc: Global,
    opening: &Entry,
    ending: &Entry,
    out: &mut K,
) -> Result<(), RunStop>
    ensures ok { OnOk result (Gains (K.held out.old) (ended_line opening.now ending.now) (K.held out.new)) }
    ensures err { IfErr result (StoppedPrinting (ended_line opening.now ending.now)
        (seen K.held K.faults out.old) (seen K.held K.faults out.new)) }
    ensures never_falls { K.faults out.old ≤ K.faults out.new }
{
    let line = line_with_ending(alloc, opening, ending)?;
    put_line(&line, out)
}

/// Prints the line of an opening, for whose ending no id was left.
pub(crate) fn print_unended<K: Sink>(
    alloc: Global,
    opening: &Entry,
    out: &mut K,
) -> Result<(), RunStop>
    ensures ok { OnOk result (Gains (K.held out.old) (unended_line opening.now) (K.held out.new)) }
    ensures err { IfErr result (StoppedPrinting (unended_line opening.now)
        (seen K.held K.faults out.old) (seen K.held K.faults out.new)) }
    ensures never_falls { K.faults out.old ≤ K.faults out.new }
{
    let line = line_without_ending(alloc, opening)?;
    put_line(&line, out)
}

/// Prints the line of a call that found no id left.
pub(crate) fn print_spent<K: Sink>(out: &mut K) -> Result<(), RunStop>
    ensures ok { OnOk result
        (Gains (K.held out.old) (printed_line spent_words) (K.held out.new)) }
    ensures err { IfErr result (StoppedPrinting (printed_line spent_words)
        (seen K.held K.faults out.old) (seen K.held K.faults out.new)) }
    ensures never_falls { K.faults out.old ≤ K.faults out.new }
{
    put_line(b"- ids spent\n", out)
}

fn put_line<K: Sink>(line: &[u8], out: &mut K) -> Result<(), RunStop>
    ensures ok { OnOk result (Gains (K.held out.old) line.now (K.held out.new)) }
    ensures err { IfErr result (StoppedPrinting line.now
        (seen K.held K.faults out.old) (seen K.held K.faults out.new)) }
    ensures never_falls { K.faults out.old ≤ K.faults out.new }
{
    match out.put(line) {
        Ok(()) => Ok(()),
        Err(Failed) => Err(RunStop::OutFault),
    }
}

fn entry_line(alloc: Global, entry: &Entry) -> Result<Vec<u8>, NoMemory>
    ensures { IfOk result (λ line. line.items ≡ printed_line (entry_words entry.now)) }
{
    let mut line = Vec::with_capacity(alloc, LINE_BYTES)?;
    push_entry(alloc, &mut line, entry)?;
    line.push(b'\n')?;
    Ok(line)
}

fn line_with_ending(alloc: Global, opening: &Entry, ending: &Entry) -> Result<Vec<u8>, NoMemory>
    ensures { IfOk result (λ line. line.items ≡ ended_line opening.now ending.now) }
{
    let mut line = Vec::with_capacity(alloc, LINE_BYTES)?;
    push_entry(alloc, &mut line, opening)?;
    line.push(b' ')?;
    push_entry(alloc, &mut line, ending)?;
    line.push(b'\n')?;
    Ok(line)
}

fn line_without_ending(alloc: Global, opening: &Entry) -> Result<Vec<u8>, NoMemory>
    ensures { IfOk result (λ line. line.items ≡ unended_line opening.now) }
{
    let mut line = Vec::with_capacity(alloc, LINE_BYTES)?;
    push_entry(alloc, &mut line, opening)?;
    line.extend_from_slice(b" - ids spent\n")?;
    Ok(line)
}

// Adds the id of an entry and its reply to a line.
fn push_entry(alloc: Global, line: &mut Vec<u8>, entry: &Entry) -> Result<(), NoMemory>
    ensures { OnOk result (line.new.items ≡ line.old.items ++ entry_words entry.now) }
{
    line.extend_from_slice(b"0x")?;
    line.extend_from_slice(&hex_digits(entry.id.0))?;
    line.push(b' ')?;
    push_answer(alloc, line, &entry.call, &entry.reply)
}

/// Prints the last line of a run that stops, if it has one. It takes no memory, and a fault of the
/// sink cuts the line short.
pub(crate) fn print_last<K: Sink>(stop: RunStop, out: &mut K)
    ensures line { Prints [] (last_line stop)
        (seen K.held K.faults out.old) (seen K.held K.faults out.new) }
    ensures never_falls { K.faults out.old ≤ K.faults out.new }
{
    let _ = put_last(stop, out);
}

fn put_last<K: Sink>(stop: RunStop, out: &mut K) -> Result<(), Failed>
    ensures ok { OnOk result (Gains (K.held out.old) (last_line stop) (K.held out.new)) }
    ensures err { OnErr result (IsCutShort (last_line stop)
        (seen K.held K.faults out.old) (seen K.held K.faults out.new)) }
    ensures never_falls { K.faults out.old ≤ K.faults out.new }
{
    match stop {
        RunStop::Usage => out.put(USAGE),
        RunStop::NotVolume => out.put(b"not a volume\n"),
        RunStop::BadField { place } => put_number(b"bad header field ", u64::from(place), out),
        RunStop::DiskFault { before, after } => put_counts(b"media ", before, after, out),
        RunStop::Damaged { at, kind } => put_damage(at, kind, out),
        RunStop::ScriptFault { before, after } => put_counts(b"script fault ", before, after, out),
        RunStop::OutFault => Ok(()),
        RunStop::NoMemory => out.put(b"no memory\n"),
        RunStop::BadLine { number, .. } => put_number(b"bad line ", u64::from(number), out),
        RunStop::TooLong => out.put(b"script too long\n"),
    }
}

// Puts some words and a number.
fn put_number<K: Sink>(words: &[u8], number: u64, out: &mut K) -> Result<(), Failed>
    ensures ok { OnOk result (Gains (K.held out.old)
        (words.now ++ (decimal number ++ line_feed ∷ [])) (K.held out.new)) }
    ensures err { OnErr result (IsCutShort (words.now ++ (decimal number ++ line_feed ∷ []))
        (seen K.held K.faults out.old) (seen K.held K.faults out.new)) }
    ensures never_falls { K.faults out.old ≤ K.faults out.new }
{
    let mut buffer = itoa::Buffer::new();
    put_all(&[words, buffer.format(number).as_bytes(), b"\n"], out)
}

// Puts some words and two counts.
fn put_counts<K: Sink>(words: &[u8], before: u64, after: u64, out: &mut K) -> Result<(), Failed>
    ensures ok { OnOk result (Gains (K.held out.old)
        (counts_line words.now before after) (K.held out.new)) }
    ensures err { OnErr result (IsCutShort (counts_line words.now before after)
        (seen K.held K.faults out.old) (seen K.held K.faults out.new)) }
    ensures never_falls { K.faults out.old ≤ K.faults out.new }
{
    let mut first = itoa::Buffer::new();
    let mut second = itoa::Buffer::new();
    let before = first.format(before).as_bytes();
    let after = second.format(after).as_bytes();
    put_all(&[words, before, b" ", after, b"\n"], out)
}

// Puts where the disk is damaged, and the number of the rule that is broken.
fn put_damage<K: Sink>(at: u64, kind: u8, out: &mut K) -> Result<(), Failed>
    ensures ok { OnOk result (Gains (K.held out.old) (damage_line at kind) (K.held out.new)) }
    ensures err { OnErr result (IsCutShort (damage_line at kind)
        (seen K.held K.faults out.old) (seen K.held K.faults out.new)) }
    ensures never_falls { K.faults out.old ≤ K.faults out.new }
{
    let digits = hex_digits(at);
    let mut buffer = itoa::Buffer::new();
    let kind = buffer.format(kind).as_bytes();
    put_all(&[b"damaged 0x", &digits, b" ", kind, b"\n"], out)
}

// Puts the pieces one after another, as far as the sink takes them.
fn put_all<K: Sink>(pieces: &[&[u8]], out: &mut K) -> Result<(), Failed>
    ensures ok { OnOk result (Gains (K.held out.old) (joined pieces.now) (K.held out.new)) }
    ensures err { OnErr result (IsCutShort (joined pieces.now)
        (seen K.held K.faults out.old) (seen K.held K.faults out.new)) }
    ensures never_falls { K.faults out.old ≤ K.faults out.new }
{
    for piece in pieces {
        out.put(piece)?;
    }
    Ok(())
}
