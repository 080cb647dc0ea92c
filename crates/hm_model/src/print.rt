// How answers are printed.
ghost use Rattle.std.specs.Prelude.{◌≡◌, ◌++◌, IfOk, IfSome, OnOk, string_bytes};
ghost use Rattle.std.specs.List.{flat_map};
ghost use Rattle.hm_model.specs.Reply.{answer_text, reply_text, kind_letter, listed};

use crate::command::Command;
use crate::reply::Reply;
use hm_types::{Bytes, Id, Name, Names, NoMemory, Obj, Pfs};
use std::alloc::Global;

/// Adds the text of an answer to a line. After `NoMemory` the line may have gained a part of it.
pub fn push_answer(
    alloc: Global,
    line: &mut Vec<u8>,
    call: &Command,
    reply: &Reply,
) -> Result<(), NoMemory>
    ensures { OnOk result (line.new.items ≡ line.old.items ++ answer_text call.now reply.now) }
{
    match (call, reply) {
        (Command::Sync, Reply::Synced { .. }) => push(line, b"ok"),
        (_, other) => push_reply(alloc, line, other),
    }
}

// The table of all replies and their texts.
fn push_reply(alloc: Global, line: &mut Vec<u8>, reply: &Reply) -> Result<(), NoMemory>
    ensures { OnOk result (line.new.items ≡ line.old.items ++ reply_text reply.now) }
{
    match reply {
        Reply::Done => push(line, b"ok"),
        Reply::Listing { names } => push_listing(alloc, line, names),
        Reply::Content { bytes } => push_content(alloc, line, bytes),
        Reply::Target { text } => {
            push(line, b"ok ")?;
            push(line, text.bytes())
        }
        Reply::Status {
            kind,
            obj,
            size,
            links,
        } => push_status(alloc, line, *kind, *obj, *size, *links),
        Reply::PfsIs {
            master,
            number,
            shared,
            intervals,
            sync_end,
        } => push_record(
            alloc, line, *master, *number, *shared, *intervals, *sync_end,
        ),
        Reply::Synced { boundary } => push_text(line, &format!(in alloc; "ok {boundary}")?),
        Reply::MadePfs { number } => push_text(line, &format!(in alloc; "ok {:05}", number.0)?),
        Reply::Space { pool, free } => push_text(line, &format!(in alloc; "ok {pool} {free}")?),
        Reply::Finished => push(line, b"done"),
        Reply::Passed { begin, end } => push_text(line, &format!(in alloc; "done {begin} {end}")?),
        Reply::Cut { items } => push_text(line, &format!(in alloc; "cut {items}")?),
        Reply::Exists => push(line, b"exists"),
        Reply::NotFound => push(line, b"not found"),
        Reply::NotDir => push(line, b"not a directory"),
        Reply::IsDir => push(line, b"is a directory"),
        Reply::NotEmpty => push(line, b"not empty"),
        Reply::BadPath { place } => push_text(line, &format!(in alloc; "bad path {place}")?),
        Reply::ReadOnly => push(line, b"read only"),
        Reply::NotRetained => push(line, b"not retained"),
        Reply::Future { last } => push_text(line, &format!(in alloc; "future {last}")?),
        Reply::TooBig => push(line, b"too big"),
        Reply::CrossPfs => push(line, b"crosses a pfs"),
        Reply::IntoItself => push(line, b"into itself"),
        Reply::HashFull => push(line, b"hash full"),
        Reply::PfsFull => push(line, b"pfs full"),
        Reply::NoSnapshots => push(line, b"no snapshots"),
        Reply::TooManyIntervals { count } => {
            push_text(line, &format!(in alloc; "too many intervals {count}")?)
        }
        Reply::NotSlave => push(line, b"not a slave"),
        Reply::NotMaster => push(line, b"not a master"),
        Reply::IdsSpent => push(line, b"ids spent"),
        Reply::NoMemory => push(line, b"no memory"),
        Reply::Busy { opening } => push_text(line, &format!(in alloc; "busy {opening}")?),
        Reply::NotLink => push(line, b"not a link"),
        Reply::NotFile => push(line, b"not a file"),
        Reply::NoSpace { free, needed } => {
            push_text(line, &format!(in alloc; "no space {free} {needed}")?)
        }
        Reply::Media { before, after } => {
            push_text(line, &format!(in alloc; "media {before} {after}")?)
        }
        Reply::Damaged { at, kind } => {
            push_text(
                line,
                &format!(in alloc; "damaged 0x{:016x} {kind}", at.raw())?,
            )
        }
        Reply::SharedDiffers { slave, stream } => {
            push_text(
                line,
                &format!(in alloc; "shared differs {slave:016x} {stream:016x}")?,
            )
        }
        Reply::BeginDiffers { slave, stream } => {
            push_text(line, &format!(in alloc; "begin differs {slave} {stream}")?)
        }
        Reply::StreamBad { place } => push_text(line, &format!(in alloc; "stream bad {place}")?),
        Reply::StreamShort { taken } => push_text(
            line,
            &format!(in alloc; "stream short {taken}")?,
        ),
        Reply::StreamFault { before, after } => {
            push_text(line, &format!(in alloc; "stream fault {before} {after}")?)
        }
        Reply::EndPruned { end, first } => {
            push_text(line, &format!(in alloc; "end pruned {end} {first}")?)
        }
    }
}

fn push(line: &mut Vec<u8>, bytes: &[u8]) -> Result<(), NoMemory>
    ensures { OnOk result (line.new.items ≡ line.old.items ++ bytes.now) }
{
    line.extend_from_slice(bytes)?;
    Ok(())
}

fn push_text(line: &mut Vec<u8>, text: &str) -> Result<(), NoMemory>
    ensures { OnOk result (line.new.items ≡ line.old.items ++ text.now) }
{
    push(line, text.as_bytes())
}

fn push_status(
    alloc: Global,
    line: &mut Vec<u8>,
    kind: u8,
    obj: Obj,
    size: u64,
    links: u32,
) -> Result<(), NoMemory>
    ensures { OnOk result
        (line.new.items ≡ line.old.items ++ reply_text (Reply.Status kind obj size links)) }
{
    push(line, b"ok ")?;
    push(line, letter(kind))?;
    push_text(
        line,
        &format!(in alloc; " 0x{:016x} {size} {links}", obj.0)?,
    )
}

fn push_record(
    alloc: Global,
    line: &mut Vec<u8>,
    master: bool,
    number: Pfs,
    shared: u64,
    intervals: u32,
    sync_end: Id,
) -> Result<(), NoMemory>
    ensures { OnOk result (line.new.items ≡
        line.old.items ++ reply_text (Reply.PfsIs master number shared intervals sync_end)) }
{
    let number = number.0;
    if master {
        let text = format!(in alloc; "ok master {number:05} {shared:016x} {intervals}")?;
        return push_text(line, &text);
    }
    let text = format!(in alloc; "ok slave {number:05} {shared:016x} {intervals} {sync_end}")?;
    push_text(line, &text)
}

fn push_listing(alloc: Global, line: &mut Vec<u8>, names: &Names) -> Result<(), NoMemory>
    ensures { OnOk result
        (line.new.items ≡ line.old.items ++ reply_text (Reply.Listing names.now)) }
{
    let list = names.list();
    let count = list.len();
    push(line, format!(in alloc; "ok {count}")?.as_bytes())?;
    push_names(line, list)
}

fn push_names(line: &mut Vec<u8>, names: &[(u8, Name)]) -> Result<(), NoMemory>
    ensures { OnOk result (line.new.items ≡ line.old.items ++ flat_map listed names.now) }
{
    for (kind, name) in names {
        push_entry(line, *kind, name)?;
    }
    Ok(())
}

fn push_entry(line: &mut Vec<u8>, kind: u8, name: &Name) -> Result<(), NoMemory>
    ensures { OnOk result (line.new.items ≡ line.old.items ++ listed (kind, name.now)) }
{
    push(line, b" ")?;
    push(line, letter(kind))?;
    push(line, b":")?;
    push(line, name.bytes())
}

fn push_content(alloc: Global, line: &mut Vec<u8>, bytes: &Bytes) -> Result<(), NoMemory>
    ensures { OnOk result
        (line.new.items ≡ line.old.items ++ reply_text (Reply.Content bytes.now)) }
{
    let bytes = bytes.bytes();
    let count = bytes.len();
    push(line, format!(in alloc; "ok {count}")?.as_bytes())?;
    if bytes.is_empty() {
        return Ok(());
    }
    push(line, b" ")?;
    push(line, hex::encode(alloc, bytes)?.as_bytes())
}

// The letter of a kind of object, by its number.
fn letter(kind: u8) -> &'static [u8]
    ensures { result.now ≡ kind_letter kind }
{
    if kind == 1 {
        b"d"
    } else if kind == 2 {
        b"f"
    } else if kind == 3 {
        b"l"
    } else {
        b"p"
    }
}
