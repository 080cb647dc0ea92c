// The answers to calls.

use hm_types::{Bytes, HOff, Id, Names, Obj, Pfs, Text};

/// The answer to one call. The variants up to `Cut` accept it, and the others refuse it. The text that
/// each prints stands at its variant, with numbers in decimal, ids as `0x` and 16 hexadecimal digits,
/// and shared ids as 16 such digits.
#[derive(Debug, PartialEq, Drop)]
pub enum Reply {
    /// `ok`: the call was done, or a housekeeping call was opened.
    Done,
    /// `ok N` and ` K:name` for each entry of a directory, by the bytes of the names.
    Listing {
        names: Names,
    },
    /// `ok N` and, where there are any, the bytes in lower-case hexadecimal digits.
    Content {
        bytes: Bytes,
    },
    /// `ok K OBJECT SIZE LINKS` of an object. The size of a directory is its number of entries, of a
    /// softlink the length of its target in bytes, of a PFS link its number.
    Status {
        kind: u8,
        obj: Obj,
        size: u64,
        links: u32,
    },
    /// `ok text`: the target of a link.
    Target {
        text: Text,
    },
    /// `ok` for `sync`, and `ok BOUNDARY` for `synctid`: all calls up to this id are on the disk.
    Synced {
        boundary: Id,
    },
    /// `ok NNNNN`: the number of the PFS that was made.
    MadePfs {
        number: Pfs,
    },
    /// `ok master NNNNN SHARED INTERVALS`, or `ok slave NNNNN SHARED INTERVALS SYNCEND`.
    PfsIs {
        master: bool,
        number: Pfs,
        shared: u64,
        intervals: u32,
        sync_end: Id,
    },
    /// `ok POOL FREE`: big-blocks of the pool, and how many of them are free.
    Space {
        pool: u32,
        free: u32,
    },
    /// `done`: a housekeeping call came to its end.
    Finished,
    /// `done BEGIN END`: a mirror pass over these ids came to its end.
    Passed {
        begin: Id,
        end: Id,
    },
    /// `cut N`: a mirror pass was cut after N items.
    Cut {
        items: u32,
    },
    /// `exists`: the name that it would make stands there already.
    Exists,
    /// `not found`: a name, an object or a PFS is not there.
    NotFound,
    /// `not a directory`
    NotDir,
    /// `is a directory`: or a PFS link.
    IsDir,
    /// `not empty`: the directory has entries.
    NotEmpty,
    /// `bad path P`: the word is no path, and is bad at this byte.
    BadPath {
        place: u32,
    },
    /// `read only`: the past, and a slave, do not change by calls.
    ReadOnly,
    /// `not retained`: the PFS does not keep the id in the path.
    NotRetained,
    /// `future LAST`: the id in the path, or the begin id, is above the last one.
    Future {
        last: Id,
    },
    /// `too big`: the file, or its count of links.
    TooBig,
    /// `crosses a pfs`: the two paths end in two PFS.
    CrossPfs,
    /// `into itself`: a directory is moved below itself.
    IntoItself,
    /// `hash full`: too many names of the directory have the hash of the new one.
    HashFull,
    /// `pfs full`: all numbers of PFS are used.
    PfsFull,
    /// `no snapshots`: no softlink of the directory names an id.
    NoSnapshots,
    /// `too many intervals N`: a retention would have so many.
    TooManyIntervals {
        count: u32,
    },
    /// `not a slave`
    NotSlave,
    /// `not a master`
    NotMaster,
    /// `ids spent`: the last id is the greatest. Such a call draws no id and has no entry.
    IdsSpent,
    /// `no space FREE NEEDED`: in big-blocks.
    NoSpace {
        free: u32,
        needed: u32,
    },
    /// `media BEFORE AFTER`: the disk failed. Its count of faults rose.
    Media {
        before: u64,
        after: u64,
    },
    /// `damaged AT K`: the bytes there break their grammar, by the rule with this number.
    Damaged {
        at: HOff,
        kind: u8,
    },
    /// `no memory`: an allocation was refused, or the call has no other answer, which a forged volume
    /// alone brings about.
    NoMemory,
    /// `shared differs SLAVE STREAM`: the shared ids of a slave and of what it is fed from.
    SharedDiffers {
        slave: u64,
        stream: u64,
    },
    /// `begin differs SLAVE STREAM`: the slave's sync end, and the begin id of the stream.
    BeginDiffers {
        slave: Id,
        stream: Id,
    },
    /// `stream bad P`: no stream begins with the bytes up to this one.
    StreamBad {
        place: u64,
    },
    /// `stream short N`: the source ended after so many bytes, within the stream.
    StreamShort {
        taken: u64,
    },
    /// `stream fault BEFORE AFTER`: the stream's source or sink failed. Its count of faults rose.
    StreamFault {
        before: u64,
        after: u64,
    },
    /// `end pruned END FIRST`: the master no longer keeps the pass's end id. The least kept one above
    /// it is FIRST.
    EndPruned {
        end: Id,
        first: Id,
    },
    /// `busy OPENING`: the call that was opened with this id is not at its end.
    Busy {
        opening: Id,
    },
    /// `not a link`
    NotLink,
    /// `not a file`
    NotFile,
}
