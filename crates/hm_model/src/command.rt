// The calls of a script.

use hm_types::{Bytes, Id, Text};

/// One call, with the values of its words. A path is any word: whether it is a path, the call's reply
/// says. Offsets, sizes and counts are in bytes.
#[derive(Debug, PartialEq, Drop)]
pub enum Command {
    /// Makes an empty directory.
    Mkdir {
        path: Text,
    },
    /// Makes an empty file.
    Touch {
        path: Text,
    },
    /// Makes a softlink with this target, of 1 to 1,023 bytes.
    Symlink {
        target: Text,
        path: Text,
    },
    /// Makes a softlink that names the moment before this call.
    Snapshot {
        path: Text,
    },
    /// Gives the file OLD a second name.
    Ln {
        old: Text,
        new: Text,
    },
    /// Gives what is named OLD the name NEW instead.
    Mv {
        old: Text,
        new: Text,
    },
    /// Puts 1 to 65,536 bytes into a file.
    Write {
        path: Text,
        offset: u64,
        bytes: Bytes,
    },
    /// Puts a byte into a file, 1 to 65,536 times.
    Fill {
        path: Text,
        offset: u64,
        count: u32,
        byte: u8,
    },
    /// Sets the size of a file.
    Truncate {
        path: Text,
        size: u64,
    },
    /// Removes a name of a file or softlink, and with the last one the object.
    Rm {
        path: Text,
    },
    /// Removes an empty directory.
    Rmdir {
        path: Text,
    },
    /// Lists a directory.
    Ls {
        path: Text,
    },
    /// Reads 1 to 16,384 bytes of a file.
    Cat {
        path: Text,
        offset: u64,
        count: u32,
    },
    /// Tells an object's kind, number, size and links.
    Stat {
        path: Text,
    },
    /// Tells the target of a softlink or a PFS link.
    Readlink {
        path: Text,
    },
    /// Waits until all calls so far are on the disk.
    Sync,
    /// The same, and tells up to which id.
    Synctid,
    /// Cuts a retention to the ids that the softlinks of a directory name.
    Prune {
        path: Text,
    },
    /// Cuts a retention to the present.
    PruneAll {
        path: Text,
    },
    /// Empties the big-blocks whose live bytes are below `fill` percent, 1 to 100.
    Reblock {
        fill: u8,
    },
    /// Makes a master, and a PFS link to it.
    PfsMaster {
        path: Text,
        shared: u64,
    },
    /// Makes a slave, and a PFS link to it.
    PfsSlave {
        path: Text,
        shared: u64,
    },
    /// Tells the record of a PFS.
    PfsStatus {
        path: Text,
    },
    /// Makes a slave a master, as of its sync end.
    PfsUpgrade {
        path: Text,
    },
    /// Sends a master's changes since an id as a stream.
    MirrorRead {
        path: Text,
        begin: Id,
    },
    /// Merges a stream into a slave.
    MirrorWrite {
        path: Text,
    },
    /// Merges a master's changes into a slave, at most `limit` items of them, 1 or more.
    MirrorCopy {
        master: Text,
        slave: Text,
        limit: Option<u32>,
    },
    /// Tells how many big-blocks there are and how many are free.
    Df,
    /// Tells the last id and the durable one, without drawing an id.
    Progress,
    /// The end of a housekeeping call that was opened with this id. No line gives it.
    End {
        opening: Id,
    },
}
