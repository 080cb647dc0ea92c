// The trees of two pseudo file systems, and the replies that calls are due on them.
use crate::lines::command_of;
use crate::past_trees::PastTrees;
use hm_model::Reply;
use hm_records::{DIRECTORY, FILE, PFS_LINK, SOFTLINK};
use hm_types::{Names, Obj, Text};
use std::alloc::Global;
use std::test::Fail;

/// The object of PFS 0 that leads to PFS 1, and the id by which it was made.
pub(super) const LINK: u64 = 5;

/// A call on one path or two.
#[derive(Drop)]
pub(super) struct Line {
    pub command: &'static str,
    pub first: String,
    pub second: Option<String>,
}

impl Line {
    /// Its text.
    pub(super) fn text(&self, alloc: Global) -> Result<String, Fail> {
        Ok(match &self.second {
            None => format!(in alloc; "{} {}", self.command, self.first)?,
            Some(second) => format!(in alloc; "{} {} {second}", self.command, self.first)?,
        })
    }
}

// Where a path of the volume leads: a path in a tree of its own. The link is an object of PFS 0.
#[derive(Clone, Copy)]
struct End<'a> {
    in_second: bool,
    is_link: bool,
    path: &'a str,
}

impl<'a> End<'a> {
    // By the path of the link. What comes after that is a path of PFS 1.
    fn of(word: &'a str, link: &str) -> End<'a> {
        let (in_second, is_link, path) = match below(word, link) {
            Some("") => (false, true, word),
            Some(rest) => (true, false, rest),
            None => (false, false, word),
        };
        End {
            in_second,
            is_link,
            path,
        }
    }
}

// What comes after the path of a directory, or of a link, in a path through it.
fn below<'a>(path: &'a str, way: &str) -> Option<&'a str> {
    let rest = path.strip_prefix(way)?;
    if rest.is_empty() || rest.starts_with('/') {
        Some(rest)
    } else {
        None
    }
}

/// The trees of PFS 0, in whose root `m` leads to PFS 1, and of PFS 1. In those of PFS 0 an empty
/// directory stands for the link, whose rules are said here.
#[derive(Drop)]
pub(super) struct Systems {
    first: PastTrees,
    second: PastTrees,
    // Each path of the link, with the id from which on it has that.
    links: Vec<(u64, String)>,
}

impl Systems {
    /// Both roots, and the link.
    pub(super) fn new(alloc: Global) -> Result<Systems, Fail> {
        let mut first = PastTrees::new(alloc, 1)?;
        first.call(alloc, &command_of(alloc, "mkdir /m")?, LINK)?;
        let mut links = Vec::new(alloc);
        links.push((LINK, format!(in alloc; "/m")?))?;
        Ok(Systems {
            first,
            second: PastTrees::new(alloc, 1)?,
            links,
        })
    }

    /// How often the link got a path.
    pub(super) fn links(&self) -> u64 {
        self.links.len() as u64
    }

    /// The path of the link as of an id from its own on.
    pub(super) fn link(&self, id: u64) -> Result<&str, Fail> {
        for (since, path) in self.links.iter().rev() {
            if *since <= id {
                return Ok(path.as_str());
            }
        }
        Err("no link")?
    }

    /// The reply to a look at a path as of an id.
    pub(super) fn look(
        &self,
        alloc: Global,
        name: &str,
        word: &str,
        id: u64,
    ) -> Result<Reply, Fail> {
        let link = self.link(id)?;
        let end = End::of(word, link);
        if end.is_link {
            return self.look_at_link(alloc, name, id);
        }
        match self.plain(alloc, name, &end, id)? {
            Reply::Listing { names } if !end.in_second => with_link(alloc, names, end.path, link),
            reply => Ok(reply),
        }
    }

    // The reply to a look at the end of a path as of an id, where the link is a directory.
    fn plain(&self, alloc: Global, name: &str, end: &End<'_>, id: u64) -> Result<Reply, Fail> {
        let text = format!(in alloc; "{name} {}", end.path)?;
        let command = command_of(alloc, &text)?;
        if end.in_second {
            self.second.look(alloc, &command, id)
        } else {
            self.first.look(alloc, &command, id)
        }
    }

    // A link to PFS 1 has that number for its size, and counts one link. PFS 1 is a master, so that
    // `readlink` tells no sync end. `ls` follows it.
    fn look_at_link(&self, alloc: Global, name: &str, id: u64) -> Result<Reply, Fail> {
        match name {
            "ls" => self.second.look(alloc, &command_of(alloc, "ls /")?, id),
            "stat" => Ok(Reply::Status {
                kind: PFS_LINK,
                obj: Obj(LINK),
                size: 1,
                links: 1,
            }),
            _ => Ok(Reply::Target {
                text: Text::of(Vec::from_slice(alloc, b"@@-1:00001")?),
            }),
        }
    }

    /// The reply that a line is due by its id.
    pub(super) fn call(&mut self, alloc: Global, line: &Line, id: u64) -> Result<Reply, Fail> {
        let link = format!(in alloc; "{}", self.link(id)?)?;
        let first = End::of(line.first.as_str(), link.as_str());
        let Some(second) = &line.second else {
            return self.on_one(alloc, line.command, &first, id);
        };
        let second = End::of(second.as_str(), link.as_str());
        if first.in_second != second.in_second {
            return self.cross(alloc, line.command, &first, &second, id);
        }
        if line.command == "ln" {
            return self.on_two(alloc, "ln", &first, &second, id);
        }
        if first.is_link {
            self.make_way(alloc, &second, id)?;
        }
        let reply = self.on_two(alloc, "mv", &first, &second, id)?;
        if matches!(reply, Reply::Done) && !first.in_second {
            self.move_link(alloc, (first.path, second.path), link.as_str(), id)?;
        }
        Ok(reply)
    }

    // The reply to a call on one path. A link is no directory, and is not removed; a name that would
    // be made exists.
    fn on_one(
        &mut self,
        alloc: Global,
        command: &str,
        end: &End<'_>,
        id: u64,
    ) -> Result<Reply, Fail> {
        if end.is_link {
            return match command {
                "readlink" | "stat" => self.look_at_link(alloc, command, id),
                "rm" => Ok(Reply::IsDir),
                "rmdir" => Ok(Reply::NotDir),
                _ => Ok(Reply::Exists),
            };
        }
        let text = format!(in alloc; "{command} {}", end.path)?;
        self.within(alloc, end.in_second, &text, id)
    }

    // The reply to a call on two paths of one system.
    fn on_two(
        &mut self,
        alloc: Global,
        command: &str,
        first: &End<'_>,
        second: &End<'_>,
        id: u64,
    ) -> Result<Reply, Fail> {
        let text = format!(in alloc; "{command} {} {}", first.path, second.path)?;
        self.within(alloc, first.in_second, &text, id)
    }

    // The reply to a line on one of the trees.
    fn within(
        &mut self,
        alloc: Global,
        in_second: bool,
        text: &str,
        id: u64,
    ) -> Result<Reply, Fail> {
        let command = command_of(alloc, text)?;
        if in_second {
            self.second.call(alloc, &command, id)
        } else {
            self.first.call(alloc, &command, id)
        }
    }

    // What is no directory, as the link is not, takes the name of a file or of a softlink, which goes
    // as by `rm`.
    fn make_way(&mut self, alloc: Global, end: &End<'_>, id: u64) -> Result<(), Fail> {
        let is_taken = match self.plain(alloc, "stat", end, id)? {
            Reply::Status { kind, .. } => kind == FILE || kind == SOFTLINK,
            _ => false,
        };
        if is_taken {
            self.on_one(alloc, "rm", end, id)?;
        }
        Ok(())
    }

    // The link moves where it, or a directory above it, does.
    fn move_link(
        &mut self,
        alloc: Global,
        paths: (&str, &str),
        link: &str,
        id: u64,
    ) -> Result<(), Fail> {
        let (old, new) = paths;
        if old == new {
            return Ok(());
        }
        if let Some(rest) = below(link, old) {
            self.links.push((id, format!(in alloc; "{new}{rest}")?))?;
        }
        Ok(())
    }

    // The reply to `ln` or `mv` from one system to the other. Each path is walked in its own tree, and
    // what they lead to does not cross.
    fn cross(
        &self,
        alloc: Global,
        command: &str,
        first: &End<'_>,
        second: &End<'_>,
        id: u64,
    ) -> Result<Reply, Fail> {
        let kind = match self.plain(alloc, "stat", first, id)? {
            Reply::Status { kind, .. } => kind,
            refusal => return Ok(refusal),
        };
        let path = match second.path.rsplit_once('/') {
            None | Some(("", _)) => "/",
            Some((parent, _)) => parent,
        };
        match self.plain(alloc, "ls", &End { path, ..*second }, id)? {
            Reply::Listing { .. } => {}
            refusal => return Ok(refusal),
        }
        Ok(match (command, kind) {
            ("ln", DIRECTORY) => Reply::IsDir,
            ("ln", FILE) | ("mv", _) => Reply::CrossPfs,
            _ => Reply::NotFile,
        })
    }
}

// The listing of a directory of PFS 0, in which the link is one where it has this path.
fn with_link(alloc: Global, names: Names, directory: &str, link: &str) -> Result<Reply, Fail> {
    let directory = if directory == "/" { "" } else { directory };
    let own = match below(link, directory) {
        Some(rest) => rest.strip_prefix('/'),
        None => None,
    };
    let mut list = Vec::new(alloc);
    for (kind, name) in names.list() {
        let is_link = match own {
            Some(own) => name.bytes() == own.as_bytes(),
            None => false,
        };
        list.push((if is_link { PFS_LINK } else { *kind }, name.clone()?))?;
    }
    Ok(Reply::Listing {
        names: Names::of(list),
    })
}
