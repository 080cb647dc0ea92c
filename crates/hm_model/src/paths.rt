// The path words of calls, and where they lead on one tree.
ghost use Rattle.std.specs.Prelude.{◌≡◌, All, IfOk, IfErr, None};
ghost use Rattle.hm_model.specs.Plain.{IsRefusing, IsOfNow, LeadsTo, LeadsNowhere, locate_in, site_of, use_needing};
ghost use Rattle.hm_model.specs.PlainCall.{HasPaths, IsPlaced, StopsCall, needs_name, use_of};
ghost use Rattle.hm_model.specs.Sites.{Parts, no_site};
ghost use Rattle.hm_model.specs.Due.{good_path};

use crate::command::Command;
use crate::place::{Place, place_of_end, place_of_name, place_of_new};
use crate::read::read_path;
use crate::reply::Reply;
use crate::stop::PlainStop;
use crate::tree::Tree;
use crate::walk::ROOT;
use hm_path::Part;
use hm_types::{Name, Text};
use std::alloc::Global;

/// What a call does with a path: it makes its last name; it takes away or moves what has its last
/// name; or it walks to its end, over a PFS link there or not.
#[derive(Clone, Copy)]
pub(crate) enum Use {
    New,
    Named,
    End(bool),
}

impl Use {
    fn needs_name(self) -> bool
        ensures { result ≡ needs_name self }
    {
        !matches!(self, Use::End(_))
    }
}

/// The path words of a call on one tree, from left to right, each with its use.
pub(crate) enum Paths<'a> {
    One(Use, &'a Text),
    Two(Use, &'a Text, Use, &'a Text),
    /// It is no call on one tree.
    Other,
}

/// The path words of a call.
pub(crate) fn paths_of(call: &Command) -> Paths<'_>
    ensures { HasPaths call.now result }
{
    match call {
        Command::Mkdir { path } => Paths::One(Use::New, path),
        Command::Touch { path } => Paths::One(Use::New, path),
        Command::Symlink { path, .. } => Paths::One(Use::New, path),
        Command::Snapshot { path } => Paths::One(Use::New, path),
        Command::Ln { old, new } => Paths::Two(Use::End(false), old, Use::New, new),
        Command::Mv { old, new } => Paths::Two(Use::Named, old, Use::New, new),
        Command::Write { path, .. } => Paths::One(Use::End(true), path),
        Command::Fill { path, .. } => Paths::One(Use::End(true), path),
        Command::Truncate { path, .. } => Paths::One(Use::End(true), path),
        Command::Rm { path } => Paths::One(Use::Named, path),
        Command::Rmdir { path } => Paths::One(Use::Named, path),
        Command::Ls { path } => Paths::One(Use::End(true), path),
        Command::Cat { path, .. } => Paths::One(Use::End(true), path),
        Command::Stat { path } => Paths::One(Use::End(false), path),
        Command::Readlink { path } => Paths::One(Use::End(false), path),
        _ => Paths::Other,
    }
}

/// The two places to which the paths of a call lead. The second is the root where it has one path.
pub(crate) fn find_places(
    alloc: Global,
    tree: &Tree,
    call: &Command,
) -> Result<(Place, Place), PlainStop>
    ensures ok { IfOk result (λ places. IsPlaced tree.now call.now places.0 places.1) }
    ensures err { IfErr result (StopsCall tree.now call.now) }
    ensures refuses { IfErr result IsRefusing }
{
    match paths_of(call) {
        Paths::One(u, word) => {
            let path = read_path(alloc, u.needs_name(), word)?;
            let place = find_place(alloc, tree, u, path.parts())?;
            Ok((place, no_place(alloc)))
        }
        Paths::Two(u, word, v, other) => {
            let path = read_path(alloc, u.needs_name(), word)?;
            let next = read_path(alloc, v.needs_name(), other)?;
            let place = find_place(alloc, tree, u, path.parts())?;
            let second = find_place(alloc, tree, v, next.parts())?;
            Ok((place, second))
        }
        Paths::Other => Err(PlainStop::Refused(Reply::NotFile)),
    }
}

// Where a path leads.
fn find_place(alloc: Global, tree: &Tree, u: Use, parts: &[Part]) -> Result<Place, PlainStop>
    requires now { All IsOfNow parts.now }
    requires named { good_path (use_needing (needs_name u)) (Parts parts.now) ≡ None }
    ensures ok { IfOk result (LeadsTo (locate_in tree.now (use_of u) parts.now)) }
    ensures err { IfErr result (LeadsNowhere (locate_in tree.now (use_of u) parts.now)) }
    ensures refuses { IfErr result IsRefusing }
{
    match u {
        Use::New => place_of_new(alloc, tree, parts),
        Use::Named => place_of_name(alloc, tree, parts),
        Use::End(follows) => place_of_end(alloc, tree, follows, parts),
    }
}

// What stands for the second place of a call that has one path.
fn no_place(alloc: Global) -> Place
    ensures { site_of result ≡ no_site }
{
    Place {
        at: ROOT,
        directory: ROOT,
        name: Name::of(Vec::new(alloc)),
        passed: Vec::new(alloc),
    }
}
