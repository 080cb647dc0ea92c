// Walks along the parts of a path, on one tree.
ghost use Rattle.std.specs.Prelude.{All, IfOk, IfErr, true};
ghost use Rattle.hm_model.specs.Walk.{reach};
ghost use Rattle.hm_model.specs.Plain.{IsRefusing, IsOfNow, EndsWalk, StopsWalk, pairs, place};
ghost use Rattle.hm_model.specs.Plain.{walk_in, step_in, name_in, object_on, entered_in};

use crate::reply::Reply;
use crate::stop::PlainStop;
use crate::tree::Tree;
use hm_path::Part;
use hm_types::{Content, Name, Obj, Pfs};
use std::alloc::Global;

/// The root directory of every tree.
pub(crate) const ROOT: Obj = Obj(1);

/// Where a walk stands, and the objects that it passed up to there.
#[derive(Debug, Drop)]
pub(crate) struct Walk {
    pub(crate) here: Obj,
    pub(crate) passed: Vec<Obj>,
}

impl Walk {
    /// Goes on to this object.
    fn reach(self, object: Obj) -> Result<Walk, PlainStop>
        ensures ok { IfOk result (EndsWalk (reach (place object) (pairs self.passed.items))) }
        ensures err { IfErr result (StopsWalk (reach (place object) (pairs self.passed.items))) }
        ensures refuses { IfErr result IsRefusing }
    {
        let mut passed = self.passed;
        passed.push(object)?;
        Ok(Walk {
            here: object,
            passed,
        })
    }
}

/// Walks over these parts from the root. A PFS link is followed, at their end too.
pub(crate) fn walk_front(alloc: Global, tree: &Tree, parts: &[Part]) -> Result<Walk, PlainStop>
    requires { All IsOfNow parts.now }
    ensures ok { IfOk result (EndsWalk (walk_in tree.now true parts.now)) }
    ensures err { IfErr result (StopsWalk (walk_in tree.now true parts.now)) }
    ensures refuses { IfErr result IsRefusing }
{
    let mut here = Walk {
        here: ROOT,
        passed: vec![in alloc; ROOT]?,
    };
    for part in parts {
        here = go_over(tree, true, part, here)?;
    }
    Ok(here)
}

/// Walks a path. A PFS link at its end is followed where `follows` says so.
pub(crate) fn walk_along(
    alloc: Global,
    tree: &Tree,
    follows: bool,
    parts: &[Part],
) -> Result<Walk, PlainStop>
    requires { All IsOfNow parts.now }
    ensures ok { IfOk result (EndsWalk (walk_in tree.now follows parts.now)) }
    ensures err { IfErr result (StopsWalk (walk_in tree.now follows parts.now)) }
    ensures refuses { IfErr result IsRefusing }
{
    match parts.split_last() {
        Some((last, front)) => {
            let before = walk_front(alloc, tree, front)?;
            go_over(tree, follows, last, before)
        }
        None => walk_front(alloc, tree, parts),
    }
}

/// Goes over one part.
pub(crate) fn go_over(
    tree: &Tree,
    follows: bool,
    part: &Part,
    walk: Walk,
) -> Result<Walk, PlainStop>
    requires { IsOfNow part.now }
    ensures ok { IfOk result (EndsWalk (step_in tree.now follows part.now walk)) }
    ensures err { IfErr result (StopsWalk (step_in tree.now follows part.now walk)) }
    ensures refuses { IfErr result IsRefusing }
{
    let Some(name) = &part.name else {
        return Ok(walk);
    };
    if !tree.is_directory(walk.here) {
        return Err(PlainStop::Refused(Reply::NotDir));
    }
    go_to_name(tree, follows, name, walk)
}

// Goes on to a name in the directory in hand.
fn go_to_name(tree: &Tree, follows: bool, name: &Name, walk: Walk) -> Result<Walk, PlainStop>
    ensures ok { IfOk result (EndsWalk (name_in tree.now follows name.now walk)) }
    ensures err { IfErr result (StopsWalk (name_in tree.now follows name.now walk)) }
    ensures refuses { IfErr result IsRefusing }
{
    match tree.named(walk.here, name) {
        Some(number) => go_to_object(tree, follows, number, walk),
        None => Err(PlainStop::Refused(Reply::NotFound)),
    }
}

// Goes on to an object, which the tree must have.
fn go_to_object(tree: &Tree, follows: bool, number: Obj, walk: Walk) -> Result<Walk, PlainStop>
    ensures ok { IfOk result (EndsWalk (object_on tree.now follows number walk)) }
    ensures err { IfErr result (StopsWalk (object_on tree.now follows number walk)) }
    ensures refuses { IfErr result IsRefusing }
{
    let Some(object) = tree.object(number) else {
        return Err(PlainStop::Refused(Reply::NotFound));
    };
    let there = walk.reach(number)?;
    match object.content {
        Content::Linked(pfs) if follows => go_over_link(tree, pfs, there),
        _ => Ok(there),
    }
}

// Goes over a PFS link. The only PFS is the one with number 0.
fn go_over_link(tree: &Tree, pfs: Pfs, walk: Walk) -> Result<Walk, PlainStop>
    ensures ok { IfOk result (EndsWalk (entered_in tree.now pfs.0 walk)) }
    ensures err { IfErr result (StopsWalk (entered_in tree.now pfs.0 walk)) }
    ensures refuses { IfErr result IsRefusing }
{
    if pfs.0 != 0 || tree.object(ROOT).is_none() {
        return Err(PlainStop::Refused(Reply::NotFound));
    }
    walk.reach(ROOT)
}
