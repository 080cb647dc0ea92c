// Where the paths of calls lead, on one tree.
ghost use Rattle.std.specs.Prelude.{◌≡◌, All, IfOk, IfErr, None};
ghost use Rattle.hm_model.specs.Sites.{MakesName, TakesName, Walks, Parts};
ghost use Rattle.hm_model.specs.Due.{good_path};
ghost use Rattle.hm_model.specs.Plain.{IsRefusing, IsOfNow, LeadsTo, LeadsNowhere, follow_of, locate_in};

use crate::reply::Reply;
use crate::stop::PlainStop;
use crate::tree::Tree;
use crate::walk::{go_over, walk_along, walk_front};
use hm_path::Part;
use hm_types::{Name, Obj};
use std::alloc::Global;

/// Where a path leads: the object at its end, and for a use of its last name the directory and the
/// name. What was passed is what the walk to that directory passed, or else the walk to the end.
#[derive(Debug, Drop)]
pub(crate) struct Place {
    pub(crate) at: Obj,
    pub(crate) directory: Obj,
    pub(crate) name: Name,
    pub(crate) passed: Vec<Obj>,
}

/// The place of a new name: the walk before it must end in a directory.
pub(crate) fn place_of_new(alloc: Global, tree: &Tree, parts: &[Part]) -> Result<Place, PlainStop>
    requires now { All IsOfNow parts.now }
    requires named { good_path MakesName (Parts parts.now) ≡ None }
    ensures ok { IfOk result (LeadsTo (locate_in tree.now MakesName parts.now)) }
    ensures err { IfErr result (LeadsNowhere (locate_in tree.now MakesName parts.now)) }
    ensures refuses { IfErr result IsRefusing }
{
    let Some((last, front)) = parts.split_last() else {
        unreachable!();
    };
    let Some(name) = &last.name else {
        unreachable!();
    };
    let walk = walk_front(alloc, tree, front)?;
    if !tree.is_directory(walk.here) {
        return Err(PlainStop::Refused(Reply::NotDir));
    }
    Ok(Place {
        at: walk.here,
        directory: walk.here,
        name: name.clone()?,
        passed: walk.passed,
    })
}

/// The place of a name that stands there.
pub(crate) fn place_of_name(alloc: Global, tree: &Tree, parts: &[Part]) -> Result<Place, PlainStop>
    requires now { All IsOfNow parts.now }
    requires named { good_path TakesName (Parts parts.now) ≡ None }
    ensures ok { IfOk result (LeadsTo (locate_in tree.now TakesName parts.now)) }
    ensures err { IfErr result (LeadsNowhere (locate_in tree.now TakesName parts.now)) }
    ensures refuses { IfErr result IsRefusing }
{
    let Some((last, front)) = parts.split_last() else {
        unreachable!();
    };
    let Some(name) = &last.name else {
        unreachable!();
    };
    let before = walk_front(alloc, tree, front)?;
    let directory = before.here;
    let passed = before.passed.clone()?;
    let walk = go_over(tree, false, last, before)?;
    Ok(Place {
        at: walk.here,
        directory,
        name: name.clone()?,
        passed,
    })
}

/// The place of a path's end.
pub(crate) fn place_of_end(
    alloc: Global,
    tree: &Tree,
    follows: bool,
    parts: &[Part],
) -> Result<Place, PlainStop>
    requires { All IsOfNow parts.now }
    ensures ok { IfOk result (LeadsTo (locate_in tree.now (Walks (follow_of follows)) parts.now)) }
    ensures err { IfErr result
        (LeadsNowhere (locate_in tree.now (Walks (follow_of follows)) parts.now)) }
    ensures refuses { IfErr result IsRefusing }
{
    let walk = walk_along(alloc, tree, follows, parts)?;
    Ok(Place {
        at: walk.here,
        directory: walk.here,
        name: Name::of(Vec::new(alloc)),
        passed: walk.passed,
    })
}
