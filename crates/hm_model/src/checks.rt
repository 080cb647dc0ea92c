// The own checks of calls on one tree, each with the refusal that it gives where it fails.
ghost use Rattle.std.specs.Prelude.{◌≡◌, ◌+◌, ◌==◌, IfSome, false, true};
ghost use Rattle.std.specs.List.{list_any};
ghost use Rattle.std.specs.Option.{option_copied, option_map_or};
ghost use Rattle.hm_types.specs.declared.id.Obj.{Obj};
ghost use Rattle.hm_types.specs.declared.object.Object.{Object};
ghost use Rattle.hm_model.specs.Call.{site_object, standing};
ghost use Rattle.hm_model.specs.Due.{first_refusal, name_is_new, no_dir, a_dir, a_file, a_link};
ghost use Rattle.hm_model.specs.Due.{is_empty, fits_file, links_left, gives_way};
ghost use Rattle.hm_model.specs.Reply.{is_refusal};
ghost use Rattle.hm_model.specs.Plain.{site_of};
ghost use Rattle.hm_model.specs.PlainChecks.{finds, own_at, not_into_itself_at, way_at};

use crate::command::Command;
use crate::place::Place;
use crate::reply::Reply;
use crate::tree::Tree;
use hm_types::{Kind, MOST_FILE_BYTES, Obj, Object};

/// The refusal of the first of a call's own checks that fails. Its paths lead to these places.
pub(crate) fn own_refusal(tree: &Tree, call: &Command, a: &Place, b: &Place) -> Option<Reply>
    ensures check { result ≡ first_refusal (own_at tree.now call.now (site_of a.now) (site_of b.now)) }
    ensures refuses { IfSome result (λ r. is_refusal r ≡ true) }
{
    match call {
        Command::Mkdir { .. } => name_is_new(tree, a),
        Command::Touch { .. } => name_is_new(tree, a),
        Command::Symlink { .. } => name_is_new(tree, a),
        Command::Snapshot { .. } => name_is_new(tree, a),
        Command::Ln { .. } => no_dir(tree, a)
            .or(a_file(tree, a))
            .or(name_is_new(tree, b))
            .or(links_left(tree, a)),
        Command::Mv { .. } => not_into_itself(a, b).or(way_is_free(tree, a, b)),
        Command::Write { offset, bytes, .. } => no_dir(tree, a)
            .or(a_file(tree, a))
            .or(fits_file(*offset, bytes.bytes().len() as u64)),
        Command::Fill { offset, count, .. } => no_dir(tree, a)
            .or(a_file(tree, a))
            .or(fits_file(*offset, u64::from(*count))),
        Command::Truncate { size, .. } => no_dir(tree, a)
            .or(a_file(tree, a))
            .or(fits_file(*size, 0)),
        Command::Rm { .. } => no_dir(tree, a),
        Command::Rmdir { .. } => a_dir(tree, a).or(is_empty(tree, a)),
        Command::Ls { .. } => a_dir(tree, a),
        Command::Cat { .. } => no_dir(tree, a).or(a_file(tree, a)),
        Command::Readlink { .. } => a_link(tree, a),
        _ => None,
    }
}

// A new name does not stand in its directory yet.
fn name_is_new(tree: &Tree, place: &Place) -> Option<Reply>
    ensures check { result ≡ name_is_new (finds tree.now) (site_of place.now) }
    ensures refuses { IfSome result (λ r. is_refusal r ≡ true) }
{
    match tree.named(place.directory, &place.name) {
        Some(_) => Some(Reply::Exists),
        None => None,
    }
}

// The object is neither a directory nor a PFS link.
fn no_dir(tree: &Tree, place: &Place) -> Option<Reply>
    ensures check { result ≡ no_dir (finds tree.now) (site_of place.now) }
    ensures refuses { IfSome result (λ r. is_refusal r ≡ true) }
{
    match tree.object(place.at)?.kind {
        Kind::Directory | Kind::PfsLink => Some(Reply::IsDir),
        Kind::File | Kind::Softlink => None,
    }
}

// The object is a directory.
fn a_dir(tree: &Tree, place: &Place) -> Option<Reply>
    ensures check { result ≡ a_dir (finds tree.now) (site_of place.now) }
    ensures refuses { IfSome result (λ r. is_refusal r ≡ true) }
{
    if tree.is_directory(place.at) {
        None
    } else {
        Some(Reply::NotDir)
    }
}

// The object is no softlink.
fn a_file(tree: &Tree, place: &Place) -> Option<Reply>
    ensures check { result ≡ a_file (finds tree.now) (site_of place.now) }
    ensures refuses { IfSome result (λ r. is_refusal r ≡ true) }
{
    match tree.object(place.at)?.kind {
        Kind::Softlink => Some(Reply::NotFile),
        Kind::Directory | Kind::File | Kind::PfsLink => None,
    }
}

// The object is a softlink or a PFS link.
fn a_link(tree: &Tree, place: &Place) -> Option<Reply>
    ensures check { result ≡ a_link (finds tree.now) (site_of place.now) }
    ensures refuses { IfSome result (λ r. is_refusal r ≡ true) }
{
    match tree.object(place.at) {
        Some(object) => match object.kind {
            Kind::Softlink | Kind::PfsLink => None,
            Kind::Directory | Kind::File => Some(Reply::NotLink),
        },
        None => Some(Reply::NotLink),
    }
}

// The directory is empty.
fn is_empty(tree: &Tree, place: &Place) -> Option<Reply>
    ensures check { result ≡ is_empty (finds tree.now) (site_of place.now) }
    ensures refuses { IfSome result (λ r. is_refusal r ≡ true) }
{
    if tree.entry_count(place.at) > 0 {
        Some(Reply::NotEmpty)
    } else {
        None
    }
}

// A file that reaches so many bytes past this offset is no larger than it may be.
fn fits_file(offset: u64, count: u64) -> Option<Reply>
    ensures check { result ≡ fits_file (offset + count) }
    ensures refuses { IfSome result (λ r. is_refusal r ≡ true) }
{
    match offset.checked_add(count) {
        Some(end) if end <= MOST_FILE_BYTES => None,
        _ => Some(Reply::TooBig),
    }
}

// The object's count of links can rise.
fn links_left(tree: &Tree, place: &Place) -> Option<Reply>
    ensures check { result ≡ links_left (finds tree.now) (site_of place.now) }
    ensures refuses { IfSome result (λ r. is_refusal r ≡ true) }
{
    if tree.object(place.at)?.links < u32::MAX {
        None
    } else {
        Some(Reply::TooBig)
    }
}

// What is moved does not stand on the walk of its new name.
fn not_into_itself(a: &Place, b: &Place) -> Option<Reply>
    ensures check { result ≡ not_into_itself_at (site_of a.now) (site_of b.now) }
    ensures refuses { IfSome result (λ r. is_refusal r ≡ true) }
{
    if has_passed(b, a.at) {
        Some(Reply::IntoItself)
    } else {
        None
    }
}

fn has_passed(place: &Place, object: Obj) -> bool
    ensures { result ≡ list_any (λ (o : Obj). o.0 == object.0) place.now.passed.items }
{
    place.passed.iter().any(|o| *o == object)
}

// Nothing that stays stands under the new name: a name that leads to no object stays.
fn way_is_free(tree: &Tree, a: &Place, b: &Place) -> Option<Reply>
    ensures check { result ≡ way_at tree.now (site_of a.now) (site_of b.now) }
    ensures refuses { IfSome result (λ r. is_refusal r ≡ true) }
{
    let number = tree.named(b.directory, &b.name)?;
    match tree.object(number) {
        Some(there) if may_replace(tree, a, there) => None,
        _ => Some(Reply::Exists),
    }
}

// Whether what stands under a new name gives way to the object at a place.
fn may_replace(tree: &Tree, a: &Place, there: &Object) -> bool
    ensures { result ≡ option_map_or (λ (moved : Object). gives_way (finds tree.now) moved there.now)
        (site_object (finds tree.now) (site_of a.now)) false }
{
    match tree.object(a.at) {
        Some(moved) => gives_way(moved, there),
        None => false,
    }
}

/// The object that stands under a place's name already.
pub(crate) fn standing<'a>(tree: &'a Tree, place: &Place) -> Option<&'a Object>
    ensures { option_copied result ≡ standing (finds tree.now) (site_of place.now) }
{
    tree.object(tree.named(place.directory, &place.name)?)
}

// Whether an object gives way to the one that is moved over it: it is that object, or it is a file or
// softlink and the moved one is no directory.
fn gives_way(moved: &Object, there: &Object) -> bool
    ensures { (tree : _) → result ≡ gives_way (finds tree) moved.now there.now }
{
    moved.number == there.number
        || (matches!(there.kind, Kind::File | Kind::Softlink) && moved.kind != Kind::Directory)
}
