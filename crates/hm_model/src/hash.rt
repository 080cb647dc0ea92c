// The check that hashes of names are left.
ghost use Rattle.std.specs.Prelude.{◌≡◌, ◌/◌, ◌^◌, count_by, IfSome, true};
ghost use Rattle.hm_types.specs.Hash.{name_hash};
ghost use Rattle.hm_types.specs.Tree.{entries_in};
ghost use Rattle.hm_model.specs.Due.{same_hash};
ghost use Rattle.hm_model.specs.Reply.{is_refusal};
ghost use Rattle.hm_model.specs.Plain.{site_of};
ghost use Rattle.hm_model.specs.PlainChecks.{hash_at, new_hash_at};

use crate::command::Command;
use crate::place::Place;
use crate::reply::Reply;
use crate::tree::Tree;
use hm_types::{Name, Obj, name_hash};

// How many names of a directory may have one upper part of their hashes: all bits but the lowest 17.
const MOST_ALIKE: usize = 1_024;

const LOWER_BITS: u64 = 131_072;

/// The check that hashes of names are left for the new name of a call, if it makes one.
pub(crate) fn hash_refusal(tree: &Tree, call: &Command, a: &Place, b: &Place) -> Option<Reply>
    ensures check { result ≡ new_hash_at tree.now call.now (site_of a.now) (site_of b.now) }
    ensures refuses { IfSome result (λ r. is_refusal r ≡ true) }
{
    match call {
        Command::Mkdir { .. } => hash_left(tree, a),
        Command::Touch { .. } => hash_left(tree, a),
        Command::Symlink { .. } => hash_left(tree, a),
        Command::Snapshot { .. } => hash_left(tree, a),
        Command::Ln { .. } => hash_left(tree, b),
        Command::Mv { .. } => hash_left(tree, b),
        _ => None,
    }
}

// The check that hashes of names are left for the new name at a place.
fn hash_left(tree: &Tree, place: &Place) -> Option<Reply>
    ensures check { result ≡ hash_at tree.now (site_of place.now) }
    ensures refuses { IfSome result (λ r. is_refusal r ≡ true) }
{
    if tree.named(place.directory, &place.name).is_some() {
        return None;
    }
    if count_alike(tree, place.directory, &place.name) < MOST_ALIKE {
        None
    } else {
        Some(Reply::HashFull)
    }
}

// How many entries of a directory have the upper part of a name's hash.
fn count_alike(tree: &Tree, directory: Obj, name: &Name) -> usize
    ensures { result ≡ count_by (same_hash name_hash name.now) (entries_in tree.now directory) }
{
    let upper = upper_part(name);
    tree.triples
        .iter()
        .filter(|t| t.directory == directory)
        .filter(|t| upper_part(&t.name) == upper)
        .count()
}

fn upper_part(name: &Name) -> u64
    ensures { result ≡ name_hash name.now / 2 ^ 17 }
{
    name_hash(name.bytes()) / LOWER_BITS
}
