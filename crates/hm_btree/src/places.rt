// Moves of places between the vectors of two nodes.
ghost use Rattle.std.specs.Prelude.{◌≡◌, ◌+◌, ◌≤◌, ◌++◌, length, take, drop, insert};
ghost use Rattle.arrayvec.specs.ArrayVec.{array_vec_len};
ghost use Rattle.hm_btree.specs.Edits.{lower_count};

use arrayvec::ArrayVec;
use hm_types::LEAST_PLACES;

/// Appends these places, for which there must be room.
pub fn append<T: Copy + Default, const N: usize>(to: &mut ArrayVec<T, N>, more: &[T])
    requires { array_vec_len to.old + length more.now ≤ N }
    ensures { to.new.items ≡ to.old.items ++ more.now }
{
    match to.try_extend_from_slice(more) {
        Ok(()) => (),
        Err(_) => unreachable!(),
    }
}

/// Takes the places from `from` on out, and gives them.
pub fn split_off<T: Copy + Default, const N: usize>(
    places: &mut ArrayVec<T, N>,
    from: usize,
) -> ArrayVec<T, N>
    requires { from ≤ array_vec_len places.old }
    ensures lower { places.new.items ≡ take from places.old.items }
    ensures upper { result.items ≡ drop from places.old.items }
{
    let mut upper = ArrayVec::new();
    append(&mut upper, &places.as_slice()[from..]);
    places.truncate(from);
    upper
}

/// Puts a place into a vector that is full, keeps the lower part and gives the upper one. Where the
/// new place ends a range whose keys rise, the lower part ends with it, as far as it may.
#[tactic(auto, using(crate::proofs::ListLemmas::halves))]
pub fn insert_and_split<T: Copy + Default, const N: usize>(
    places: &mut ArrayVec<T, N>,
    at: usize,
    value: T,
    ends: bool,
) -> ArrayVec<T, N>
    requires full { array_vec_len places.old ≡ N }
    requires many { 31 ≤ N }
    requires within { at ≤ N }
    ensures lower { places.new.items ≡ take (lower_count N at ends) (insert places.old.items at value) }
    ensures upper { result.items ≡ drop (lower_count N at ends) (insert places.old.items at value) }
{
    let kept = kept_below(places.len(), at, ends);
    if at < kept {
        let upper = split_off(places, kept - 1);
        places.insert(at, value);
        upper
    } else {
        let mut upper = split_off(places, kept);
        upper.insert(at - kept, value);
        upper
    }
}

// How many places the lower part of a full node keeps that gets one more at a place. Where that one ends a
// range whose keys rise, little comes below it any more.
fn kept_below(count: usize, at: usize, ends: bool) -> usize
    requires many { 31 ≤ count }
    requires within { at ≤ count }
    ensures { result ≡ lower_count count at ends }
{
    if ends {
        (count - LEAST_PLACES).min(at.max(LEAST_PLACES - 1)) + 1
    } else {
        count / 2 + 1
    }
}

/// Moves places between the ends of two neighbours, so that the left one has just so many of them
/// all.
#[tactic(auto, using(crate::proofs::ListLemmas::halves))]
pub fn share_out<T: Copy + Default, const N: usize>(
    left: &mut ArrayVec<T, N>,
    right: &mut ArrayVec<T, N>,
    count: usize,
)
    requires left { count ≤ N }
    requires all { count ≤ array_vec_len left.old + array_vec_len right.old }
    requires right { array_vec_len left.old + array_vec_len right.old ≤ count + N }
    ensures lower { left.new.items ≡ take count (left.old.items ++ right.old.items) }
    ensures upper { right.new.items ≡ drop count (left.old.items ++ right.old.items) }
{
    if left.len() < count {
        let upper = split_off(right, count - left.len());
        append(left, right.as_slice());
        *right = upper;
    } else {
        let mut upper = split_off(left, count);
        append(&mut upper, right.as_slice());
        *right = upper;
    }
}
