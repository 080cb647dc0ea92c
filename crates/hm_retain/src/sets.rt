// Sets of ids made of others: each walks its lists together once, in rising order.
ghost use Rattle.std.specs.Prelude.{◌⊎◌, ◌↔◌, ℕ, ◌<◌, ◌≤◌, ◌≡◌, [], max, IfOk, OnOk, MatchOption};
ghost use Rattle.std.specs.List.Sorted.{IsNonDecreasingBy};
ghost use Rattle.hm_types.specs.declared.id.Id.{Id};
ghost use Rattle.hm_retain.specs.Growth.{BeginBy};
ghost use Rattle.hm_types.specs.Intervals.{Keeps};
ghost use Rattle.hm_retain.specs.Intervals.{KeepsExactly, numbers_of, IsIntervals};
ghost use Rattle.hm_retain.specs.Retention.{IsListed};
ghost use Rattle.hm_retain.specs.Walk.{AddsShared, TakesEarliest};

use crate::intervals::Intervals;
use hm_types::{Id, NoMemory};
use std::alloc::Global;

/// The greatest number that an id may have: the last id of an interval whose end is open.
pub const OPEN_END: Id = Id(u64::MAX);

/// The listed ids, and all from `from` on. Ids that do not rise are put in order in a copy.
pub fn listed_or_from(alloc: Global, ids: &[Id], from: Id) -> Result<Intervals, NoMemory>
    ensures { IfOk result (λ set. KeepsExactly set
        (λ id. IsListed ids.now id ⊎ (from.0 ≤ id))) }
{
    if ids.is_sorted() {
        return rising_or_from(alloc, ids, from);
    }
    let mut sorted = Vec::from_slice(alloc, ids)?;
    sorted.sort_unstable();
    rising_or_from(alloc, &sorted, from)
}

/// What the list keeps from `begin` + 1 to `end`.
pub fn passed(alloc: Global, list: &[(Id, Id)], begin: Id, end: Id) -> Result<Intervals, NoMemory>
    requires { IsIntervals (numbers_of list.now) }
    ensures { IfOk result (λ set. (id : ℕ) →
        (Keeps set id ↔ (Keeps (numbers_of list.now) id × (begin.0 < id) × (id ≤ end.0)))) }
{
    if end <= begin {
        return Ok(Intervals::new(alloc));
    }
    let span = [(Id(begin.0 + 1), end)];
    intersection(alloc, list, &span)
}

// The listed ids, which rise, and all from `from` on.
fn rising_or_from(alloc: Global, mut ids: &[Id], from: Id) -> Result<Intervals, NoMemory>
    requires { IsNonDecreasingBy (λ (id : Id). id.0) ids.now }
    ensures { IfOk result (λ set. KeepsExactly set
        (λ id. IsListed ids.now id ⊎ (from.0 ≤ id))) }
{
    let mut set = Intervals::new(alloc);
    while let [id, more @ ..] = ids {
        if *id < from {
            set.add(*id, *id)?;
        }
        ids = more;
    }
    set.add(from, OPEN_END)?;
    Ok(set)
}

/// The ids that both lists keep.
pub fn intersection(
    alloc: Global,
    mut a: &[(Id, Id)],
    mut b: &[(Id, Id)],
) -> Result<Intervals, NoMemory>
    requires a { IsIntervals (numbers_of a.now) }
    requires b { IsIntervals (numbers_of b.now) }
    ensures { IfOk result (λ set. (id : ℕ) →
        (Keeps set id ↔ (Keeps (numbers_of a.now) id × Keeps (numbers_of b.now) id))) }
{
    let mut set = Intervals::new(alloc);
    while let [x, more_a @ ..] = a
        && let [y, more_b @ ..] = b
    {
        add_shared(&mut set, *x, *y)?;
        if x.1 < y.1 {
            a = more_a;
        } else {
            b = more_b;
        }
    }
    Ok(set)
}

// Adds the ids that both intervals hold.
fn add_shared(set: &mut Intervals, x: (Id, Id), y: (Id, Id)) -> Result<(), NoMemory>
    requires { BeginBy (max x.0.0 y.0.0) set.old }
    ensures { OnOk result (AddsShared (x.0.0, x.1.0) (y.0.0, y.1.0) set.old set.new) }
{
    let first = x.0.0.max(y.0.0);
    let last = x.1.0.min(y.1.0);
    if first <= last {
        set.add(Id(first), Id(last))?;
    }
    Ok(())
}

/// The ids that one of the lists keeps, or both.
pub fn union(alloc: Global, mut a: &[(Id, Id)], mut b: &[(Id, Id)]) -> Result<Intervals, NoMemory>
    requires a { IsIntervals (numbers_of a.now) }
    requires b { IsIntervals (numbers_of b.now) }
    ensures { IfOk result (λ set. (id : ℕ) →
        (Keeps set id ↔ (Keeps (numbers_of a.now) id ⊎ Keeps (numbers_of b.now) id))) }
{
    let mut set = Intervals::new(alloc);
    while let Some((interval, more_a, more_b)) = earliest(a, b) {
        set.add(interval.0, interval.1)?;
        (a, b) = (more_a, more_b);
    }
    Ok(set)
}

// The interval of two lists that begins first, and what is left of each list without it.
fn earliest<'a, 'b>(
    a: &'a [(Id, Id)],
    b: &'b [(Id, Id)],
) -> Option<((Id, Id), &'a [(Id, Id)], &'b [(Id, Id)])>
    ensures { MatchOption result ((a.now ≡ []) × (b.now ≡ []))
        (λ (taken, more_a, more_b). TakesEarliest (numbers_of a.now) (numbers_of b.now)
        (taken.0.0, taken.1.0) (numbers_of more_a.now) (numbers_of more_b.now)) }
{
    match (a, b) {
        ([x, more @ ..], []) => Some((*x, more, b)),
        ([x, more @ ..], [y, ..]) if x.0 <= y.0 => Some((*x, more, b)),
        (_, [y, more @ ..]) => Some((*y, a, more)),
        ([], []) => None,
    }
}
