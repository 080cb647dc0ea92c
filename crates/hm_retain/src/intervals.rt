// Lists of maximal intervals: the test of one, and one that grows at its end.
ghost use Rattle.std.specs.Prelude.{◌↔◌, IsTrue};
ghost use Rattle.hm_types.specs.declared.id.Id.{Id};
ghost use Rattle.hm_retain.specs.Intervals.{numbers_of, IsInterval, IsIntervals};
ghost use Rattle.hm_retain.specs.Growth.{least_after};

use hm_types::{Id, NoMemory};
use std::alloc::Global;
use std::marker::Model;

/// The maximal intervals of a set of ids, in rising order, however many they are. A contract sees
/// the list of the numbers of their first and last ids.
#[derive(Drop)]
pub struct Intervals {
    list: Vec<(Id, Id)>,
}

impl Model for Intervals {
    ghost use Rattle.std.specs.Prelude.{ℕ, List};
    ghost use Rattle.hm_retain.specs.Intervals.{numbers_of, IsIntervals};

    ghost Value = { List (ℕ × ℕ) };

    ghost view = { λ i. numbers_of i.list.items };

    ghost invariant = { λ i. IsIntervals (numbers_of i.list.items) };
}

impl Intervals {
    ghost use Rattle.std.specs.Prelude.{◌≡◌, ◌≤◌, [], OnOk};
    ghost use Rattle.hm_retain.specs.Intervals.{numbers_of, IsIntervals};
    ghost use Rattle.hm_retain.specs.Growth.{BeginBy, Adds};

    /// The empty set. Takes no memory.
    pub fn new(alloc: Global) -> Intervals
        ensures { result ≡ [] }
    {
        Intervals {
            list: Vec::new(alloc),
        }
    }

    pub fn as_slice(&self) -> &[(Id, Id)]
        ensures value { numbers_of result.now ≡ self.now }
        ensures intervals { IsIntervals self.now }
    {
        &self.list
    }

    /// Takes no memory.
    pub fn into_list(self) -> Vec<(Id, Id)>
        ensures value { numbers_of result.items ≡ self }
        ensures intervals { IsIntervals self }
    {
        self.list
    }

    /// Adds the ids from `first` to `last`, where no interval begins above `first`. They go into
    /// the last interval where they meet it or are adjacent to it. After an error, nothing is known
    /// of the set.
    pub fn add(&mut self, first: Id, last: Id) -> Result<(), NoMemory>
        requires ordered { first.0 ≤ last.0 }
        requires rising { BeginBy first.0 self.old }
        ensures { OnOk result (Adds (first.0, last.0) self.old self.new) }
    {
        let Some(before) = self.list.pop() else {
            self.list.push((first, last))?;
            return Ok(());
        };
        if first.0 <= before.1.0.saturating_add(1) {
            self.list.push((before.0, Id(before.1.0.max(last.0))))?;
        } else {
            self.list.push(before)?;
            self.list.push((first, last))?;
        }
        Ok(())
    }
}

/// Whether these are the maximal intervals of a set, in rising order. Takes no memory.
pub fn are_intervals(mut list: &[(Id, Id)]) -> bool
    ensures { IsTrue result ↔ IsIntervals (numbers_of list.now) }
{
    let mut before = None;
    while let [interval, more @ ..] = list {
        if !may_follow(before, *interval) {
            return false;
        }
        before = Some(interval.1);
        list = more;
    }
    true
}

// Whether an interval may stand after one that ends at `before`, or at the front where there is
// none: its ids rise, and it neither meets that one nor is adjacent to it.
fn may_follow(before: Option<Id>, interval: (Id, Id)) -> bool
    ensures { IsTrue result ↔ IsInterval (least_after before) (interval.0.0, interval.1.0) }
{
    let (first, last) = interval;
    let is_apart = match before {
        None => true,
        Some(end) => end < first && first.0 - end.0 > 1,
    };
    first <= last && is_apart
}
