// The ids that a pseudo file system keeps.
ghost use Rattle.hm_types.specs.declared.id.Id.{Id};

use crate::fault::RetainFault;
use crate::intervals::{Intervals, are_intervals};
use crate::sets::{OPEN_END, intersection, listed_or_from, passed, union};
use hm_types::{Id, MOST_INTERVALS, NoMemory};
use std::alloc::Global;
use std::marker::Model;

/// The set of ids that a pseudo file system keeps: at most 4,096 maximal intervals in rising order,
/// each the pair of its first and its last id. An open end is the id 2^64 - 1. A contract sees the
/// list of the numbers of the pairs.
#[derive(Debug, Drop)]
pub struct Retention {
    list: Vec<(Id, Id)>,
}

impl Model for Retention {
    ghost use Rattle.std.specs.Prelude.{ℕ, List};
    ghost use Rattle.hm_retain.specs.Intervals.{numbers_of};
    ghost use Rattle.hm_retain.specs.Retention.{IsRetention};

    ghost Value = { List (ℕ × ℕ) };

    ghost view = { λ r. numbers_of r.list.items };

    ghost invariant = { λ r. IsRetention (numbers_of r.list.items) };
}

impl Retention {
    ghost use Rattle.std.specs.Prelude.{◌≡◌, ◌↔◌, ◌-◌, ◌^◌, ◌≤◌, [], ◌∷◌, length};
    ghost use Rattle.std.specs.Prelude.{IfOk, IsOk, IfErr, IfSome, IsSome, IsTrue};
    ghost use Rattle.hm_types.specs.Intervals.{Keeps};
    ghost use Rattle.hm_retain.specs.Intervals.{numbers_of};
    ghost use Rattle.hm_retain.specs.Retention.{IsRetention, IsFirstKept, IsCut, IsJoin, TellsOf};

    /// What a new master keeps: every id from 1 on.
    pub fn master(alloc: Global) -> Result<Retention, NoMemory>
        ensures { IfOk result (λ master. master ≡ (1, 2 ^ 64 - 1) ∷ []) }
    {
        let mut list = Vec::with_capacity(alloc, 1)?;
        list.push((Id(1), OPEN_END))?;
        Ok(Retention { list })
    }

    /// The retention with these intervals. None where they are not maximal intervals in rising
    /// order, or more than 4,096. Takes no memory.
    pub fn of(list: Vec<(Id, Id)>) -> Option<Retention>
        ensures exact { IsSome result ↔ IsRetention (numbers_of list.items) }
        ensures value { IfSome result (λ retention. retention ≡ numbers_of list.items) }
    {
        if list.len() <= MOST_INTERVALS && are_intervals(&list) {
            Some(Retention { list })
        } else {
            None
        }
    }

    /// The first and the last id of each interval, in rising order.
    pub fn pairs(&self) -> &[(Id, Id)]
        ensures value { numbers_of result.now ≡ self.now }
        ensures retention { IsRetention self.now }
    {
        &self.list
    }

    /// Whether the id is in the set. Searches by halves, and takes no memory.
    pub fn keeps(&self, id: Id) -> bool
        ensures { IsTrue result ↔ Keeps self.now id.0 }
    {
        let mut part = self.list.as_slice();
        while !part.is_empty() {
            let middle = part.len() / 2;
            let (first, last) = part[middle];
            if id < first {
                part = &part[..middle];
            } else if last < id {
                part = &part[middle + 1..];
            } else {
                return true;
            }
        }
        false
    }

    /// The least id of the set from `id` on, and None where the set has none there. Searches by
    /// halves, and takes no memory.
    pub fn first_kept(&self, id: Id) -> Option<Id>
        ensures { IsFirstKept self.now id.0 result }
    {
        let mut part = self.list.as_slice();
        let mut next = None;
        while !part.is_empty() {
            let middle = part.len() / 2;
            let (first, last) = part[middle];
            if id < first {
                next = Some(first);
                part = &part[..middle];
            } else if last < id {
                part = &part[middle + 1..];
            } else {
                return Some(id);
            }
        }
        next
    }

    /// Keeps of the set the listed ids, and all from `from` on. Takes time and memory in proportion
    /// to the intervals and the ids together where the ids rise, repeats allowed. Others are put in
    /// order first, in a copy. `TooMany` where more than 4,096 intervals would be left, and
    /// `NoMemory` where an allocation was refused.
    pub fn cut_to(&self, alloc: Global, ids: &[Id], from: Id) -> Result<Retention, RetainFault>
        ensures ok { IfOk result (IsCut self.now ids.now from.0) }
        ensures retention { IfOk result IsRetention }
        ensures err { IfErr result (TellsOf (IsCut self.now ids.now from.0)) }
    {
        let wanted = listed_or_from(alloc, ids, from)?;
        let cut = intersection(alloc, &self.list, wanted.as_slice())?;
        Retention::of_intervals(cut)
    }

    /// Adds to the set what `other` has from `begin` + 1 to `end`, and nothing where `end` is at
    /// most `begin`. Takes time and memory in proportion to the intervals of both. `TooMany` where
    /// more than 4,096 intervals would come out, and `NoMemory` where an allocation was refused.
    pub fn join_pass(
        &self,
        alloc: Global,
        other: &Retention,
        begin: Id,
        end: Id,
    ) -> Result<Retention, RetainFault>
        ensures ok { IfOk result (IsJoin self.now other.now begin.0 end.0) }
        ensures retention { IfOk result IsRetention }
        ensures err { IfErr result (TellsOf (IsJoin self.now other.now begin.0 end.0)) }
    {
        let added = passed(alloc, other.pairs(), begin, end)?;
        let join = union(alloc, &self.list, added.as_slice())?;
        Retention::of_intervals(join)
    }

    // Refuses more intervals than a retention may have.
    fn of_intervals(set: Intervals) -> Result<Retention, RetainFault>
        ensures exact { IsOk result ↔ (length set ≤ MOST_INTERVALS) }
        ensures ok { IfOk result (λ retention. retention ≡ set) }
        ensures retention { IfOk result IsRetention }
        ensures err { IfErr result (TellsOf (λ list. list ≡ set)) }
    {
        let list = set.into_list();
        if list.len() <= MOST_INTERVALS {
            Ok(Retention { list })
        } else {
            let count = u32::try_from(list.len()).unwrap_or(u32::MAX);
            Err(RetainFault::TooMany { count })
        }
    }
}
