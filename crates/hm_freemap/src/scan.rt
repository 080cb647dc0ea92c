// A look for free big-blocks, through the entries of the pool.
ghost use Rattle.std.specs.Prelude.{
  ◌≡◌,
  ◌≤◌,
  ◌<◌,
  ◌+◌,
  ◌-◌,
  ◌↔◌,
  ◌++◌,
  ℕ,
  Bool,
  List,
  [],
  ◌∷◌,
  OnOk,
  IfOk,
  IfErr,
  IsTrue,
  IsSome,
  IfSome,
};
ghost use Rattle.std.specs.List.{range_with_len};
ghost use Rattle.hm_types.specs.Layout.{IsPool};
ghost use Rattle.hm_types.specs.References.{is_append, pool};
ghost use Rattle.hm_types.specs.declared.limits.TheConstants.{LEAST_BIGBLOCKS, MOST_BIGBLOCKS};
ghost use Rattle.hm_freemap.specs.Faults.{HasFreemapCause};
ghost use Rattle.hm_freemap.specs.Places.{HasLayer2};
ghost use Rattle.hm_freemap.specs.Scan.{Finds, AllHold, IsAgreed};
ghost use Rattle.hm_freemap.specs.Stand.{AreBelow, WhereTold, is_free_by, is_free_in};

use crate::pages::FreemapPages;
use crate::pool_entry::{bad_entry, is_clear};
use crate::sheets::Sheets;
use hm_types::{Fault, first_pool};

/// The free big-blocks that a look has found.
#[derive(Drop)]
pub(crate) struct Found {
    /// How many there are.
    pub(crate) count: u32,
    /// The first four of them.
    pub(crate) first: [u32; 4],
}

impl Found {
    /// None.
    fn none() -> Found
        ensures none { result.count ≡ 0 }
        ensures found { (free : ℕ → Bool) (limit : ℕ) → Finds free limit [] result }
        ensures below { (bound : ℕ) → 0 < bound → AreBelow bound result.first }
    {
        Found {
            count: 0,
            first: [0; 4],
        }
    }

    // One more.
    fn add(&mut self, block: u32, limit: u32)
        requires { self.old.count < limit }
        ensures count { self.new.count ≡ self.old.count + 1 }
        ensures found { (free : ℕ → Bool) (blocks : List ℕ) → IsTrue (free block) →
            Finds free limit blocks self.old → Finds free limit (blocks ++ block ∷ []) self.new }
        ensures below { (bound : ℕ) → block < bound → AreBelow bound self.old.first →
            AreBelow bound self.new.first }
    {
        if self.count < 4 {
            self.first[self.count as usize] = block;
        }
        self.count += 1;
    }

    // Looks at the big-blocks from one to before another, whose entries stand on these pages, until
    // so many were found. A big-block that has none is an error.
    fn look(
        &mut self,
        sheets: &Sheets,
        append: &[u32; 4],
        from: u32,
        to: u32,
        limit: u32,
    ) -> Result<(), u32>
        requires order { from ≤ to }
        requires few { self.old.count ≤ limit }
        ensures few { self.new.count ≤ limit }
        ensures ok { OnOk result ((free : ℕ → Bool) (first : ℕ) → first ≤ from →
            IsAgreed free append.now sheets.now from to →
            Finds free limit (range_with_len first (from - first)) self.old →
            Finds free limit (range_with_len first (to - first)) self.new) }
        ensures below { (bound : ℕ) → to ≤ bound → AreBelow bound self.old.first →
            AreBelow bound self.new.first }
        ensures err { IfErr result (λ block. (from ≤ block) × (block < to)
            × (AllHold sheets.now block → ⊥)) }
    {
        for block in from..to {
            if self.count == limit {
                return Ok(());
            }
            self.look_at(sheets, append, block, limit)?;
        }
        Ok(())
    }

    // Looks at one.
    fn look_at(
        &mut self,
        sheets: &Sheets,
        append: &[u32; 4],
        block: u32,
        limit: u32,
    ) -> Result<(), u32>
        requires { self.old.count < limit }
        ensures few { self.new.count ≤ limit }
        ensures ok { OnOk result ((free : ℕ → Bool) (blocks : List ℕ) →
            free block ≡ is_free_in append.now
            sheets.now.committed sheets.now.frozen sheets.now.current block →
            Finds free limit blocks self.old → Finds free limit (blocks ++ block ∷ []) self.new) }
        ensures below { (bound : ℕ) → block < bound → AreBelow bound self.old.first →
            AreBelow bound self.new.first }
        ensures err { IfErr result (λ bad. (bad ≡ block) × (AllHold sheets.now block → ⊥)) }
    {
        match is_free(sheets, append, block) {
            Some(true) => {
                self.add(block, limit);
                Ok(())
            }
            Some(false) => Ok(()),
            None => Err(block),
        }
    }
}

// Whether a big-block is free by the entries on these pages. None where one of them is none of the
// pool.
fn is_free(sheets: &Sheets, append: &[u32; 4], block: u32) -> Option<bool>
    ensures some { IsSome result ↔ AllHold sheets.now block }
    ensures value { IfSome result (λ free. free ≡ is_free_in append.now
        sheets.now.committed sheets.now.frozen sheets.now.current block) }
{
    let number = u64::from(block);
    let committed = is_clear(&sheets.committed, number)?;
    let frozen = is_clear(&sheets.frozen, number)?;
    let current = is_clear(&sheets.current, number)?;
    Some(!is_one_of(append, block) && committed && frozen && current)
}

// Whether a big-block is one of the four.
fn is_one_of(append: &[u32; 4], block: u32) -> bool
    ensures { result ≡ is_append append.now block }
{
    append.iter().any(|b| *b == block)
}

/// Looks for free big-blocks in the pool, until so many were found.
pub(crate) fn scan<P: FreemapPages>(
    pages: &mut P,
    bigblocks: u32,
    append: &[u32; 4],
    limit: u32,
) -> Result<Found, Fault>
    requires least { LEAST_BIGBLOCKS ≤ bigblocks }
    requires most { bigblocks ≤ MOST_BIGBLOCKS }
    requires there { HasLayer2 bigblocks (P.layer2 pages.old) }
    ensures ok { IfOk result (λ found.
        WhereTold (P.committed pages.old) (P.frozen pages.old) (P.pages pages.old) (λ maps.
        Finds (is_free_by append.now maps) limit (pool bigblocks) found)) }
    ensures below { IfOk result (λ found. AreBelow bigblocks found.first) }
    ensures same { (P.pages pages.new ≡ P.pages pages.old)
        × (P.committed pages.new ≡ P.committed pages.old)
        × (P.frozen pages.new ≡ P.frozen pages.old)
        × (P.layer2 pages.new ≡ P.layer2 pages.old) }
    ensures rest { P.rest pages.new ≡ P.rest pages.old }
    ensures name { P.name pages.new ≡ P.name pages.old }
    ensures frame { P.frame pages.new ≡ P.frame pages.old }
    ensures cause { HasFreemapCause bigblocks append.now (IsPool bigblocks)
        (P.committed pages.old) (P.frozen pages.old) (P.pages pages.old)
        (P.faults pages.old) (P.faults pages.new) result }
{
    let mut found = Found::none();
    let mut sheets = Sheets::zero();
    let mut from = first_pool(bigblocks);
    while from < bigblocks && found.count < limit {
        let to = bigblocks.min((from / 256 + 1) * 256);
        sheets.read(pages, u64::from(from))?;
        match found.look(&sheets, append, from, to, limit) {
            Ok(()) => from = to,
            Err(block) => return Err(bad_entry(u64::from(block))),
        }
    }
    Ok(found)
}
