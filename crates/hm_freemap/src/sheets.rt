// The pages of layer 2 with the entries of the same big-blocks, in the three states.
ghost use Rattle.std.specs.Prelude.{◌≡◌, ◌<◌, ◌^◌, OnOk, IfErr, IsTrue};
ghost use Rattle.hm_types.specs.Faults.{HasFaultCause, IsUndamaged};
ghost use Rattle.hm_freemap.specs.Places.{page_of};
ghost use Rattle.hm_freemap.specs.Scan.{AreRead};
ghost use Rattle.hm_freemap.specs.Stand.{WhereTold};

use crate::pages::{FreemapPages, read_page};
use hm_fields::{Page, State};
use hm_types::Fault;

/// The page with the entry of a big-block, as it stands in each of the three states.
#[derive(Drop)]
pub(crate) struct Sheets {
    pub(crate) committed: Page,
    pub(crate) frozen: Page,
    pub(crate) current: Page,
}

impl Sheets {
    /// Three pages of zeros.
    pub(crate) fn zero() -> Sheets {
        Sheets {
            committed: Page::zero(),
            frozen: Page::zero(),
            current: Page::zero(),
        }
    }

    /// Reads them.
    pub(crate) fn read<P: FreemapPages>(&mut self, pages: &mut P, block: u64) -> Result<(), Fault>
        requires block { block < 2 ^ 32 }
        requires there { IsTrue (P.layer2 pages.old (page_of block)) }
        ensures ok { OnOk result (WhereTold (P.committed pages.old) (P.frozen pages.old)
            (P.pages pages.old) (λ maps. AreRead maps block self.new)) }
        ensures same { (P.pages pages.new ≡ P.pages pages.old)
            × (P.committed pages.new ≡ P.committed pages.old)
            × (P.frozen pages.new ≡ P.frozen pages.old)
            × (P.layer2 pages.new ≡ P.layer2 pages.old) }
        ensures rest { P.rest pages.new ≡ P.rest pages.old }
        ensures name { P.name pages.new ≡ P.name pages.old }
        ensures frame { P.frame pages.new ≡ P.frame pages.old }
        ensures counted { HasFaultCause (P.faults pages.old) (P.faults pages.new) result }
        ensures undamaged { WhereTold (P.committed pages.old) (P.frozen pages.old)
            (P.pages pages.old) (λ _. IfErr result IsUndamaged) }
    {
        read_page(pages, State::Committed, block, &mut self.committed)?;
        read_page(pages, State::Frozen, block, &mut self.frozen)?;
        read_page(pages, State::Current, block, &mut self.current)
    }
}
