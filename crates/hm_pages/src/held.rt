// A page in a table.
ghost use Rattle.std.proofs.Props.{props};
ghost use Rattle.hm_fields.specs.Fields.{AreBytes};

use hm_fields::Page;

/// A page that a table keeps. It carries what the type of a page tells of each of its bytes, since no
/// contract on a table could say it of the pages inside.
#[derive(Drop)]
pub(crate) struct HeldPage {
    pub(crate) page: Page,
    ghost bytes: { AreBytes page } by { Prim.hlevel props },
}

impl HeldPage {
    ghost use Rattle.std.specs.Prelude.{◌≡◌};

    /// The same page.
    #[inline]
    pub(crate) fn of(page: &Page) -> HeldPage
        ensures { result.page ≡ page.now }
    {
        let _ = page.bytes();
        HeldPage { page: *page }
    }
}
