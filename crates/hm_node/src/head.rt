// The head of a page: what kind of node it holds, and how many places.
ghost use Rattle.std.specs.Prelude.{◌≡◌, ◌≤◌, ◌+◌, ℕ, length};
ghost use Rattle.hm_types.specs.declared.limits.TheConstants.{PAGE_BYTES};
ghost use Rattle.hm_fields.specs.Fields.{Apart, get};
ghost use Rattle.hm_node.specs.Head.{head_in};

use hm_fields::{Page, get_u16, get_u64, put_u8, put_u16, put_u64};

/// The `kind` of a leaf.
pub const LEAF: u8 = 1;

/// The `kind` of an inner node.
pub const INNER: u8 = 2;

/// The level of a leaf. An inner node's level is one more than that of its children.
pub const LEAF_LEVEL: u8 = 1;

/// What the first bytes of a page say of its node.
#[derive(Clone, Copy, Debug, PartialEq, Eq)]
pub struct Head {
    /// 1 for a leaf and 2 for an inner node.
    pub kind: u8,
    /// 1 for a leaf, and 2 to 9 for an inner node.
    pub level: u8,
    /// How many elements or children it has.
    pub count: u16,
    /// No id that made or closed an element below the node is above this one.
    pub mirror: u64,
}

impl Head {
    /// The head in a page, whether or not it keeps any rule.
    pub fn read(page: &Page) -> Head
        ensures value { result ≡ head_in page.now }
        ensures sized { length page.now ≡ PAGE_BYTES }
    {
        let bytes = page.bytes();
        Head {
            kind: bytes[0],
            level: bytes[1],
            count: get_u16(page, 2),
            mirror: get_u64(page, 8),
        }
    }

    // Writes the head into a page.
    #[tactic(auto, using(hm_fields::proofs::FieldLemmas::fields))]
    pub(crate) fn write(&self, page: &mut Page)
        ensures value { head_in page.new ≡ self.now }
        ensures others { (other width : ℕ) → 16 ≤ other →
            get page.new other width ≡ get page.old other width }
        ensures between { (other width : ℕ) → Apart 0 4 other width → Apart 8 8 other width →
            get page.new other width ≡ get page.old other width }
        ensures sized { length page.new ≡ PAGE_BYTES }
    {
        put_u8(page, 0, self.kind);
        put_u8(page, 1, self.level);
        put_u16(page, 2, self.count);
        put_u64(page, 8, self.mirror);
    }
}
