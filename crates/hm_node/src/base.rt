// A base in a page, 40 bytes, and an offset, 8.
ghost use Rattle.std.specs.Prelude.{◌≡◌, ◌≤◌, ◌+◌, ℕ, length};
ghost use Rattle.hm_types.specs.Offset.{IsOffset};
ghost use Rattle.hm_types.specs.declared.limits.TheConstants.{PAGE_BYTES};
ghost use Rattle.hm_fields.specs.Fields.{Apart, get};
ghost use Rattle.hm_node.specs.Base.{base_in};

use hm_fields::{Page, get_u8, get_u16, get_u32, get_u64, put_u8, put_u16, put_u32, put_u64};
use hm_key::Base;
use hm_types::{HOff, Obj};

/// The base in the 40 bytes from `at` on, whether or not it may stand there.
#[tactic(auto, unfolding(crate::specs::Base::base_in))]
pub fn read_base(page: &Page, at: usize) -> Base
    requires { at + 40 ≤ PAGE_BYTES }
    ensures { result ≡ base_in page.now at }
{
    Base {
        obj: Obj(get_u64(page, at)),
        key: get_u64(page, at + 8),
        create: get_u64(page, at + 16),
        delete: get_u64(page, at + 24),
        rec_type: get_u16(page, at + 32),
        obj_type: get_u8(page, at + 34),
        btype: get_u8(page, at + 35),
        localization: get_u32(page, at + 36),
    }
}

// The offset in the 8 bytes from `at` on.
pub(crate) fn read_offset(page: &Page, at: usize) -> HOff
    requires within { at + 8 ≤ PAGE_BYTES }
    requires offset { IsOffset (get page.now at 8) }
    ensures { result ≡ get page.now at 8 }
{
    HOff::from_raw(get_u64(page, at)).unwrap()
}

// Writes a base into the 40 bytes from `at` on.
#[tactic(auto, unfolding(crate::specs::Base::base_in), using(hm_fields::proofs::FieldLemmas::fields))]
pub(crate) fn write_base(base: &Base, page: &mut Page, at: usize)
    requires { at + 40 ≤ PAGE_BYTES }
    ensures value { base_in page.new at ≡ base.now }
    ensures others { (other width : ℕ) → Apart at 40 other width →
        get page.new other width ≡ get page.old other width }
    ensures sized { length page.new ≡ PAGE_BYTES }
{
    put_u64(page, at, base.obj.0);
    put_u64(page, at + 8, base.key);
    put_u64(page, at + 16, base.create);
    put_u64(page, at + 24, base.delete);
    put_u16(page, at + 32, base.rec_type);
    put_u8(page, at + 34, base.obj_type);
    put_u8(page, at + 35, base.btype);
    put_u32(page, at + 36, base.localization);
}
