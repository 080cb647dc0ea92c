// A page.
ghost use Rattle.std.specs.Prelude.{◌≡◌, length};
ghost use Rattle.hm_types.specs.declared.limits.TheConstants.{PAGE_BYTES};
ghost use Rattle.hm_fields.specs.Fields.{AreBytes, zero_page};

use hm_types::PAGE_BYTES;
use std::marker::Model;

/// A page of 4,096 bytes. A contract sees the list of its bytes.
#[derive(Clone, Copy)]
pub struct Page {
    pub(crate) bytes: [u8; PAGE_BYTES],
}

impl Model for Page {
    ghost use Rattle.std.specs.Prelude.{ℕ, List};

    ghost Value = { List ℕ };

    ghost view = { λ p. p.bytes };

    ghost inverse = { λ bytes. record { bytes = bytes } };
}

impl Page {
    /// A page of zeros.
    #[tactic(auto, unfolding(crate::specs::Fields::zero_page))]
    pub fn zero() -> Page
        ensures value { result ≡ zero_page }
        ensures sized { length result ≡ PAGE_BYTES }
    {
        Page {
            bytes: [0; PAGE_BYTES],
        }
    }

    /// All its bytes, from the start of the page on.
    pub fn bytes(&self) -> &[u8; PAGE_BYTES]
        ensures value { result.now ≡ self.now }
        ensures sized { length self.now ≡ PAGE_BYTES }
        ensures bytes { AreBytes self.now }
    {
        are_bytes(&self.bytes);
        &self.bytes
    }

    /// Makes each byte of the page 0.
    #[tactic(auto, unfolding(crate::specs::Fields::zero_page))]
    pub fn clear(&mut self)
        ensures value { self.new ≡ zero_page }
        ensures sized { length self.new ≡ PAGE_BYTES }
    {
        self.bytes = [0; PAGE_BYTES];
    }

    /// Fills the page with these bytes, of which there must be as many as a page has.
    pub fn copy_from(&mut self, bytes: &[u8])
        requires { length bytes.now ≡ PAGE_BYTES }
        ensures { self.new ≡ bytes.now }
    {
        self.bytes.copy_from_slice(bytes);
    }
}

// Does nothing, and says what the type of a slice tells of its bytes.
#[inline]
fn are_bytes(bytes: &[u8])
    ensures { AreBytes bytes.now }
{}
