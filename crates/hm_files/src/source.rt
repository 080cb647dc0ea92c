// What is written into a file.
ghost use Rattle.std.specs.Prelude.{◌≡◌, ◌+◌, ◌-◌, ◌<◌, ◌≤◌, ℕ, length, slice_index};
ghost use Rattle.hm_types.specs.declared.limits.TheConstants.{BLOCK_BYTES as block_bytes};
ghost use Rattle.hm_files.specs.Source.{IsSource, bytes_of};

// Some bytes, or one byte so many times, with a block of it.
#[derive(Clone, Copy)]
pub(crate) enum Source<'a> {
    Bytes(&'a [u8]),
    Filled(&'a [u8], usize),
}

impl<'a> Source<'a> {
    pub(crate) fn len(self) -> usize
        ensures { result ≡ length (bytes_of self.entry) }
    {
        match self {
            Source::Bytes(bytes) => bytes.len(),
            Source::Filled(_, len) => len,
        }
    }

    // The bytes from one place to another, at most a block of them.
    pub(crate) fn piece(self, from: usize, to: usize) -> &'a [u8]
        requires source { IsSource self }
        requires order { from ≤ to }
        requires few { to ≤ from + block_bytes }
        requires inside { to ≤ length (bytes_of self) }
        ensures long { length result.now ≡ to - from }
        ensures same { (k : ℕ) → k < to - from →
            slice_index result.now k ≡ slice_index (bytes_of self.entry) (from + k) }
    {
        match self {
            Source::Bytes(bytes) => &bytes[from..to],
            Source::Filled(block, _) => &block[..to - from],
        }
    }
}
