// What calls make of the bytes of a file.
ghost use Rattle.std.specs.Prelude.{◌≡◌, ◌≤◌, ◌-◌, ◌^◌, IfErr, min};
ghost use Rattle.hm_types.specs.declared.limits.TheConstants.{MOST_FILE_BYTES as most_bytes};
ghost use Rattle.hm_model.specs.Due.{fits_file};
ghost use Rattle.hm_calls.specs.Edits.{end_of, is_there, size_after};
ghost use Rattle.hm_calls.specs.Stop.{Decides, OfFault};

use crate::stop::Stop;
use hm_model::Reply;
use hm_types::{Bytes, MOST_FILE_BYTES};

// A change of the bytes of a file.
#[derive(Clone, Copy)]
pub(crate) enum Edit<'a> {
    // These bytes from an offset on.
    Write(u64, &'a Bytes),
    // A byte from an offset on, so many times.
    Fill(u64, u32, u8),
    // Another size.
    Truncate(u64),
}

impl<'a> Edit<'a> {
    // Up to where it needs a file to reach, or the greatest number where that is more.
    pub(crate) fn end(self) -> u64
        ensures { result ≡ min (end_of self.entry) (2 ^ 64 - 1) }
    {
        match self {
            Edit::Write(offset, bytes) => offset.saturating_add(bytes.bytes().len() as u64),
            Edit::Fill(offset, count, _) => offset.saturating_add(u64::from(count)),
            Edit::Truncate(size) => size,
        }
    }

    // How large a file of a size is afterwards.
    pub(crate) fn size_after(self, size: u64) -> u64
        requires { end_of self ≤ most_bytes }
        ensures { result ≡ size_after self.entry size }
    {
        match self {
            Edit::Write(_, _) | Edit::Fill(_, _, _) => size.max(self.end()),
            Edit::Truncate(to) => to,
        }
    }

    // Whether a file of a size has it already: only a size can be one.
    pub(crate) fn is_there(self, size: u64) -> bool
        ensures { result ≡ is_there self.entry size }
    {
        match self {
            Edit::Write(_, _) | Edit::Fill(_, _, _) => false,
            Edit::Truncate(to) => size == to,
        }
    }
}

// `too big` where a file would be larger than 15,728,640 bytes.
pub(crate) fn check_end(edit: Edit) -> Result<(), Stop>
    ensures check { Decides (fits_file (end_of edit.entry)) result }
    ensures failed { IfErr result (OfFault (λ _. ⊥)) }
{
    if edit.end() > MOST_FILE_BYTES {
        return Err(Stop::Refused(Reply::TooBig));
    }
    Ok(())
}
