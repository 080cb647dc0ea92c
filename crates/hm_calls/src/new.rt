// The objects that calls make.
ghost use Rattle.std.specs.Prelude.{◌≡◌, ◌≤◌, IfOk};
ghost use Rattle.hm_model.specs.Change.{snapshot_target as target_at};
ghost use Rattle.hm_calls.specs.New.{kind_by};

use hm_records::{DIRECTORY, FILE, SOFTLINK};
use hm_types::{Id, NoMemory, Text};
use std::alloc::Global;
use std::io::Write;

// What a call makes under a new name.
#[derive(Clone, Copy)]
pub(crate) enum New<'a> {
    Directory,
    File,
    // A softlink with this target.
    Softlink(&'a Text),
    // A softlink that names the moment before the call.
    Snapshot,
}

impl<'a> New<'a> {
    pub(crate) fn kind(self) -> u8
        ensures { result ≡ kind_by self.entry }
    {
        match self {
            New::Directory => DIRECTORY,
            New::File => FILE,
            New::Softlink(_) | New::Snapshot => SOFTLINK,
        }
    }
}

// The target of a snapshot that a call makes: `@@` and the id before the call's own.
pub(crate) fn snapshot_target(alloc: Global, id: Id) -> Result<Text, NoMemory>
    requires { 1 ≤ id.0 }
    ensures { IfOk result (λ text. text ≡ target_at id.0) }
{
    let mut bytes = Vec::with_capacity(alloc, 20)?;
    if write!(bytes, "@@{}", Id(id.0 - 1)).is_err() {
        return Err(NoMemory);
    }
    Ok(Text::of(bytes))
}
