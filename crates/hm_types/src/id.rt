// Numbers that are never mixed up: transaction ids, objects, pseudo file systems.

use std::fmt;

/// A transaction id. Each call draws the next one, so an id names the call and the moment after it.
/// It prints as `0x` and 16 lower-case hexadecimal digits.
#[derive(Clone, Copy, Debug, PartialEq, Eq, PartialOrd, Ord)]
pub struct Id(pub u64);

impl fmt::Display for Id {
    ghost use Rattle.std.specs.Prelude.{Some};
    ghost use Rattle.hm_types.specs.Id.{id_text};

    ghost output = { λ id. Some (id_text id) };

    fn fmt<W: fmt::Write>(&self, f: &mut fmt::Formatter<W>) -> fmt::Result {
        let number = self.0;
        write!(f, "0x{number:016x}")
    }
}

/// An object's number within its pseudo file system: 1 for the root directory, and else the id of
/// the call that made it.
#[derive(Clone, Copy, Debug, PartialEq, Eq, PartialOrd, Ord)]
pub struct Obj(pub u64);

/// A pseudo file system's number, from 0 to 65,535. PFS 0 is where each path starts.
#[derive(Clone, Copy, Debug, PartialEq, Eq, PartialOrd, Ord)]
pub struct Pfs(pub u16);
