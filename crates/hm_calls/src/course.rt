// What is one for the walks of a call.
ghost use Rattle.std.specs.Prelude.{◌≡◌, ◌+◌, ◌≤◌};

use hm_dirs::{Course, Stand};
use hm_types::{Id, Obj, Pfs};

// How many free big-blocks are held back from a call that makes a name.
pub(crate) const NAMES_HELD: u32 = 4;

// The course of the walks of a call by an id: the one before it was drawn last.
pub(crate) fn course_before(id: Id, watch: Option<(Pfs, Obj)>) -> Course
    requires { 1 ≤ id.0 }
    ensures last { result.last.0 + 1 ≡ id.0 }
    ensures watch { result.watch ≡ watch }
{
    Course {
        last: Id(id.0 - 1),
        watch,
    }
}

// A stand in a master, seen now: it is read as of the last id.
pub(crate) fn read_last(stand: Stand, course: Course) -> Stand
    ensures { result ≡ record stand { as_of = course.last } }
{
    Stand {
        as_of: course.last,
        ..stand
    }
}
