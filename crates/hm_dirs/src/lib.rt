//! The names of a pseudo file system: the entries of its directories, as elements of a store, and
//! walks along the parts of a path over them.
#![tactic(auto)]

mod add;
mod close;
mod entry;
mod hash;
mod lookup;
mod position;
mod spot;
mod walk_laws;
mod walk_parts;
mod walk_roots;
mod walks;

pub use add::add_name;
pub use close::close_name;
pub use hash::{Fnv, NameHash};
pub use lookup::look_up;
pub use position::{Course, Follow, Lost, Position, Stand};
pub use spot::{Spot, find_spot};
pub use walk_laws::stands_tell_of_their_objects;
pub use walks::{step, walk};
