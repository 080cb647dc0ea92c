//! The paths of hammer: the parts that a path's text gives, or where the text is no path.
#![tactic(auto)]

mod component;
mod fault;
mod id;
mod laws;
mod part;
mod path;

pub use fault::PathFault;
pub use id::read_id;
pub use laws::{bad_places_are_one, every_text_is_read, no_path_has_a_bad_place, parts_are_one};
pub use part::{Part, Path};
pub use path::parse;
