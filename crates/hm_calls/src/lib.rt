//! The calls on names and on the bytes of files: what each answers, and what it does to the elements
//! of a store. `pfs_status` tells of a pseudo file system, `make_system` makes one, and `open_prune`
//! opens the work of a prune; `answer_call` answers a call of any of these kinds.
#![tactic(auto)]

mod answered;
mod bytes;
mod calls;
mod checks;
mod course;
mod edit;
mod edits;
mod files;
mod kept;
mod kinds;
mod links;
mod looks;
mod make;
mod moves;
mod new;
mod new_systems;
mod places;
mod prunes;
mod pruning;
mod put;
mod remove;
mod rename;
mod room;
mod stages;
mod stop;
mod systems;
mod take;
mod words;

pub use answered::{Answered, Beside, answer_call};
pub use calls::answer;
pub use new_systems::{NewSystem, make_system};
pub use prunes::open_prune;
pub use pruning::{Led, Opened, Pruning};
pub use systems::pfs_status;
