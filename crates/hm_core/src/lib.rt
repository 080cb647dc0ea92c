//! The core: making and mounting a volume, its calls, the history of a run, and the flush that makes it last.
#![tactic(auto)]

mod asked;
mod calls;
mod handed;
mod handed_unit;
mod jobs;
pub mod laws;
mod making;
mod mounting;
mod numbers;
mod opening;
mod outcome;
mod placed;
mod reblock_unit;
mod running;
mod served;
mod space;
mod staged;
mod step;
mod ticket;
mod unit;
mod volume;
mod work;

pub use calls::answer_over;
pub use hm_recover::OpenFault;
pub use making::newfs;
pub use outcome::Outcome;
pub use served::is_served;
pub use space::tell_space;
pub use staged::Staged;
pub use step::Step;
pub use ticket::{Ticket, UnitEnd};
pub use unit::unit_over;
pub use volume::Core;
pub use work::Work;
