//! The prune of a pseudo file system: the job that removes what no kept id sees.
#![tactic(auto)]

mod look;
mod prune;
mod stretch;

pub use prune::Prune;
