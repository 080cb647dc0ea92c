//! The reblock of a volume: the job that moves the payloads that lie in chosen big-blocks elsewhere.
#![tactic(auto)]

mod choice;
mod extent;
mod look;
mod reblock;
mod stage;
mod work;

pub use reblock::Reblock;
