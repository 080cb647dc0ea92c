//! The retention of a pseudo file system: the set of transaction ids that it keeps.
#![tactic(auto)]

mod fault;
mod intervals;
mod laws;
mod retention;
mod sets;

pub use fault::RetainFault;
pub use laws::{no_cut_is_both, no_join_is_both, one_list_for_each_set};
pub use retention::Retention;
