//! The pseudo file systems of a store: new ones, records that are replaced, and the numbers that are
//! unused.
#![tactic(auto)]

mod add;
mod payload;
mod replace;
mod unused;

pub use add::{add_master, add_slave};
pub use replace::replace_record;
pub use unused::unused_from;
