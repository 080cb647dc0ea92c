//! Every page of a volume in memory, in three states: as committed, as frozen for a flush, and as
//! calls see and change them.
#![tactic(auto)]

mod changes;
mod held;
mod laws;
mod states;
mod store;
mod table;

pub use laws::{pages_are_bytes, store_is_sound};
pub use store::PageStore;
