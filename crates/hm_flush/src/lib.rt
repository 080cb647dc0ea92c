//! The flush of a volume: stage by stage the pages of a frozen group come onto the disk, so that after a
//! crash at any moment the state that was committed can be had again, or the next one.
#![tactic(auto)]

mod change;
mod device;
mod flush;
mod flusher;
mod group;
mod laws;
mod stage;

pub use flusher::Flusher;
pub use laws::{
    a_settled_disk_is_guarded, each_position_is_guarded_on_some_disk,
    no_stage_is_left_where_none_is_in_flight, same_guarded_bytes_keep_the_guard,
    same_slots_keep_what_a_flush_asks_for, what_is_guarded_as_read_stays_so,
    what_is_guarded_is_recoverable,
};
pub use stage::Stage;
