//! Which volume a space holds between two calls, and what ties that to the bytes of its disk.
//!
//! It is definitions and laws alone: code that mounts a volume and writes one cites them.
#![tactic(auto)]

mod flushing;
mod laws;
mod live;

pub use flushing::{
    a_mounted_volume_is_committed, a_stage_keeps_what_a_flush_holds, calls_keep_what_a_flush_holds,
    what_a_flush_holds_is_recovered,
};
pub use laws::{
    a_mounted_volume_is_held, a_recovered_image_stands, a_state_at_rest_is_held,
    a_written_volume_stands, pages_of_a_space_are_apart, payloads_are_all_that_matters_of_a_disk,
    what_calls_keep_of_the_slots, what_was_written_stays,
};
pub use live::{
    a_stage_keeps_what_is_live, calls_keep_what_is_live, what_a_flush_holds_is_settled,
};
