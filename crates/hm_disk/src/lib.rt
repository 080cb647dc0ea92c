//! The disk under a volume, as a trait that says what a read gives and which images a crash may leave.
#![tactic(auto)]

mod disk;
mod fault;
mod laws;
mod limits;
mod transfer;

pub use disk::Disk;
pub use fault::disk_fault;
pub use laws::{
    Property, a_byte_is_outside_where_the_test_says_so, a_property_holds_now,
    a_property_holds_over_a_read, a_property_holds_over_a_sync, a_property_holds_over_a_write,
    a_settled_disk_alone_is_left, a_write_only_adds, left_since_now_is_what_a_crash_now_may_leave,
    the_disk_as_it_reads_may_be_left, what_is_left_was_so_before_or_may_be_left_now,
};
pub use limits::MOST_CALL_BYTES;
pub use transfer::{read_all_at, write_all_at, write_synced};
