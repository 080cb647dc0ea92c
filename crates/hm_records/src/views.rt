//! What follows from the definitions of what counts and of views alone: each function states one
//! law, and does nothing.

mod changes;
mod contents;
mod follow;
mod inodes;
mod lookups;
mod names;
mod objects;
mod untouched;

pub use changes::{
    additions_count_from_their_id, changes_leave_the_past, closed_versions_count_no_more,
    ids_stay_below, keys_stay_apart, later_ids_count_the_same, replaced_versions_count_no_more,
};
pub use contents::{
    keys_settle_what_counts, records_are_what_counts_last, views_are_one, what_counts_decides,
};
pub use follow::{
    what_follows_counts_where_it_is_seen, what_follows_goes_on, what_goes_unseen_is_not_missed,
};
pub use inodes::{
    changes_of_one_object_join, inodes_bytes_and_targets_are_of_one_object, inodes_make_objects,
};
pub use lookups::{names_in_views_are_those_of_entries, objects_in_views_are_those_of_inodes};
pub use names::{
    entries_that_go_show_the_next_of_their_name, new_entries_are_shown_where_they_come_first,
};
pub use objects::{
    changed_objects_are_shown, lost_inodes_take_their_objects, new_bytes_are_shown,
    new_inodes_add_their_objects, new_links_are_shown,
};
pub use untouched::{
    entries_and_inodes_need_not_fit, targets_and_bytes_need_their_inodes,
    trees_are_of_their_own_elements,
};
