//! The payloads of elements as bytes, both ways: inodes, directory entries, softlink targets and the
//! records of pseudo file systems.
#![tactic(auto)]

mod entry;
mod fault;
mod inode;
mod kind;
mod laws;
mod pfs_record;
mod plain;
mod target;
mod views;

pub use entry::{DirEntry, decode_entry, encode_entry, entry_parts};
pub use inode::{Inode, decode_inode, encode_inode};
pub use kind::{DIRECTORY, FILE, PFS_LINK, SOFTLINK};
pub use laws::{
    bytes_spell_one_entry, bytes_spell_one_inode, bytes_spell_one_record,
    low_bits_of_a_key_are_free, open_end_is_that_of_the_last_interval,
    payload_is_neither_empty_nor_large, payloads_have_their_sizes,
};
pub use pfs_record::{PfsRecord, decode_pfs, encode_pfs};
pub use plain::{FullElement, PlainTree, have_own_keys, view_of};
pub use target::{decode_target, encode_target};
pub use views::{
    additions_count_from_their_id, changed_objects_are_shown, changes_leave_the_past,
    changes_of_one_object_join, closed_versions_count_no_more, entries_and_inodes_need_not_fit,
    entries_that_go_show_the_next_of_their_name, ids_stay_below,
    inodes_bytes_and_targets_are_of_one_object, inodes_make_objects, keys_settle_what_counts,
    keys_stay_apart, later_ids_count_the_same, lost_inodes_take_their_objects,
    names_in_views_are_those_of_entries, new_bytes_are_shown,
    new_entries_are_shown_where_they_come_first, new_inodes_add_their_objects, new_links_are_shown,
    objects_in_views_are_those_of_inodes, records_are_what_counts_last,
    replaced_versions_count_no_more, targets_and_bytes_need_their_inodes,
    trees_are_of_their_own_elements, views_are_one, what_counts_decides,
    what_follows_counts_where_it_is_seen, what_follows_goes_on, what_goes_unseen_is_not_missed,
};
