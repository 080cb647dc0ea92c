//! What follows from the definitions alone: each function states one law, and does nothing.

mod calls;
mod causes;
mod endings;
mod examples;
mod foreign;
mod generated;
mod histories;
mod landing;
mod links;
mod made;
mod masters;
mod passes;
mod refusals;
mod retentions;
mod slaves;
mod small;
mod streams;
mod walks;

pub use calls::{
    calls_change_one_pfs, calls_leave_the_past, looks_change_nothing, new_numbers_are_unused,
    new_systems_begin_empty,
};
pub use causes::bad_paths_are_told_by_their_words;
pub use endings::{
    cut_passes_change_nothing, slaves_keep_their_past, slaves_keep_their_past_for_good,
    upgrades_leave_the_past,
};
pub use examples::{
    examples_of_mirrors_are_legal, examples_of_streams_are_legal, examples_of_the_past_are_legal,
};
pub use foreign::{
    made_slaves_show_their_foreign_masters_trees, slaves_show_their_foreign_masters_trees,
};
pub use generated::generated_reads_are_of_the_past;
pub use histories::{
    after_goes_on, beginnings_are_legal, legal_goes_on, legal_ids_rise, past_is_a_beginning,
};
pub use landing::{
    accepted_calls_end_their_walks, accepted_calls_land, calls_land_under_the_trees_that_they_saw,
};
pub use links::{last_links_are_followed_or_not, slaves_show_their_sync_end};
pub use made::{
    made_masters_have_what_was_done, made_masters_stay_masters,
    made_slaves_show_their_masters_trees, masters_versions_rise,
};
pub use masters::{
    masters_have_what_was_done, masters_stay_masters, only_passes_and_upgrades_rewrite,
};
pub use passes::{
    copies_bring_the_masters_trees, passes_fit_or_have_too_many_intervals,
    passes_keep_what_was_shown, passes_set_the_sync_end, streams_bring_their_masters_trees,
    streams_join_what_their_end_brought,
};
pub use refusals::{
    checks_give_refusals, refused_calls_change_nothing, refused_endings_keep_all_but_sources,
};
pub use retentions::{cuts_keep_what_is_listed, joins_keep_both, walks_find_what_is_kept};
pub use slaves::slaves_show_their_masters_trees;
pub use small::{masters_last_intervals_stay_open, retentions_stay_small};
pub use streams::{lists_follow_themselves, masters_without_elements_have_streams};
pub use walks::{ids_come_before_names, no_part_goes_nowhere};
