//! What hammer means: commands, replies and the history that they make, on plain trees.
//!
//! The definitions of `specs/` say it: no node, page, freemap entry or flush stands in them. `apply`
//! and `look` are a plain slow program that computes them, which tests compare the real one with.
#![tactic(auto)]

mod answer;
mod checks;
mod command;
mod edit;
mod entry;
mod file_bytes;
mod generator;
mod hash;
mod laws;
mod line;
mod paths;
mod place;
mod plain;
mod print;
mod read;
mod reply;
mod stop;
mod tree;
mod tree_edit;
mod walk;

pub use command::Command;
pub use entry::Entry;
pub use generator::{generated_line, next_number};
pub use laws::{
    accepted_calls_end_their_walks, accepted_calls_land, after_goes_on,
    bad_paths_are_told_by_their_words, beginnings_are_legal, calls_change_one_pfs,
    calls_land_under_the_trees_that_they_saw, calls_leave_the_past, checks_give_refusals,
    copies_bring_the_masters_trees, cut_passes_change_nothing, cuts_keep_what_is_listed,
    examples_of_mirrors_are_legal, examples_of_streams_are_legal, examples_of_the_past_are_legal,
    generated_reads_are_of_the_past, ids_come_before_names, joins_keep_both,
    last_links_are_followed_or_not, legal_goes_on, legal_ids_rise, lists_follow_themselves,
    looks_change_nothing, made_masters_have_what_was_done, made_masters_stay_masters,
    made_slaves_show_their_foreign_masters_trees, made_slaves_show_their_masters_trees,
    masters_have_what_was_done, masters_last_intervals_stay_open, masters_stay_masters,
    masters_versions_rise, masters_without_elements_have_streams, new_numbers_are_unused,
    new_systems_begin_empty, no_part_goes_nowhere, only_passes_and_upgrades_rewrite,
    passes_fit_or_have_too_many_intervals, passes_keep_what_was_shown, passes_set_the_sync_end,
    past_is_a_beginning, refused_calls_change_nothing, refused_endings_keep_all_but_sources,
    retentions_stay_small, slaves_keep_their_past, slaves_keep_their_past_for_good,
    slaves_show_their_foreign_masters_trees, slaves_show_their_masters_trees,
    slaves_show_their_sync_end, streams_bring_their_masters_trees,
    streams_join_what_their_end_brought, upgrades_leave_the_past, walks_find_what_is_kept,
};
pub use line::Line;
pub use plain::{apply, look};
pub use print::push_answer;
pub use reply::Reply;
pub use tree::Tree;
