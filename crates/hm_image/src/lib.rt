//! What the bytes of a volume mean: which images are sound, and which volume one stands for.
//!
//! It is definitions alone: they cite those of the formats, and code cites them.
#![tactic(auto)]

mod laws;

pub use laws::{
    a_fresh_volume_is_sound, a_fresh_volume_stands, a_sound_image_has_one_header,
    elements_of_a_sound_image_are_in_order, elements_refer_as_extents_say,
    extents_across_bigblocks_are_refused, extents_are_referred_to_by_nodes_and_elements,
    extents_of_a_sound_image_are_apart, extents_of_elements_are_balanced,
    extents_past_the_filled_part_are_refused, images_are_their_freemaps_and_trees,
    images_are_what_they_name, keys_of_other_names_are_refused, nodes_are_referred_to_once,
    other_counts_of_free_bytes_are_refused, overlapping_extents_are_refused,
    payloads_among_nodes_are_refused, payloads_of_a_sound_image_have_places,
    references_past_64_are_refused, there_is_a_fresh_volume, trees_are_what_they_refer_to,
};
