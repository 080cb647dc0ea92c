//! What follows from the definitions alone: each function states one law, and does nothing.

mod extents;
mod fresh;
mod referred;
mod refused;
mod same;
mod sound;

pub use extents::extents_of_elements_are_balanced;
pub use fresh::{a_fresh_volume_is_sound, a_fresh_volume_stands, there_is_a_fresh_volume};
pub use referred::{
    elements_refer_as_extents_say, extents_are_referred_to_by_nodes_and_elements,
    nodes_are_referred_to_once,
};
pub use refused::{
    extents_across_bigblocks_are_refused, extents_past_the_filled_part_are_refused,
    keys_of_other_names_are_refused, other_counts_of_free_bytes_are_refused,
    overlapping_extents_are_refused, payloads_among_nodes_are_refused,
    references_past_64_are_refused,
};
pub use same::{
    images_are_their_freemaps_and_trees, images_are_what_they_name, trees_are_what_they_refer_to,
};
pub use sound::{
    a_sound_image_has_one_header, elements_of_a_sound_image_are_in_order,
    extents_of_a_sound_image_are_apart, payloads_of_a_sound_image_have_places,
};
