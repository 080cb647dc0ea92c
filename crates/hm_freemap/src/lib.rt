//! The freemap of a volume in two layers: which zone a big-block belongs to, how far it is filled, and
//! how many of its bytes are free.
#![tactic(auto)]

mod admit;
mod entry;
mod extents;
mod freemap;
mod fresh;
mod laws;
mod layer1;
mod pages;
mod place;
mod pool_entry;
mod scan;
mod sheets;

pub use entry::{Entry, UNUSED};
pub use freemap::Freemap;
pub use fresh::{fresh_entry, fresh_page};
pub use laws::{
    a_freemap_stands_for_references_in_any_order,
    a_replaced_big_block_is_free_where_nothing_in_it_is_live,
    each_block_is_good_where_the_freemap_stands, each_extent_is_held_where_the_freemap_stands,
    free_blocks_are_those_of_the_states, giving_frees_one_big_block_at_most,
    one_free_big_block_has_so_many_before_it, sharing_leaves_what_is_free,
    taking_leaves_what_is_free, whether_a_freemap_stands_is_decided,
    zones_append_apart_where_the_freemap_stands,
};
pub use layer1::{layer1_offset, read_layer1, write_layer1};
pub use pages::FreemapPages;
pub use place::{page_of, place_of};
