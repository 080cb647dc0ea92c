//! The little-endian fields of a page: each structure on the disk is read and written through them.
#![tactic(auto)]

mod fields;
mod laws;
mod mem_pages;
mod moves;
mod page;
mod pages;
mod states;
#[cfg(test)]
mod tests;

pub use fields::{get_u8, get_u16, get_u32, get_u64, put_u8, put_u16, put_u32, put_u64};
pub use laws::{
    field_apart_is_kept, field_holds_what_was_put, field_is_its_bytes,
    field_is_zero_where_its_bytes_are, field_of_zeros_is_zero, fields_fix_the_page,
    put_changes_its_bytes_alone, put_keeps_the_length,
};
pub use mem_pages::MemPages;
pub use moves::{clear_bytes, move_bytes};
pub use page::Page;
pub use pages::Pages;
pub use states::{State, States};
