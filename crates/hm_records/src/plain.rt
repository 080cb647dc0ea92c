//! A plain slow program that makes the tree of a list of elements, for tests to compare with.

mod bytes;
mod content;
mod element;
mod names;
mod objects;
mod subject;
mod tree;

pub use element::{FullElement, have_own_keys};
pub use tree::{PlainTree, view_of};
