//! The scripts of hammer: the blocks of lines that a script's bytes give, or its first bad line.
#![tactic(auto)]

mod blocks;
mod fault;
mod file_forms;
mod forms;
mod lane;
mod laws;
mod lines;
mod number;
mod path_form;
mod pfs_forms;
mod reading;
mod script;
mod words;

pub use fault::ScriptFault;
pub use hm_model::Line;
pub use laws::{
    a_line_gives_one_command, blocks_are_one, first_bad_lines_are_one, no_script_has_a_bad_line,
};
pub use lines::first_lines;
pub use reading::read;
pub use script::{Block, Script};
