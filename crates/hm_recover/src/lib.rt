//! Recovery after a crash: where the header that counts names a range of entries of the UNDO log, the old
//! pages that they hold are put back.
#![tactic(auto)]

mod entry;
mod fault;
mod laws;
mod opened;
mod range;
mod recovery;
mod stop;

pub use fault::OpenFault;
pub use laws::{
    an_image_that_recovers_has_no_damage, an_image_that_recovers_has_no_fault,
    recovery_keeps_the_boundary, the_damage_of_a_range_is_one,
};
pub use opened::Opened;
pub use recovery::recover;
