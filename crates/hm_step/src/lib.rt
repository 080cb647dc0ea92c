//! One step of a history: what a call that was answered makes of the volume for which elements
//! stand.
//!
//! It has the definitions, laws of what they say, and the call itself over any store.
#![tactic(auto)]

mod laws;
mod next;

pub use laws::{
    a_cut_leaves_what_stands, a_failed_call_is_a_step, a_new_system_stands_with_the_others,
    a_possible_reply_has_its_cause, a_possible_reply_tells_no_boundary, a_prune_begins_with_enough,
    a_prune_leaves_what_stands, a_served_call_is_a_step, a_told_fault_has_its_cause,
    drawing_an_id_leaves_what_stands, elements_are_older_or_slaves, elements_give_their_trees,
    elements_show_the_next_call, elements_show_their_volume, numbers_stay_used,
    sound_payloads_are_not_broken,
};
pub use next::answer_next;
