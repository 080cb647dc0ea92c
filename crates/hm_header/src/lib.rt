//! The two header slots of a volume: which of them counts, what its header says, and how the next
//! one is written.
#![tactic(auto)]

mod body;
mod change;
mod fault;
mod header;
mod laws;
mod place;
mod read;
mod slot;
mod slots;

pub use body::encode;
pub use change::{change_header, close_gate, open_gate, write_body};
pub use fault::HeaderFault;
pub use header::{
    BODY_BYTES, GATE_CLOSED, GATE_OPEN, GATE_PLACE, Header, SECOND_SLOT, SLOT_BYTES, VERSION,
};
pub use laws::{
    another_version_is_bad_at_8, body_has_its_length, body_has_one_header, chosen_header_is_one,
    closed_first_slot_is_ignored, closed_second_slot_is_ignored, closed_slot_does_not_count,
    encoded_header_is_chosen, encoded_slot_takes_part, fault_is_one, no_chosen_header_has_a_fault,
    same_slots_keep_what_a_stage_asks_for, settled_slots_are_left, slot_in_range_has_a_header,
    slot_of_a_header_is_in_range, slot_written_last_counts, writes_past_the_slots_leave_them,
};
pub use place::{gate_place, slot_place};
pub use read::read_header;
pub use slots::choose;
