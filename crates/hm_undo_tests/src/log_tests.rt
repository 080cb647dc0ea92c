// Where entries stand, with places that were worked out by hand.
use hm_undo::laws::*;
use hm_undo::{entry_at, entry_place};

#[test]
fn entries_stand_in_the_undo_big_blocks(rt: HostRuntime) {
    for (bigblocks, entry, want) in [
        // The log begins with big-block 3 where layer 2 has one big-block.
        (24, 0, 25_165_824),
        (24, 1, 25_169_952),
        (24, 2_032, 33_553_920),
        (24, 16_255, 92_266_464),
        (524_288, 0, 25_165_824),
        // And with big-block 4 where it has two.
        (524_289, 0, 33_554_432),
        (1_048_576, 16_255, 100_655_072),
    ] {
        assert_eq!(rt; entry_place(bigblocks, entry), want, "{bigblocks} {entry}");
    }
}

#[test]
fn entry_0_follows_the_last(rt: HostRuntime) {
    for (first, i, want) in [
        (0, 0, 0),
        (0, 16_128, 16_128),
        (16_250, 5, 16_255),
        (16_250, 6, 0),
        (16_250, 16_128, 16_122),
        (16_255, 0, 16_255),
        (16_255, 1, 0),
        (16_255, 16_128, 16_127),
    ] {
        assert_eq!(rt; entry_at(first, i), want, "{first} {i}");
    }
}

#[test]
fn a_range_goes_on_over_the_end_of_the_log(rt: HostRuntime) {
    for (i, want) in [
        (0, 92_262_336),
        (1, 92_266_464),
        (2, 25_165_824),
        (3, 25_169_952),
    ] {
        assert_eq!(rt; entry_place(24, entry_at(16_254, i)), want, "{i}");
    }
}

#[test]
fn laws_can_be_called() {
    bytes_are_one_entry_at_most();
    broken_bytes_are_no_entry();
    an_entry_lies_in_the_log();
    an_undo_big_block_serves_nothing_else();
    entries_share_no_byte();
    a_page_lies_apart_from_slots_and_log();
    a_written_entry_stands();
    entries_hang_on_their_bytes();
    a_header_names_one_range_at_most();
    pages_of_a_range_fit();
    pages_put_back_leave_the_rest();
    the_first_page_put_back_stands();
    pages_put_back_hide_what_stood_there();
    an_image_recovers_to_one_at_most();
    an_undone_range_leaves_the_rest();
    what_was_recovered_recovers_to_itself();
}
