//! Ranks at word ends, and marks against places that were worked by hand.

use gq_bits::{BitList, Marks, VECTOR};

fn is_rank(bits: &BitList, place: u32, ones: u32) -> bool {
    place <= bits.len() && bits.rank(place) == ones
}

fn are_ranks_of_ones(full: &BitList) -> bool {
    is_rank(full, 0, 0) && is_rank(full, 63, 63) && is_rank(full, 64, 64) && is_rank(full, 65, 65)
}

fn are_ranks(mixed: &BitList) -> bool {
    is_rank(mixed, 0, 0)
        && is_rank(mixed, 1, 0)
        && is_rank(mixed, 2, 1)
        && is_rank(mixed, 3, 1)
        && is_rank(mixed, 4, 2)
        && mixed.ones() == 2
}

fn is_empty(bits: &BitList) -> bool {
    bits.is_empty() && bits.ones() == 0
}

#[test]
fn rank_counts_the_ones_before(rt: HostRuntime) {
    let full = BitList::from_bools(rt.alloc(), &[true; 65]);
    assert!(rt; are_ranks_of_ones(&full.expect(&rt, "memory")));
    let mixed = BitList::from_bools(rt.alloc(), &[false, true, false, true]);
    assert!(rt; are_ranks(&mixed.expect(&rt, "memory")));
    let empty = BitList::from_bools(rt.alloc(), &[]);
    assert!(rt; is_empty(&empty.expect(&rt, "memory")));
}

fn is_next(marks: &Marks, from: u32, next: Option<u32>) -> bool {
    marks.next_from(from) == next
}

#[test]
fn marks_are_found_in_order(rt: HostRuntime) {
    let mut marks = Marks::none();
    marks.set(VECTOR - 1, true);
    marks.set(3, true);
    marks.set(64, true);
    assert!(rt; is_next(&marks, 0, Some(3)) && is_next(&marks, 4, Some(64)));
    assert!(rt; is_next(&marks, 65, Some(VECTOR - 1)) && is_next(&marks, VECTOR, None));
    marks.set(64, false);
    assert!(rt; marks.count() == 2);
}

#[test]
fn the_first_marks_are_counted(rt: HostRuntime) {
    for count in [0, 1, 63, 64, 65, VECTOR - 1, VECTOR] {
        assert!(rt; Marks::first(count).count() == count, "{count}");
    }
}

// The marks from 60 to 63.
fn four_marks() -> Marks {
    let mut marks = Marks::first(70);
    marks.and_not(&Marks::first(60));
    marks.and(&Marks::first(64));
    marks
}

#[test]
fn marks_are_taken_away(rt: HostRuntime) {
    let mut marks = four_marks();
    assert!(rt; marks.count() == 4 && marks.word(0) == 0xF000_0000_0000_0000);
    marks.keep_word(0, 1 << 61);
    assert!(rt; marks.get(61) && marks.count() == 1);
}
