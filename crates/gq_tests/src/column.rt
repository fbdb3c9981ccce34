//! Cells of a column with nulls and of one without, read one by one and gathered.

use gq_bits::Marks;
use gq_column::Column;

// The marks of the first places are those of a word.
fn are_known(known: &Marks, word: u64) -> bool {
    known.word(0) == word
}

#[test]
fn nulls_are_gathered_as_unknown_zeros(rt: HostRuntime) {
    let column = Column::build(rt.alloc(), &[Some(5), None, Some(-7), None, Some(0)]);
    let column = column.expect(&rt, "memory");
    assert!(rt; column.len() == 5);
    assert!(rt; column.get(1).is_none() && column.get(2) == Some(-7));
    let mut out = [9; 6];
    let mut known = Marks::first(6);
    column.gather(&[4, 1, 2], &mut out, &mut known);
    assert!(rt; out == [0, 0, -7, 9, 9, 9] && are_known(&known, 0b101));
    column.gather_span(1, 5, &mut out, &mut known);
    assert!(rt; out == [0, -7, 0, 0, 9, 9] && are_known(&known, 0b1010));
    column.gather_span(4, 5, &mut out, &mut known);
    assert!(rt; known.count() == 1);
}

#[test]
fn a_column_without_nulls_is_copied(rt: HostRuntime) {
    let column = Column::build(rt.alloc(), &[Some(1), Some(2), Some(3)]);
    let column = column.expect(&rt, "memory");
    assert!(rt; column.len() == 3);
    let mut out = [0; 3];
    let mut known = Marks::none();
    column.gather(&[2, 0], &mut out, &mut known);
    assert!(rt; out == [3, 1, 0] && known.count() == 2);
    column.gather_span(0, 3, &mut out, &mut known);
    assert!(rt; out == [1, 2, 3] && known.count() == 3);
}

#[test]
fn a_column_may_be_empty(rt: HostRuntime) {
    let empty = Column::build(rt.alloc(), &[]).expect(&rt, "memory");
    assert!(rt; empty.len() == 0);
}

#[test]
fn a_span_goes_past_one_word(rt: HostRuntime) {
    let mut cells = [Some(7); 70];
    cells[65] = None;
    let column = Column::build(rt.alloc(), &cells).expect(&rt, "memory");
    assert!(rt; column.len() == 70);
    let mut out = [9; 70];
    let mut known = Marks::none();
    column.gather_span(0, 70, &mut out, &mut known);
    assert!(rt; out[63] == 7 && out[64] == 7 && out[65] == 0 && out[69] == 7);
    assert!(rt; known.count() == 69 && !known.get(65));
}
