//! Kernels over cells of 64-bit integers.

ghost use Rattle.std.specs.Prelude.{◌≡◌, ℕ, ◌≤◌, ◌&&◌, length, false};
ghost use Rattle.gq_bits.specs.Places.{is_marked};
ghost use Rattle.gq_lanes.specs.Tests.{compares, is_between, cell};

use crate::lanes::{LaneOp, columns_mask, const_mask};
use crate::part_of;
use gq_bits::{Marks, VECTOR};

/// Keeps the marked places whose cell is known and compares so with the constant.
pub fn keep_const(op: LaneOp, cells: &[i64], constant: i64, known: &Marks, marks: &mut Marks)
    requires fits { length cells.now ≤ VECTOR }
    requires within { (k : ℕ) → length cells.now ≤ k → is_marked marks.old k ≡ false }
    ensures { (k : ℕ) → is_marked marks.new k ≡ (is_marked marks.old k
        && (is_marked known.now k && compares op (cell cells.now k) constant)) }
{
    for index in 0..cells.len().div_ceil(64) {
        let mask = const_mask(op, part_of(cells, index), constant);
        marks.keep_word(index as u32, known.word(index as u32) & mask);
    }
}

/// Keeps the marked places that are known and whose cell on the left compares so with the one on
/// the right.
pub fn keep_columns(op: LaneOp, left: &[i64], right: &[i64], known: &Marks, marks: &mut Marks)
    requires one_length { length right.now ≡ length left.now }
    requires fits { length left.now ≤ VECTOR }
    requires within { (k : ℕ) → length left.now ≤ k → is_marked marks.old k ≡ false }
    ensures { (k : ℕ) → is_marked marks.new k ≡ (is_marked marks.old k
        && (is_marked known.now k && compares op (cell left.now k) (cell right.now k))) }
{
    for index in 0..left.len().div_ceil(64) {
        let left_part = part_of(left, index);
        let right_part = part_of(right, index);
        let mask = columns_mask(op, left_part, right_part);
        marks.keep_word(index as u32, known.word(index as u32) & mask);
    }
}

/// Keeps the marked places whose cell is known and stands from `low` to below `high`.
pub fn keep_range(cells: &[i64], low: i64, high: i64, known: &Marks, marks: &mut Marks)
    requires fits { length cells.now ≤ VECTOR }
    requires within { (k : ℕ) → length cells.now ≤ k → is_marked marks.old k ≡ false }
    ensures { (k : ℕ) → is_marked marks.new k ≡ (is_marked marks.old k
        && (is_marked known.now k && is_between low high (cell cells.now k))) }
{
    for index in 0..cells.len().div_ceil(64) {
        let part = part_of(cells, index);
        let from_low = const_mask(LaneOp::GreaterEqual, part, low);
        let below_high = const_mask(LaneOp::Less, part, high);
        marks.keep_word(
            index as u32,
            known.word(index as u32) & (from_low & below_high),
        );
    }
}
