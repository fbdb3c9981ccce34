//! Comparisons of 64 cells or ids at once, as masks with one bit for each place.

ghost use Rattle.std.specs.Prelude.{◌≡◌, ◌==◌, ℕ, ◌<◌, ◌≤◌, length, slice_index};
ghost use Rattle.std.specs.Prelude.{FitsSigned};
ghost use Rattle.std.specs.Int.{w64, bit_at};
ghost use Rattle.gq_lanes.specs.Tests.{compares, cell};

use std::simd::prelude::*;

// Up to so many ids are compared one by one: to fill 64 of them up takes longer.
const FEW: usize = 24;

/// A comparison of two cells.
#[derive(Clone, Copy, Debug, PartialEq, Eq)]
pub enum LaneOp {
    Equal,
    NotEqual,
    Less,
    LessEqual,
    Greater,
    GreaterEqual,
}

/// The places of at most 64 cells that compare so with the constant.
pub(crate) fn const_mask(op: LaneOp, cells: &[i64], constant: i64) -> u64
    requires { length cells.now ≤ 64 }
    ensures { (i : ℕ) → i < length cells.now
        → (bit_at result i == 1) ≡ compares op (cell cells.now i) constant }
{
    if cells.len() == 64 {
        const_lanes(op, cells, constant)
    } else {
        const_lanes(op, &padded(cells), constant)
    }
}

/// The places of at most 64 pairs of cells that compare so.
pub(crate) fn columns_mask(op: LaneOp, left: &[i64], right: &[i64]) -> u64
    requires one_length { length right.now ≡ length left.now }
    requires few { length left.now ≤ 64 }
    ensures { (i : ℕ) → i < length left.now
        → (bit_at result i == 1) ≡ compares op (cell left.now i) (cell right.now i) }
{
    if left.len() == 64 {
        columns_lanes(op, left, right)
    } else {
        columns_lanes(op, &padded(left), &padded(right))
    }
}

/// The places of at most 64 ids that equal `id`.
pub(crate) fn id_mask(ids: &[u32], id: u32) -> u64
    requires { length ids.now ≤ 64 }
    ensures { (i : ℕ) → i < length ids.now
        → (bit_at result i == 1) ≡ (slice_index ids.now i == id) }
{
    if ids.len() == 64 {
        id_lanes(ids, id)
    } else if ids.len() <= FEW {
        id_bits(ids, id)
    } else {
        let mut padded = [0; 64];
        padded[..ids.len()].copy_from_slice(ids);
        id_lanes(&padded, id)
    }
}

// The places of a few ids that equal `id`, one by one.
fn id_bits(ids: &[u32], id: u32) -> u64
    requires { length ids.now ≤ 64 }
    ensures { (i : ℕ) → i < length ids.now
        → (bit_at result i == 1) ≡ (slice_index ids.now i == id) }
{
    let mut mask = 0;
    for (place, other) in ids.iter().enumerate() {
        mask |= u64::from(*other == id) << place;
    }
    mask
}

fn const_lanes(op: LaneOp, cells: &[i64], constant: i64) -> u64
    requires { length cells.now ≡ 64 }
    ensures { (i : ℕ) → i < 64 → (bit_at result i == 1) ≡ compares op (cell cells.now i) constant }
{
    in_range(cells);
    let lanes = i64x64::from_slice(cells);
    let all = i64x64::splat(constant);
    match op {
        LaneOp::Equal => lanes.simd_eq(all).to_bitmask(),
        LaneOp::NotEqual => lanes.simd_ne(all).to_bitmask(),
        LaneOp::Less => lanes.simd_lt(all).to_bitmask(),
        LaneOp::LessEqual => lanes.simd_le(all).to_bitmask(),
        LaneOp::Greater => lanes.simd_gt(all).to_bitmask(),
        LaneOp::GreaterEqual => lanes.simd_ge(all).to_bitmask(),
    }
}

fn columns_lanes(op: LaneOp, left: &[i64], right: &[i64]) -> u64
    requires left_whole { length left.now ≡ 64 }
    requires right_whole { length right.now ≡ 64 }
    ensures { (i : ℕ) → i < 64
        → (bit_at result i == 1) ≡ compares op (cell left.now i) (cell right.now i) }
{
    in_range(left);
    in_range(right);
    let lanes = i64x64::from_slice(left);
    let others = i64x64::from_slice(right);
    match op {
        LaneOp::Equal => lanes.simd_eq(others).to_bitmask(),
        LaneOp::NotEqual => lanes.simd_ne(others).to_bitmask(),
        LaneOp::Less => lanes.simd_lt(others).to_bitmask(),
        LaneOp::LessEqual => lanes.simd_le(others).to_bitmask(),
        LaneOp::Greater => lanes.simd_gt(others).to_bitmask(),
        LaneOp::GreaterEqual => lanes.simd_ge(others).to_bitmask(),
    }
}

fn id_lanes(ids: &[u32], id: u32) -> u64
    requires { length ids.now ≡ 64 }
    ensures { (i : ℕ) → i < 64 → (bit_at result i == 1) ≡ (slice_index ids.now i == id) }
{
    u32x64::from_slice(ids)
        .simd_eq(u32x64::splat(id))
        .to_bitmask()
}

// The cells, and zeros after them.
fn padded(cells: &[i64]) -> [i64; 64]
    requires { length cells.now ≤ 64 }
    ensures { (i : ℕ) → i < length cells.now → cell result i ≡ cell cells.now i }
{
    let mut padded = [0; 64];
    padded[..cells.len()].copy_from_slice(cells);
    padded
}

// Each cell is in its type's range: a proof learns it where a cell is read. The loop does nothing,
// and the compiler drops it.
fn in_range(cells: &[i64])
    ensures { (k : ℕ) → k < length cells.now → FitsSigned w64 (cell cells.now k) }
{
    for cell in cells {
        let _fits = *cell < 0;
    }
}
