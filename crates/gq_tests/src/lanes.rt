//! Each kernel against its plain test, at lengths round a word's and a vector's end.

ghost use Rattle.std.specs.Prelude.{◌≡◌, ℕ, ◌≤◌, false};
ghost use Rattle.gq_bits.specs.Places.{is_marked};

use gq_bits::{Marks, VECTOR};
use gq_lanes::{LaneOp, keep_columns, keep_const, keep_equal_id, keep_other_id, keep_range};

const LENGTHS: [u32; 7] = [0, 1, 63, 64, 65, VECTOR - 1, VECTOR];

// Whether a place is marked: a coin thrown by its number and a seed.
fn is_picked(place: u32, seed: u32) -> bool {
    (place ^ seed).wrapping_mul(2_654_435_769) >> 31 == 1
}

// The places below `len` that are picked.
fn places(len: u32, seed: u32) -> Marks
    requires short { len ≤ VECTOR }
    ensures { (k : ℕ) → len ≤ k → is_marked result k ≡ false }
{
    let mut kept = Marks::none();
    for place in 0..VECTOR {
        kept.set(place, is_picked(place, seed));
    }
    let mut marks = Marks::first(len);
    marks.and(&kept);
    marks
}

// Cells from -3 to 3, in no order.
fn cells(factor: u32) -> [i64; VECTOR as usize] {
    let mut cells = [0; VECTOR as usize];
    for place in 0..VECTOR {
        cells[place as usize] = i64::from(place % VECTOR * (factor % 8) % 7) - 3;
    }
    cells
}

// Whether a place was marked by `places` with both seeds: of what is compared, and of what is known.
fn was_known(place: u32, len: u32) -> bool {
    place < len && is_picked(place, 5) && is_picked(place, 3)
}

fn keeps_less(len: u32) -> bool
    requires short { len ≤ VECTOR }
{
    let left = cells(3);
    let mut less = places(len, 5);
    keep_const(
        LaneOp::Less,
        &left[..len as usize],
        1,
        &places(len, 3),
        &mut less,
    );
    for place in 0..VECTOR {
        if less.get(place) != (was_known(place, len) && left[place as usize] < 1) {
            return false;
        }
    }
    true
}

fn keeps_between(len: u32) -> bool
    requires short { len ≤ VECTOR }
{
    let left = cells(3);
    let mut between = places(len, 5);
    keep_range(&left[..len as usize], -1, 2, &places(len, 3), &mut between);
    for place in 0..VECTOR {
        let cell = left[place as usize];
        if between.get(place) != (was_known(place, len) && -1 <= cell && cell < 2) {
            return false;
        }
    }
    true
}

fn keeps_at_least(len: u32) -> bool
    requires short { len ≤ VECTOR }
{
    let left = cells(3);
    let right = cells(5);
    let mut at_least = places(len, 5);
    keep_columns(
        LaneOp::GreaterEqual,
        &left[..len as usize],
        &right[..len as usize],
        &places(len, 3),
        &mut at_least,
    );
    for place in 0..VECTOR {
        let passes = left[place as usize] >= right[place as usize];
        if at_least.get(place) != (was_known(place, len) && passes) {
            return false;
        }
    }
    true
}

#[test]
fn cells_are_compared_as_one_by_one(rt: HostRuntime) {
    for len in LENGTHS {
        assert!(rt; keeps_less(len), "less of {len}");
        assert!(rt; keeps_between(len), "between of {len}");
        assert!(rt; keeps_at_least(len), "at least of {len}");
    }
}

fn ids() -> [u32; VECTOR as usize] {
    let mut ids = [0; VECTOR as usize];
    for place in 0..VECTOR {
        ids[place as usize] = place % 7;
    }
    ids
}

fn keeps_equal(len: u32) -> bool
    requires short { len ≤ VECTOR }
{
    let mut equal = places(len, 5);
    keep_equal_id(&ids()[..len as usize], 4, &mut equal);
    for place in 0..VECTOR {
        let was = place < len && is_picked(place, 5);
        if equal.get(place) != (was && place % 7 == 4) {
            return false;
        }
    }
    true
}

fn keeps_other(len: u32) -> bool
    requires short { len ≤ VECTOR }
{
    let mut other = places(len, 5);
    keep_other_id(&ids()[..len as usize], 4, &mut other);
    for place in 0..VECTOR {
        let was = place < len && is_picked(place, 5);
        if other.get(place) != (was && place % 7 != 4) {
            return false;
        }
    }
    true
}

#[test]
fn ids_are_compared_as_one_by_one(rt: HostRuntime) {
    for len in LENGTHS {
        assert!(rt; keeps_equal(len), "equal of {len}");
        assert!(rt; keeps_other(len), "other of {len}");
    }
}
