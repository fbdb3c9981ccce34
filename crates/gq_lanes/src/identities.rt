//! Kernels over ids.

ghost use Rattle.std.specs.Prelude.{◌≡◌, ℕ, ◌≤◌, ◌==◌, ◌&&◌, length, false, not, slice_index};
ghost use Rattle.gq_bits.specs.Places.{is_marked};

use crate::lanes::id_mask;
use crate::part_of;
use gq_bits::{Marks, VECTOR};

/// Keeps the marked places whose id equals `id`.
pub fn keep_equal_id(ids: &[u32], id: u32, marks: &mut Marks)
    requires fits { length ids.now ≤ VECTOR }
    requires within { (k : ℕ) → length ids.now ≤ k → is_marked marks.old k ≡ false }
    ensures { (k : ℕ) → is_marked marks.new k
        ≡ (is_marked marks.old k && (slice_index ids.now k == id)) }
{
    for index in 0..ids.len().div_ceil(64) {
        let mask = id_mask(part_of(ids, index), id);
        marks.keep_word(index as u32, mask);
    }
}

/// Keeps the marked places whose id is another than `id`.
pub fn keep_other_id(ids: &[u32], id: u32, marks: &mut Marks)
    requires fits { length ids.now ≤ VECTOR }
    requires within { (k : ℕ) → length ids.now ≤ k → is_marked marks.old k ≡ false }
    ensures { (k : ℕ) → is_marked marks.new k
        ≡ (is_marked marks.old k && not (slice_index ids.now k == id)) }
{
    for index in 0..ids.len().div_ceil(64) {
        let mask = id_mask(part_of(ids, index), id);
        marks.keep_word(index as u32, !mask);
    }
}
