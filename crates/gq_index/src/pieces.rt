//! Keys that ascend, piece by piece.
ghost use Rattle.std.specs.Prelude.{◌≡◌, ℕ, ◌*◌, ◌<◌, ◌≤◌, length, slice_index_or};
ghost use Rattle.std.specs.List.Sorted.{IsNonDecreasing};

use gq_bits::VECTOR;

/// The first row of a piece.
pub(crate) fn first_row(piece: u32) -> u64
    ensures { result ≡ VECTOR * piece }
{
    u64::from(VECTOR) * u64::from(piece)
}

/// How many of some keys that ascend come before a key.
pub(crate) fn keys_before(keys: &[u128], key: u128) -> usize
    ensures within { result ≤ length keys.now }
    ensures less { IsNonDecreasing keys.now → (k : ℕ) → k < result
        → slice_index_or keys.now k 0 < key }
    ensures more { IsNonDecreasing keys.now → (k : ℕ) → result ≤ k → k < length keys.now
        → key ≤ slice_index_or keys.now k 0 }
{
    let mut low = 0;
    let mut high = keys.len();
    while low < high {
        let middle = low + (high - low) / 2;
        if keys[middle] < key {
            low = middle + 1;
        } else {
            high = middle;
        }
    }
    low
}
