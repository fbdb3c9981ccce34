//! Keys of one number among some rows that ascend.
ghost use Rattle.std.specs.Prelude.{◌≡◌, ◌≢◌, ℕ, ◌+◌, ◌-◌, ◌*◌, ◌<◌, ◌≤◌, length, min, slice_index_or, None, true, false, IfSome, ◌⊎◌};
ghost use Rattle.std.specs.List.Sorted.{IsNonDecreasing};
ghost use Rattle.gq_bits.specs.Places.{is_marked};
ghost use Rattle.gq_index.specs.Numbered.{IsOneOf, IsRising, key_of};

use crate::key::key_of;
use crate::pieces::{first_row, keys_before};
use gq_bits::{Marks, VECTOR};

/// Those of some rows, a piece of them, of which a key with a number stands among the keys.
pub(crate) fn marks_among(keys: &[u128], number: u64, rows: &[u32]) -> Marks
    requires { length rows.now ≤ VECTOR }
    ensures whole { length result ≡ VECTOR }
    ensures on { (k : ℕ) → is_marked result k ≡ true → (k < length rows.now)
        × IsOneOf keys.now (key_of number (slice_index_or rows.now k 0)) }
    ensures off { IsNonDecreasing keys.now → IsRising rows.now → (k i : ℕ)
        → k < length rows.now → is_marked result k ≡ false → i < length keys.now
        → slice_index_or keys.now i 0 ≢ key_of number (slice_index_or rows.now k 0) }
{
    match (rows.first(), rows.last()) {
        (Some(first), Some(last)) => {
            let low = keys_before(keys, key_of(number, u64::from(*first)));
            let end = key_of(number, u64::from(*last));
            marks_from(keys, low, end, number, rows)
        }
        _ => Marks::none(),
    }
}

// The same of the keys from a place on up to the last one that is asked for.
fn marks_from(keys: &[u128], low: usize, end: u128, number: u64, rows: &[u32]) -> Marks
    requires { length rows.now ≤ VECTOR }
    ensures whole { length result ≡ VECTOR }
    ensures on { (k : ℕ) → is_marked result k ≡ true → (k < length rows.now)
        × IsOneOf keys.now (key_of number (slice_index_or rows.now k 0)) }
    ensures off { IsNonDecreasing keys.now → IsRising rows.now → (k i : ℕ)
        → k < length rows.now → is_marked result k ≡ false → low ≤ i → i < length keys.now
        → slice_index_or keys.now i 0 ≤ end
        → slice_index_or keys.now i 0 ≢ key_of number (slice_index_or rows.now k 0) }
{
    let mut marks = Marks::none();
    for place in low..keys.len() {
        if end < keys[place] {
            return marks;
        }
        mark_row(&mut marks, rows, number, keys[place]);
    }
    marks
}

// Sets the mark of the row that has a key, if one of the rows has it.
fn mark_row(marks: &mut Marks, rows: &[u32], number: u64, key: u128)
    requires { length rows.now ≤ VECTOR }
    ensures whole { length marks.old ≡ VECTOR → length marks.new ≡ VECTOR }
    ensures on { (k : ℕ) → is_marked marks.new k ≡ true → (is_marked marks.old k ≡ true)
        ⊎ ((k < length rows.now) × (key ≡ key_of number (slice_index_or rows.now k 0))) }
    ensures off { IsRising rows.now → (k : ℕ) → k < length rows.now
        → is_marked marks.new k ≡ false → (is_marked marks.old k ≡ false)
        × (key ≢ key_of number (slice_index_or rows.now k 0)) }
{
    match row_of(rows, number, key) {
        None => {}
        Some(place) => marks.set(place, true),
    }
}

// The place of the row that has a key, if one of the rows has it.
fn row_of(rows: &[u32], number: u64, key: u128) -> Option<u32>
    requires { length rows.now ≤ VECTOR }
    ensures inside { IfSome result (λ k. (k < length rows.now)
        × (key ≡ key_of number (slice_index_or rows.now k 0))) }
    ensures none { IsRising rows.now → result ≡ None → (k : ℕ)
        → k < length rows.now → key ≢ key_of number (slice_index_or rows.now k 0) }
{
    let place = rows_before(rows, number, key);
    match rows.get(place) {
        None => None,
        Some(row) => if key_of(number, u64::from(*row)) == key {
            Some(place as u32)
        } else {
            None
        },
    }
}

/// Of how many of some rows that ascend the key with a number comes before a key. Where they follow
/// one another, each stands as far behind the first one as its key does.
pub(crate) fn rows_before(rows: &[u32], number: u64, key: u128) -> usize
    ensures within { result ≤ length rows.now }
    ensures less { IsRising rows.now → (k : ℕ) → k < result
        → key_of number (slice_index_or rows.now k 0) < key }
    ensures more { IsRising rows.now → (k : ℕ) → result ≤ k → k < length rows.now
        → key ≤ key_of number (slice_index_or rows.now k 0) }
{
    if all_before(rows, number, key) {
        return rows.len();
    }
    let place = likely_place(rows, number, key);
    if has_key(rows, number, place, key) {
        return place;
    }
    rows_searched(rows, number, key)
}

// Whether the key with a number of the last row comes before a key, and so that of each row does.
fn all_before(rows: &[u32], number: u64, key: u128) -> bool
    ensures { IsRising rows.now → result ≡ true → (k : ℕ) → k < length rows.now
        → key_of number (slice_index_or rows.now k 0) < key }
{
    match rows.last() {
        None => false,
        Some(last) => key_of(number, u64::from(*last)) < key,
    }
}

// The place of the row that has a key, if the rows follow one another up to it.
fn likely_place(rows: &[u32], number: u64, key: u128) -> usize {
    match rows.first() {
        None => 0,
        Some(first) => {
            let low = key_of(number, u64::from(*first));
            if key < low || key - low > u128::from(u32::MAX) {
                return 0;
            }
            (key - low) as u32 as usize
        }
    }
}

// Whether the row at a place has a key.
fn has_key(rows: &[u32], number: u64, place: usize, key: u128) -> bool
    ensures { result ≡ true → (place < length rows.now)
        × (key ≡ key_of number (slice_index_or rows.now place 0)) }
{
    match rows.get(place) {
        None => false,
        Some(row) => key_of(number, u64::from(*row)) == key,
    }
}

// The same, by a search.
fn rows_searched(rows: &[u32], number: u64, key: u128) -> usize
    ensures within { result ≤ length rows.now }
    ensures less { IsRising rows.now → (k : ℕ) → k < result
        → key_of number (slice_index_or rows.now k 0) < key }
    ensures more { IsRising rows.now → (k : ℕ) → result ≤ k → k < length rows.now
        → key ≤ key_of number (slice_index_or rows.now k 0) }
{
    let mut low = 0;
    let mut high = rows.len();
    while low < high {
        let middle = low + (high - low) / 2;
        if key_of(number, u64::from(rows[middle])) < key {
            low = middle + 1;
        } else {
            high = middle;
        }
    }
    low
}

/// A piece that does not begin behind a place.
pub(crate) fn piece_at(place: usize) -> u32
    ensures { VECTOR * result ≤ place }
{
    let piece = place / VECTOR as usize;
    if piece < u32::MAX as usize {
        piece as u32
    } else {
        u32::MAX
    }
}

/// A piece of some rows.
pub(crate) fn piece_of_rows(rows: &[u32], piece: u32) -> &[u32]
    ensures few { length result.now ≤ VECTOR }
    ensures len { length result.now ≡ min (length rows.now - VECTOR * piece) VECTOR }
    ensures each { (k : ℕ) → k < length result.now → slice_index_or result.now k 0
        ≡ slice_index_or rows.now (VECTOR * piece + k) 0 }
{
    let first = first_row(piece) as usize;
    if first >= rows.len() {
        return &[];
    }
    let end = rows.len().min(first + VECTOR as usize);
    &rows[first..end]
}
