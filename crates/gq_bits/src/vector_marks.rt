//! Marks: one truth value for each place of a vector.

ghost use Rattle.std.specs.Prelude.{◌≡◌, ℕ, ◌+◌, ◌*◌, ◌<◌, ◌≤◌, List, Bool, length, true, false};
ghost use Rattle.std.specs.Prelude.{not, nat_lt, slice_set, MatchOption, count_by, ◌&&◌, ◌==◌};
ghost use Rattle.std.specs.Int.{bit_at};
ghost use Rattle.gq_bits.specs.Places.{is_marked, allows};

use crate::VECTOR;
use std::marker::Model;

const WORDS: usize = VECTOR as usize / 64;

/// A set of places of a vector. It is seen as the list of its `VECTOR` truth values.
#[derive(Drop)]
pub struct Marks {
    words: [u64; WORDS],
}

impl Model for Marks {
    ghost use Rattle.std.specs.Prelude.{List, Bool, ◌*◌, length};
    ghost use Rattle.gq_bits.specs.steps.Bits.{bits_of};

    ghost Value = { List Bool };

    ghost view = { λ m. bits_of (64 * length m.words) m.words };
}

impl Marks {
    /// No place is marked.
    pub fn none() -> Marks
        ensures whole { length result ≡ VECTOR }
        ensures blank { (k : ℕ) → is_marked result k ≡ false }
    {
        Marks { words: [0; WORDS] }
    }

    /// The places below `count` are marked.
    pub fn first(count: u32) -> Marks
        requires { count ≤ VECTOR }
        ensures whole { length result ≡ VECTOR }
        ensures below { (k : ℕ) → is_marked result k ≡ nat_lt k count }
    {
        let mut words = [0; WORDS];
        for index in 0..count / 64 {
            words[index as usize] = u64::MAX;
        }
        if count % 64 != 0 {
            words[count as usize / 64] = (1 << (count % 64)) - 1;
        }
        Marks { words }
    }

    /// Whether the place is marked.
    pub fn get(&self, place: u32) -> bool
        requires { place < VECTOR }
        ensures whole { length self.now ≡ VECTOR }
        ensures value { result ≡ is_marked self.now place }
    {
        (self.words[place as usize / 64] >> (place % 64)) & 1 == 1
    }

    /// Marks the place, or takes its mark away.
    pub fn set(&mut self, place: u32, on: bool)
        requires { place < VECTOR }
        ensures whole { length self.new ≡ VECTOR }
        ensures written { self.new ≡ slice_set self.old place on }
    {
        let index = place as usize / 64;
        let word = self.words[index];
        let bit = 1u64 << (place % 64);
        self.words[index] = if on { word | bit } else { word & !bit };
    }

    /// Keeps the places that `other` marks too.
    pub fn and(&mut self, other: &Marks)
        ensures whole { length self.new ≡ VECTOR }
        ensures both { (k : ℕ) → is_marked self.new k
            ≡ (is_marked self.old k && is_marked other.now k) }
    {
        for index in 0..WORDS {
            self.words[index] &= other.words[index];
        }
    }

    /// Keeps the places that `other` does not mark.
    pub fn and_not(&mut self, other: &Marks)
        ensures whole { length self.new ≡ VECTOR }
        ensures without { (k : ℕ) → is_marked self.new k
            ≡ (is_marked self.old k && not (is_marked other.now k)) }
    {
        for index in 0..WORDS {
            self.words[index] &= !other.words[index];
        }
    }

    /// The least marked place at or after `place`, which may be any number.
    pub fn next_from(&self, place: u32) -> Option<u32>
        ensures found { MatchOption result ((k : ℕ) → place ≤ k → is_marked self.now k ≡ false)
            (λ p. (place ≤ p) × (is_marked self.now p ≡ true)) }
        ensures least { MatchOption result (0 ≤ 0) (λ p.
            (k : ℕ) → place ≤ k → k < p → is_marked self.now k ≡ false) }
    {
        let words = &self.words;
        if place >= VECTOR {
            return None;
        }
        let mut index = place as usize / 64;
        let mut word = words[index] & (u64::MAX << (place % 64));
        while word == 0 {
            index += 1;
            if index == WORDS {
                return None;
            }
            word = words[index];
        }
        Some(64 * index as u32 + word.trailing_zeros())
    }

    /// How many places are marked.
    pub fn count(&self) -> u32
        ensures { result ≡ count_by (λ on. on) self.now }
    {
        let mut all = 0;
        for index in 0..WORDS {
            let word = self.words[index];
            all += word.count_ones();
        }
        all
    }

    /// The marks of the 64 places from `64 * index` on, the first in the least bit.
    pub fn word(&self, index: u32) -> u64
        requires { 64 * index < VECTOR }
        ensures whole { length self.now ≡ VECTOR }
        ensures bits { (i : ℕ) → i < 64
            → (bit_at result i == 1) ≡ is_marked self.now (64 * index + i) }
    {
        self.words[index as usize]
    }

    /// Keeps those of the 64 places from `64 * index` on whose bit in `mask` is set, and all other
    /// places.
    pub fn keep_word(&mut self, index: u32, mask: u64)
        requires { 64 * index < VECTOR }
        ensures whole { length self.new ≡ VECTOR }
        ensures kept { (k : ℕ) → is_marked self.new k
            ≡ (is_marked self.old k && allows index mask k) }
    {
        self.words[index as usize] &= mask;
    }
}
