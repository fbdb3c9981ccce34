//! Lists of bits that count the ones before a place in constant time.

ghost use Rattle.std.specs.Prelude.{◌≡◌, ◌↔◌, ℕ, ◌+◌, ◌*◌, ◌/◌, ◌^◌, ◌<◌, ◌≤◌, [], IsTrue, length};
ghost use Rattle.std.specs.Prelude.{false, take, slice_index, slice_index_or, count_by, IfOk};
ghost use Rattle.std.specs.Prelude.{vec_len};
ghost use Rattle.gq_bits.specs.steps.Bits.{bit_of, bits_of};

use gq_base::Memory;
use std::alloc::Global;
use std::marker::Model;

/// A list of bits, fewer than 2^32. It is seen as the list of its truth values.
#[derive(Drop)]
pub struct BitList {
    len: u32,
    words: Vec<u64>,
    // The ones before each word.
    sums: Vec<u32>,
}

impl Model for BitList {
    ghost use Rattle.std.specs.Prelude.{List, Bool};
    ghost use Rattle.gq_bits.specs.steps.Bits.{bits_of, IsRanked};

    ghost Value = { List Bool };

    ghost view = { λ b. bits_of b.len b.words.items };

    ghost invariant = { λ b. IsRanked b.len b.words.items b.sums.items };
}

impl BitList {
    /// The list of these bits.
    pub fn from_bools(alloc: Global, bits: &[bool]) -> Result<BitList, Memory>
        requires { length bits.now < 2 ^ 32 }
        ensures { IfOk result (λ list. list ≡ bits.now) }
    {
        let words = words_of(alloc, bits)?;
        let sums = sums_of(alloc, words.as_slice())?;
        Ok(BitList {
            len: bits.len() as u32,
            words,
            sums,
        })
    }

    /// How many bits the list has.
    pub fn len(&self) -> u32
        ensures { result ≡ length self.now }
    {
        self.len
    }

    /// Whether the list has no bit.
    pub fn is_empty(&self) -> bool
        ensures { IsTrue result ↔ (self.now ≡ []) }
    {
        self.len == 0
    }

    /// The bit at a place.
    pub fn get(&self, place: u32) -> bool
        requires { place < length self.now }
        ensures { result ≡ slice_index_or self.now place false }
    {
        (self.words[place as usize / 64] >> (place % 64)) & 1 == 1
    }

    /// How many ones stand before a place, which may be the list's length.
    pub fn rank(&self, place: u32) -> u32
        requires { place ≤ length self.now }
        ensures { result ≡ count_by (λ on. on) (take place self.now) }
    {
        let index = place as usize / 64;
        let below = (1u64 << (place % 64)) - 1;
        let part = self.words[index] & below;
        self.sums[index] + part.count_ones()
    }

    /// How many ones the list has.
    pub fn ones(&self) -> u32
        ensures { result ≡ count_by (λ on. on) self.now }
    {
        self.rank(self.len)
    }
}

// The bits, packed, and a word more where the last one is full: each place up to the length has a
// word.
fn words_of(alloc: Global, bits: &[bool]) -> Result<Vec<u64>, Memory>
    ensures len { IfOk result (λ words. vec_len words ≡ length bits.now / 64 + 1) }
    ensures bits { IfOk result (λ words.
        (k : ℕ) → bit_of words.items k ≡ slice_index_or bits.now k false) }
{
    let mut words = vec![in alloc; 0u64; bits.len() / 64 + 1]?;
    for (place, bit) in bits.iter().enumerate() {
        words[place / 64] |= u64::from(*bit) << (place % 64);
    }
    Ok(words)
}

// The ones before each word.
fn sums_of(alloc: Global, words: &[u64]) -> Result<Vec<u32>, Memory>
    requires { 64 * length words.now ≤ 2 ^ 32 }
    ensures len { IfOk result (λ sums. vec_len sums ≡ length words.now) }
    ensures ones { IfOk result (λ sums. (k : ℕ) → k < length words.now
        → slice_index sums.items k ≡ count_by (λ on. on) (bits_of (64 * k) words.now)) }
{
    let mut sums = Vec::with_capacity(alloc, words.len())?;
    let mut before = 0u64;
    for word in words {
        sums.push(before as u32)?;
        before += u64::from(word.count_ones());
    }
    Ok(sums)
}
