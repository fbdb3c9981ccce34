//! Single columns: at most one relationship for each source.

ghost use Rattle.std.specs.Prelude.{◌≡◌, ℕ, ◌^◌, ◌<◌, length, All, IfOk, OnOk};
ghost use Rattle.std.specs.Option.{option_map};
ghost use Rattle.gq_edges.specs.Once.{IsPairOf, AreOnce, IsSecond, pair_at};

use std::alloc::{AllocError, Global};
use std::marker::Model;

/// The number of a source that has no pair.
const NONE: u32 = u32::MAX;

/// Why a single column cannot be built.
#[derive(Clone, Copy, Debug, PartialEq, Eq)]
pub enum SingleRefusal {
    /// The source of the pair at this place stood before; it is the first such place.
    Second { at: u32 },
    /// There was not enough memory.
    Memory,
}

impl From<AllocError> for SingleRefusal {
    ghost use Rattle.gq_edges.specs.declared.singles.SingleRefusal.TheVariants.{Memory as NoMemory};

    ghost from_gives = { λ _ e. e ≡ NoMemory };

    fn from(_error: AllocError) -> SingleRefusal {
        SingleRefusal::Memory
    }
}

/// The pair of each source, where it has one. It is seen as the list of optional pairs.
#[derive(Drop)]
pub struct Single {
    // The number of each source's pair, or `NONE`.
    numbers: Vec<u32>,
    // The target of each source's pair.
    targets: Vec<u32>,
}

impl Model for Single {
    ghost use Rattle.std.specs.Prelude.{List, Option};
    ghost use Rattle.gq_edges.specs.Once.{Pair};
    ghost use Rattle.gq_edges.specs.steps.Once.{pairs_of, AreColumns};

    ghost Value = { List (Option Pair) };

    ghost view = { λ s. pairs_of s.numbers.items s.targets.items };

    ghost invariant = { λ s. AreColumns s.numbers.items s.targets.items };
}

impl Single {
    /// The column of the pairs `from[i]`, `to[i]`, numbered in that order.
    pub fn build(
        alloc: Global,
        vertices: u32,
        from: &[u32],
        to: &[u32],
    ) -> Result<Single, SingleRefusal>
        requires one_length { length to.now ≡ length from.now }
        requires from_below { All (λ v. v < vertices) from.now }
        requires few { length from.now < 2 ^ 32 }
        ensures len { IfOk result (λ single. length single ≡ vertices) }
        ensures pairs { IfOk result (λ single.
            (v : ℕ) → v < vertices → IsPairOf from.now to.now v (pair_at single v)) }
        ensures once { OnOk result (AreOnce from.now) }
        ensures second { (at : ℕ) → result ≡ Err (SingleRefusal.Second at) → IsSecond from.now at }
    {
        let mut numbers = vec![in alloc; NONE; vertices as usize]?;
        let mut targets = vec![in alloc; 0u32; vertices as usize]?;
        for (i, vertex) in from.iter().enumerate() {
            if numbers[*vertex as usize] != NONE {
                return Err(SingleRefusal::Second { at: i as u32 });
            }
            numbers[*vertex as usize] = i as u32;
            targets[*vertex as usize] = to[i];
        }
        Ok(Single { numbers, targets })
    }

    /// How many sources there are.
    pub fn len(&self) -> u32
        ensures { result ≡ length self.now }
    {
        self.numbers.len() as u32
    }

    /// The target of the source's pair.
    pub fn get(&self, vertex: u32) -> Option<u32>
        requires { vertex < length self.now }
        ensures { result ≡ option_map (λ pair. pair.target) (pair_at self.now vertex) }
    {
        if self.numbers[vertex as usize] == NONE {
            None
        } else {
            Some(self.targets[vertex as usize])
        }
    }

    /// The number of the source's pair.
    pub fn number(&self, vertex: u32) -> Option<u32>
        requires { vertex < length self.now }
        ensures { result ≡ option_map (λ pair. pair.number) (pair_at self.now vertex) }
    {
        let number = self.numbers[vertex as usize];
        if number == NONE { None } else { Some(number) }
    }
}
