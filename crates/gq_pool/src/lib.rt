//! A pool of vectors of cells, whose slots are lent out and given back. It is seen as a list of
//! vectors, of which a write changes one. The crate stands on `gq_bits` for the length of a vector.
#![tactic(auto)]

ghost use Rattle.std.specs.Prelude.{◌≡◌, ◌≢◌, ◌↔◌, ℕ, ◌+◌, ◌<◌, ◌≤◌, length, IfOk, IfNone};
ghost use Rattle.std.specs.Prelude.{IfSome, IsNone, slice_index_or, pos};
ghost use Rattle.std.specs.Borrow.{sem};
ghost use Rattle.gq_pool.specs.Pool.{IsOut, IsFree, IsFresh, cells_of, cell_at, spare_of, freed};
ghost use Rattle.gq_pool.specs.Pool.{taken};
ghost use Rattle.gq_pool.specs.Lending.{LendsCells};

mod slot_list;

use gq_base::Memory;
use gq_bits::VECTOR;
pub use slot_list::SlotList;
use std::alloc::Global;
use std::marker::Model;
use std::mem;

/// A slot that was taken from a pool. It can be neither copied nor dropped: it ends where it is
/// given back. It is seen as its number.
pub struct Slot {
    number: u32,
}

impl Model for Slot {
    ghost use Rattle.std.specs.Prelude.{ℕ};

    ghost Value = { ℕ };

    ghost view = { λ s. s.number };
}

/// A pool of at most 4,096 slots of `VECTOR` cells each. It is seen as the cells of each slot, and
/// which slots are out.
#[derive(Drop)]
pub struct VectorPool {
    lanes: Vec<Vec<i64>>,
    out: Vec<bool>,
}

impl Model for VectorPool {
    ghost use Rattle.std.specs.Prelude.{map};
    ghost use Rattle.gq_pool.specs.Pool.{Pool};
    ghost use Rattle.gq_pool.specs.steps.Pool.{AreLanes};

    ghost Value = { Pool };

    ghost view = { λ p.
        record { cells = map (λ lane. lane.items) p.lanes.items; out = p.out.items } };

    ghost invariant = { λ p. AreLanes p.lanes.items p.out.items };
}

impl VectorPool {
    /// A pool of so many slots, all free, with the cells 0.
    pub fn new(alloc: Global, slots: u32) -> Result<VectorPool, Memory>
        requires some { 0 < slots }
        requires few { slots ≤ 4096 }
        ensures { IfOk result (λ pool. IsFresh pool slots) }
    {
        let mut lanes = Vec::with_capacity(alloc, slots as usize)?;
        for _ in 0..slots {
            let lane = vec![in alloc; 0i64; VECTOR as usize]?;
            lanes.push(lane)?;
        }
        let out = vec![in alloc; false; slots as usize]?;
        Ok(VectorPool { lanes, out })
    }

    /// How many slots are free.
    pub fn spare(&self) -> u32
        ensures { result ≡ spare_of self.now }
    {
        self.out.iter().filter(|out| !**out).count() as u32
    }

    /// Takes a free slot, where there is one.
    pub fn take(&mut self) -> Option<Slot>
        ensures none { IsNone result ↔ (spare_of self.old ≡ 0) }
        ensures unchanged { IfNone result (self.new ≡ self.old) }
        ensures was_free { IfSome result (IsFree self.old) }
        ensures takes { IfSome result (λ slot. self.new ≡ taken self.old slot) }
        ensures is_out { IfSome result (IsOut self.new) }
        ensures others { IfSome result (λ slot. (s : ℕ) → IsOut self.old s → IsOut self.new s) }
        ensures spare { IfSome result (λ slot. spare_of self.new + 1 ≡ spare_of self.old) }
    {
        for i in 0..self.out.len() {
            if !self.out[i] {
                self.out[i] = true;
                return Some(Slot { number: i as u32 });
            }
        }
        None
    }

    /// Frees the slot; its cells stay.
    pub fn give(&mut self, slot: Slot)
        requires { IsOut self.old slot }
        ensures gives { self.new ≡ freed self.old slot }
        ensures others { (s : ℕ) → s ≢ slot → IsOut self.old s → IsOut self.new s }
        ensures spare { spare_of self.new ≡ spare_of self.old + 1 }
    {
        let Slot { number } = slot;
        self.out[number as usize] = false;
    }

    /// The cells of a slot.
    pub fn cells(&self, slot: &Slot) -> &[i64]
        requires { IsOut self.now slot.now }
        ensures value { result.now ≡ cells_of self.now slot.now }
        ensures whole { length result.now ≡ VECTOR }
    {
        self.lanes[slot.number as usize].as_slice()
    }

    /// The cells of a slot, to be written. What is written there is in the pool afterwards, and the
    /// cells of all other slots stay.
    pub fn cells_mut(&mut self, slot: &Slot) -> &mut [i64]
        requires { IsOut self.old slot.now }
        ensures* writes_back { sem 𝓛 (LendsCells self.entry slot.now result) }
        ensures value { result.now ≡ cells_of self.old slot.now }
        ensures whole { length result.now ≡ VECTOR }
    {
        let lane = &mut self.lanes[slot.number as usize];
        lane.as_mut_slice()
    }

    /// Writes `f` of each cell of `from` into the cell of `to` at its place.
    pub fn copy_map<F: Fn(i64) -> i64>(&mut self, from: &Slot, to: &Slot, f: F)
        requires from_out { IsOut self.old from.now }
        requires to_out { IsOut self.old to.now }
        requires different { from.now ≢ to.now }
        requires callable { (k : ℕ) → k < VECTOR → F.pre f (cell_at self.old from.now k) }
        ensures copied { (k : ℕ) → k < VECTOR
            → F.post f (cell_at self.old from.now k) (cell_at self.new to.now k) }
        ensures others { (s : ℕ) → s ≢ to.now → cells_of self.new s ≡ cells_of self.old s }
        ensures same_out { self.new.out ≡ self.old.out }
        ensures still_out { (s : ℕ) → IsOut self.old s → IsOut self.new s }
    {
        let empty = Vec::new(*self.out.allocator());
        let mut target = mem::replace(&mut self.lanes[to.number as usize], empty);
        map_cells(
            self.lanes[from.number as usize].as_slice(),
            target.as_mut_slice(),
            f,
        );
        self.lanes[to.number as usize] = target;
    }
}

// Writes `f` of each cell of `from` into the cell of `to` at its place.
fn map_cells<F: Fn(i64) -> i64>(from: &[i64], to: &mut [i64], f: F)
    requires one_length { length to.old ≡ length from.now }
    requires callable { (k : ℕ) → k < length from.now
        → F.pre f (slice_index_or from.now k (pos 0)) }
    ensures { (k : ℕ) → k < length from.now
        → F.post f (slice_index_or from.now k (pos 0)) (slice_index_or to.new k (pos 0)) }
{
    for (place, cell) in from.iter().enumerate() {
        to[place] = f(*cell);
    }
}
