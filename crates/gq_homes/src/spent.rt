//! What a pipeline spent, which is told when its slots are given back.
ghost use Rattle.std.specs.Prelude.{◌≡◌, ◌+◌, length};
ghost use Rattle.gq_pool.specs.Pool.{spare_of};
ghost use Rattle.gq_pool.specs.Slots.{Holds, all_freed};

use gq_pool::{SlotList, VectorPool};

/// What a pipeline spent. `give_back` alone makes it.
#[derive(Drop)]
pub struct Spent {
    chunks: u64,
    columns: u32,
}

impl Spent {
    /// How many chunks were handed out, up to 2^64 - 1.
    pub fn chunks(&self) -> u64
        ensures { result ≡ self.now.chunks }
    {
        self.chunks
    }

    /// How many columns of the pool were held.
    pub fn columns(&self) -> u32
        ensures { result ≡ self.now.columns }
    {
        self.columns
    }
}

/// Gives back the slots of so many columns, of a pipeline that handed out so many chunks, and
/// answers what it spent. It takes no memory.
pub fn give_back(mut slots: SlotList, columns: u32, chunks: u64, pool: &mut VectorPool) -> Spent
    requires held { Holds pool.old slots.numbers }
    requires count { length slots.numbers ≡ columns }
    ensures chunks { result.chunks ≡ chunks }
    ensures columns { result.columns ≡ columns }
    ensures slots { spare_of pool.new ≡ spare_of pool.old + columns }
    ensures back { pool.new ≡ all_freed pool.old slots.numbers }
{
    pool.give_all(&mut slots);
    slots.close();
    Spent { chunks, columns }
}
