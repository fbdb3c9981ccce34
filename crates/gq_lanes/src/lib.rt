//! Kernels that keep the marked places of a vector whose cells or ids pass a test, 64 places at a
//! time. The crate stands on the marks of `gq_bits`.
#![tactic(auto)]

mod columns;
mod identities;
mod lanes;

ghost use Rattle.std.specs.Prelude.{◌≡◌, ◌+◌, ◌*◌, ◌≤◌, length, take, drop};

pub use columns::{keep_columns, keep_const, keep_range};
pub use identities::{keep_equal_id, keep_other_id};
pub use lanes::LaneOp;

// The places from 64 * index on, 64 at most.
fn part_of<T>(items: &[T], index: usize) -> &[T]
    requires { 64 * index ≤ length items.now }
    ensures { result.now ≡ take 64 (drop (64 * index) items.now) }
{
    let low = 64 * index;
    let count = (items.len() - low).min(64);
    &items[low..low + count]
}
