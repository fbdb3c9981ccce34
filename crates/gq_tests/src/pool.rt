//! Slots of a small pool that are taken, written, copied and given back.

use gq_bits::VECTOR;
use gq_pool::{SlotList, VectorPool};

#[test]
fn slots_keep_what_was_written(rt: HostRuntime) {
    let mut pool = VectorPool::new(rt.alloc(), 2).expect(&rt, "memory");
    assert!(rt; pool.spare() == 2);
    let from = pool.take().expect(&rt, "a slot");
    let to = pool.take().expect(&rt, "a second slot");
    assert!(rt; pool.spare() == 0);
    pool.cells_mut(&from)[3] = 7;
    pool.copy_map(&from, &to, |cell| cell.wrapping_sub(1));
    assert!(rt; is_copied(pool.cells(&to)) && pool.cells(&from)[3] == 7);
    pool.give(from);
    pool.give(to);
    assert!(rt; pool.spare() == 2);
}

fn is_copied(cells: &[i64]) -> bool {
    cells.len() == VECTOR as usize
        && cells[0] == -1
        && cells[3] == 6
        && cells[VECTOR as usize - 1] == -1
}

#[test]
fn more_slots_than_there_are_leave_the_pool_as_it_is(rt: HostRuntime) {
    let mut pool = VectorPool::new(rt.alloc(), 112).expect(&rt, "memory");
    let mut list = SlotList::with_room(rt.alloc(), 113).expect(&rt, "memory");
    let taken = pool.take_many(113, &mut list);
    assert!(rt; !taken && pool.spare() == 112);
    let taken = pool.take_many(112, &mut list);
    assert!(rt; taken && pool.spare() == 0 && list.as_slice().len() == 112);
    pool.give_all(&mut list);
    list.close();
    assert!(rt; pool.spare() == 112);
}
