//! The lists of a small graph both ways, and lists with empty vertices at both ends.

use gq_adj::Lists;

fn is_listed(lists: &Lists, vertex: u32, start: u32, list: &[u32]) -> bool {
    vertex < lists.len() && lists.start(vertex) == start && lists.list(vertex) == list
}

fn is_noted(lists: &Lists, vertex: u32, notes: &[u32]) -> bool {
    vertex < lists.len() && lists.notes(vertex) == notes
}

fn are_in_order(lists: &Lists) -> bool {
    lists.len() == 3
        && lists.all() == [1, 2, 1, 0, 2].as_slice()
        && is_listed(lists, 0, 0, &[1, 2, 1])
        && is_listed(lists, 1, 3, &[0])
        && is_listed(lists, 2, 4, &[2])
        && is_noted(lists, 1, &[])
}

#[test]
fn lists_are_in_the_order_of_the_pairs(rt: HostRuntime) {
    let lists = Lists::build(rt.alloc(), 3, &[0, 1, 0, 2, 0], &[1, 0, 2, 2, 1]);
    assert!(rt; are_in_order(&lists.expect(&rt, "memory")));
}

fn are_noted(lists: &Lists) -> bool {
    lists.len() == 3
        && is_listed(lists, 1, 1, &[0, 0])
        && is_noted(lists, 0, &[3])
        && is_noted(lists, 1, &[0, 2])
        && is_noted(lists, 2, &[1, 4])
}

#[test]
fn notes_stand_beside_their_pairs(rt: HostRuntime) {
    let to = [0, 1, 0, 2, 0];
    let notes = [0, 3, 1, 4, 2];
    let lists = Lists::build_noted(rt.alloc(), 3, &[1, 0, 2, 2, 1], &to, &notes);
    assert!(rt; are_noted(&lists.expect(&rt, "memory")));
}

fn are_none(lists: &Lists) -> bool {
    lists.len() == 0 && lists.all().is_empty()
}

#[test]
fn there_may_be_no_vertex(rt: HostRuntime) {
    let lists = Lists::build(rt.alloc(), 0, &[], &[]);
    assert!(rt; are_none(&lists.expect(&rt, "memory")));
}

fn are_empty_but_one(lists: &Lists) -> bool {
    lists.len() == 5
        && is_listed(lists, 0, 0, &[])
        && is_listed(lists, 2, 0, &[4, 0])
        && is_listed(lists, 4, 2, &[])
}

#[test]
fn vertices_may_have_no_pair(rt: HostRuntime) {
    let lists = Lists::build(rt.alloc(), 5, &[2, 2], &[4, 0]);
    assert!(rt; are_empty_but_one(&lists.expect(&rt, "memory")));
}
