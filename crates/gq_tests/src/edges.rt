//! Places of a small graph and of two pages, and single columns with and without a second pair.

use gq_edges::{Pages, Single, SingleRefusal};

// Whether the relationship with a number stands at a place.
fn stands(pages: &Pages, number: u32, place: u32) -> bool {
    number < pages.len()
        && pages.place_of(number) == place
        && place < pages.len()
        && pages.number_at(place) == number
}

fn are_in_order(pages: &Pages) -> bool {
    pages.len() == 5
        && stands(pages, 0, 0)
        && stands(pages, 1, 3)
        && stands(pages, 2, 1)
        && stands(pages, 3, 4)
        && stands(pages, 4, 2)
}

#[test]
fn places_are_in_order_of_source_and_number(rt: HostRuntime) {
    let pages = Pages::build(rt.alloc(), 3, &[0, 1, 0, 2, 0]);
    assert!(rt; are_in_order(&pages.expect(&rt, "memory")));
}

fn is_empty(pages: &Pages) -> bool {
    pages.len() == 0 && pages.page_start(7) == 0
}

fn is_of_one_source(pages: &Pages) -> bool {
    pages.len() == 2 && pages.place_of(1) == 1 && pages.number_at(0) == 0
}

fn has_gaps(pages: &Pages) -> bool {
    pages.len() == 3
        && pages.place_of(0) == 1
        && pages.place_of(1) == 0
        && pages.place_of(2) == 2
        && pages.page_start(1) == 1
        && pages.page_start(2) == 3
}

#[test]
fn pages_may_have_vertices_without_a_relationship(rt: HostRuntime) {
    let none = Pages::build(rt.alloc(), 0, &[]);
    assert!(rt; is_empty(&none.expect(&rt, "memory")));
    let one = Pages::build(rt.alloc(), 1, &[0, 0]);
    assert!(rt; is_of_one_source(&one.expect(&rt, "memory")));
    let gaps = Pages::build(rt.alloc(), 300, &[200, 100, 200]);
    assert!(rt; has_gaps(&gaps.expect(&rt, "memory")));
}

#[test]
fn a_page_has_128_sources(rt: HostRuntime) {
    let mut from = [0; 129];
    for source in 0..129u32 {
        from[source as usize] = source;
    }
    let pages = Pages::build(rt.alloc(), 129, &from).expect(&rt, "memory");
    let start = pages.page_start(1);
    assert!(rt; start == 128 && start < pages.len());
    assert!(rt; pages.place(128, 0) == 128);
}

#[test]
fn a_source_has_one_pair_at_most(rt: HostRuntime) {
    let second = Single::build(rt.alloc(), 2, &[0, 1, 0], &[1, 1, 1]);
    assert!(rt; matches!(second, Err(SingleRefusal::Second { at: 2 })));
}

fn is_pair(single: &Single, vertex: u32, target: Option<u32>, number: Option<u32>) -> bool {
    vertex < single.len() && single.get(vertex) == target && single.number(vertex) == number
}

fn are_two_of_five(single: &Single) -> bool {
    is_pair(single, 0, None, None)
        && is_pair(single, 1, Some(6), Some(1))
        && is_pair(single, 2, None, None)
        && is_pair(single, 3, Some(5), Some(0))
        && is_pair(single, 4, None, None)
}

#[test]
fn a_source_may_have_no_pair(rt: HostRuntime) {
    let single = Single::build(rt.alloc(), 5, &[3, 1], &[5, 6]);
    assert!(rt; are_two_of_five(&single.expect(&rt, "no refusal")));
}

#[test]
fn there_may_be_no_source(rt: HostRuntime) {
    let none = Single::build(rt.alloc(), 0, &[], &[]).expect(&rt, "no refusal");
    assert!(rt; none.len() == 0);
}

#[test]
fn there_may_be_one_source(rt: HostRuntime) {
    let one = Single::build(rt.alloc(), 1, &[0], &[9]).expect(&rt, "no refusal");
    assert!(rt; one.len() == 1 && is_pair(&one, 0, Some(9), Some(0)));
}
