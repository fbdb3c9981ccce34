//! Places of relationships in order of their sources, in pages of 128 sources.

ghost use Rattle.std.specs.Prelude.{◌≡◌, ℕ, ◌+◌, ◌*◌, ◌/◌, ◌^◌, ◌<◌, length, All, IfOk};
ghost use Rattle.std.specs.Prelude.{slice_index, vec_len};
ghost use Rattle.std.specs.List.{concat, range_with_len};
ghost use Rattle.gq_edges.specs.Order.{numbers_of, page_start_of};
ghost use Rattle.gq_edges.specs.steps.Order.{IsPlaceOf};

use gq_adj::Lists;
use gq_base::Memory;
use std::alloc::Global;
use std::marker::Model;

/// How many sources a page has.
const PAGE: u32 = 128;

/// The places of the relationships of a table: their positions when all are put in order of source
/// and then of number. It is seen as the numbers of each source, in order.
#[derive(Drop)]
pub struct Pages {
    // The numbers of each source, and so the number at each place.
    numbers: Lists,
    // The place of each number.
    places: Vec<u32>,
}

impl Model for Pages {
    ghost use Rattle.std.specs.Prelude.{List, ℕ};
    ghost use Rattle.gq_edges.specs.steps.Order.{ArePlaced};

    ghost Value = { List (List ℕ) };

    ghost view = { λ p. p.numbers.targets };

    ghost invariant = { λ p. ArePlaced p.numbers.targets p.places.items };
}

impl Pages {
    /// The relationships whose sources are `from`, numbered in that order.
    pub fn build(alloc: Global, vertices: u32, from: &[u32]) -> Result<Pages, Memory>
        requires from_below { All (λ v. v < vertices) from.now }
        requires few { length from.now < 2 ^ 32 }
        ensures numbers { IfOk result (λ pages. pages ≡ numbers_of vertices from.now) }
        ensures size { IfOk result (λ pages. length (concat pages) ≡ length from.now) }
    {
        let all = numbers_below(alloc, from.len() as u32)?;
        let numbers = Lists::build(alloc, vertices, from, all.as_slice())?;
        let places = places_of(alloc, numbers.all())?;
        Ok(Pages { numbers, places })
    }

    /// How many relationships there are.
    pub fn len(&self) -> u32
        ensures { result ≡ length (concat self.now) }
    {
        self.places.len() as u32
    }

    /// The place of the relationship with this number: the only one at which `number_at` answers
    /// it.
    pub fn place_of(&self, number: u32) -> u32
        requires { number < length (concat self.now) }
        ensures within { result < length (concat self.now) }
        ensures place { slice_index (concat self.now) result ≡ number }
        ensures only { (place : ℕ) → place < length (concat self.now)
            → slice_index (concat self.now) place ≡ number → result ≡ place }
    {
        self.places[number as usize]
    }

    /// The number of the relationship at a place.
    pub fn number_at(&self, place: u32) -> u32
        requires { place < length (concat self.now) }
        ensures { result ≡ slice_index (concat self.now) place }
    {
        self.numbers.all()[place as usize]
    }

    /// How many relationships have sources before the page.
    pub fn page_start(&self, page: u32) -> u32
        ensures start { result ≡ page_start_of self.now page }
        ensures few { length (concat self.now) < 2 ^ 32 }
    {
        let first = u64::from(page) * u64::from(PAGE);
        if first < u64::from(self.numbers.len()) {
            self.numbers.start(first as u32)
        } else {
            self.numbers.all().len() as u32
        }
    }

    /// The place that lies `offset` after the start of the source's page.
    pub fn place(&self, source: u32, offset: u32) -> u32
        requires { page_start_of self.now (source / PAGE) + offset < length (concat self.now) }
        ensures { result ≡ page_start_of self.now (source / PAGE) + offset }
    {
        self.page_start(source / PAGE) + offset
    }
}

// The numbers below a count, in order.
fn numbers_below(alloc: Global, count: u32) -> Result<Vec<u32>, Memory>
    ensures { IfOk result (λ numbers. numbers.items ≡ range_with_len 0 count) }
{
    let mut numbers = Vec::with_capacity(alloc, count as usize)?;
    for number in 0..count {
        numbers.push(number)?;
    }
    Ok(numbers)
}

// The place of each number, in an order of numbers.
fn places_of(alloc: Global, order: &[u32]) -> Result<Vec<u32>, Memory>
    requires few { length order.now < 2 ^ 32 }
    requires inside { All (λ number. number < length order.now) order.now }
    ensures len { IfOk result (λ places. vec_len places ≡ length order.now) }
    ensures placed { IfOk result (λ places.
        All (λ number. IsPlaceOf order.now number (slice_index places.items number)) order.now) }
{
    let mut places = vec![in alloc; 0u32; order.len()]?;
    for (place, number) in order.iter().enumerate() {
        places[*number as usize] = place as u32;
    }
    Ok(places)
}
