//! The tests of paths of a query, each by the keys of its path's matches: which rows they admit.
ghost use Rattle.std.specs.Prelude.{◌≡◌, ◌↔◌, [], true};
ghost use Rattle.std.specs.List.{list_all};
ghost use Rattle.gq_drain.specs.Testing.{admitted_by, passes_test};

use gq_base::List;
use gq_exists::KeySet;
use gq_expr::Assigned;
use gq_group::ChunkRow;
use gq_plan::ExistsPart;
use gq_rows::Admits;

/// A test of a path, and the keys of the path's matches.
#[derive(Drop)]
pub struct Test<'q> {
    pub part: &'q ExistsPart,
    pub keys: KeySet,
}

/// The tests of a query, in text order.
#[derive(Drop)]
pub struct Tests<'q> {
    pub all: List<Test<'q>>,
}

impl<'q> Test<'q> {
    // Whether a row passes the test.
    fn admits<R: Assigned>(&self, row: &R) -> bool
        ensures { result ≡ passes_test self.now (R.assignment row.now) }
    {
        let found = self.keys.holds_at(self.part.nodes.as_slice(), row);
        if self.part.wanted { found } else { !found }
    }
}

// Whether a row passes some tests.
fn all_admit<R: Assigned>(tests: &[Test<'_>], row: &R) -> bool
    ensures { result ≡ list_all (λ t. passes_test t (R.assignment row.now)) tests.now }
{
    let Some((test, tests)) = tests.split_first() else {
        return true;
    };
    test.admits(row) && all_admit(tests, row)
}

impl<'q> Tests<'q> {
    /// Whether there are none.
    pub(crate) fn is_empty(&self) -> bool
        ensures { (result ≡ true) ↔ (self.now.all ≡ []) }
    {
        self.all.is_empty()
    }

    /// Whether a row passes all of them.
    pub(crate) fn pass<R: Assigned>(&self, row: &R) -> bool
        ensures { result ≡ admitted_by self.now.all (R.assignment row.now) }
    {
        all_admit(self.all.as_slice(), row)
    }
}

impl Admits for Tests<'_> {
    ghost admitted = { λ tests. admitted_by tests.all };

    fn admits(&self, row: &ChunkRow<'_, '_, '_, '_, '_>) -> bool {
        all_admit(self.all.as_slice(), row)
    }
}
