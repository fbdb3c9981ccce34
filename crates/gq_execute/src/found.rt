//! What is answered to a query that has rows.

use gq_base::List;
use gq_pipe::Spent;
use gq_rows::Listing;

/// The rows of a query, and what the pipelines spent that made them.
#[derive(Drop)]
pub struct Answer<'g> {
    pub listing: Listing<'g>,
    /// What each pipeline spent: first those of the tests of paths, test by test, then those of the
    /// optional clauses, and then those of the alternatives whose turn came. In an alternative, of
    /// the query or of an optional clause, those of the side plans come in the order of the joins,
    /// and then its own.
    pub spent: List<Spent>,
}
