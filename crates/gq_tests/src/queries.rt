//! Queries that are bound over the tables of a graph.
ghost use Rattle.std.specs.Prelude.{All};
ghost use Rattle.gq_plan.specs.Soundness.{IsSound};
ghost use Rattle.gq_syntax.specs.Spans.{SpelledQuery};

use crate::made::Test;
use gq_base::Catalog;
use gq_binder::bind;
use gq_plan::Bound;
use gq_syntax::{Params, Query, Statement, parse};

// The query that a text spells.
pub fn queried(rt: &impl Test, text: &str) -> Query
    ensures { SpelledQuery text.now result }
{
    let text = text.as_bytes();
    assert!(rt; text.len() <= 65536);
    match parse(rt.alloc(), text, &Params::new(rt.alloc())) {
        Ok(Statement::Query(query)) => query,
        _ => panic!(rt; "no query"),
    }
}

// The same, bound over a catalogue.
pub fn bound(rt: &impl Test, text: &str, catalog: &Catalog) -> Bound
    ensures { All (IsSound catalog.now) result.alternatives }
{
    let query = queried(rt, text);
    bound_of(rt, text, &query, catalog)
}

fn bound_of(rt: &impl Test, text: &str, query: &Query, catalog: &Catalog) -> Bound
    requires { SpelledQuery text.now query.now }
    ensures { All (IsSound catalog.now) result.alternatives }
{
    match bind(rt.alloc(), query, text.as_bytes(), catalog) {
        Ok(bound) => bound,
        Err(_) => panic!(rt; "not bound"),
    }
}
