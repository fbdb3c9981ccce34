//! Which groups the plan of a query has, and whether plans fit and cover its alternative, worked out
//! by hand.
ghost use Rattle.std.specs.Prelude.{All};
ghost use Rattle.gq_plan.specs.Covers.{Fits};
ghost use Rattle.gq_plan.specs.Plans.{plan_of};
ghost use Rattle.gq_plan.specs.Soundness.{IsSound};

use crate::graph::{KNOWS, LIVES, people};
use crate::made::{Test, one};
use crate::queries::bound;
use gq_base::{Catalog, Mult};
use gq_order::given;
use gq_plan::{Bound, Form, GroupShape, Plan, Step, Typed, covers, fits, shape};

// In text order the second path is joined, on `b`.
pub const JOINED: &str = "MATCH (a)-[:KNOWS]->(b), (c)-[:KNOWS]->(b) RETURN a.id, c.id";

// The list of acquaintances is followed from one person at a time, and those who know somebody are looked up by one person
// at a time; of these nothing more is asked.
const GROUPS: [GroupShape; 3] = [
    GroupShape {
        form: Form::Span,
        flat: true,
    },
    GroupShape {
        form: Form::List,
        flat: true,
    },
    GroupShape {
        form: Form::Matches,
        flat: false,
    },
];

fn has_groups(rt: &impl Test, plan: &Plan, typed: &Typed, catalog: &Catalog) -> bool
    requires sound { IsSound catalog.now typed.now }
    requires fits { Fits catalog.now typed.now (plan_of plan.now) }
{
    let groups = shape(rt.alloc(), plan, typed).expect(rt, "memory");
    groups.as_slice() == GROUPS.as_slice()
}

// Whether the plan in text order is right.
fn is_given(rt: &impl Test, typed: &Typed, catalog: &Catalog) -> bool
    requires { IsSound catalog.now typed.now }
{
    assert!(rt; !typed.nodes.is_empty());
    let plan = given(rt.alloc(), typed, catalog).expect(rt, "memory");
    covers(&plan, typed, catalog)
        && fits(&plan, typed, catalog)
        && has_groups(rt, &plan, typed, catalog)
}

// Whether a plan of one step fits, which covers nothing.
fn fits_alone(rt: &impl Test, step: Step, typed: &Typed, catalog: &Catalog) -> bool
    requires { IsSound catalog.now typed.now }
{
    let plan = Plan {
        steps: one(rt, step),
    };
    assert!(rt; !covers(&plan, typed, catalog));
    fits(&plan, typed, catalog)
}

fn are_planned(rt: &impl Test, bound: &Bound, catalog: &Catalog) -> bool
    requires { All (IsSound catalog.now) bound.now.alternatives }
{
    for typed in bound.alternatives.as_slice() {
        assert!(rt; is_given(rt, typed, catalog));
        assert!(rt; fits_alone(rt, Step::Scan { node: 0 }, typed, catalog));
        assert!(rt; !fits_alone(rt, Step::Scan { node: 3 }, typed, catalog));
        assert!(rt; !fits_alone(rt, Step::NoLoop { rel: 0 }, typed, catalog));
    }
    bound.alternatives.len() == 1
}

#[test]
fn a_plan_that_joins_has_its_groups_and_covers(rt: HostRuntime) {
    let graph = people(&rt, KNOWS, Mult::ManyOne, LIVES);
    let bound = bound(&rt, JOINED, graph.catalog());
    assert!(rt; are_planned(&rt, &bound, graph.catalog()));
}
