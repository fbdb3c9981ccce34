//! Bound queries: what a query asks once its names are resolved, the typed alternatives that answer
//! it, and the plans that find the assignments of an alternative. It says what these mean, and
//! tells whether a plan fits an alternative and covers it, which groups it has and how many columns
//! its pipeline fills. The crate stands on the expressions of `gq_expr`, and on the vectors of
//! `arrayvec`.
#![tactic(auto)]

mod assignment;
mod bound;
mod bound_expr;
mod covering;
mod demand;
mod few_reads;
mod filling;
mod fitting;
mod follow;
mod halves;
mod known;
mod numbers;
mod places;
mod plan;
mod read;
mod reading;
mod reads;
mod shaping;
mod typed;
mod variable;

pub use assignment::{Assignment, TypedRow};
pub use bound::{Bound, ExistsPart, NamedExpr, OptionalPart, SortExpr, TrailPart};
pub use bound_expr::BoundExpr;
pub use covering::covers;
pub use demand::Demand;
pub use filling::columns;
pub use fitting::{bound_after, fits};
pub use follow::{Follow, following};
pub use gq_base::Direction as Way;
pub use halves::{Half, StepHalf, step_halves};
pub use known::{Known, VariableSet};
pub use numbers::has_number;
pub use places::{Places, VariableGroups, place_variables};
pub use plan::{Plan, PlanList, Step};
pub use read::Read;
pub use reads::PropertyReads;
pub use shaping::{Form, GroupShape, flat_groups, form_of, has_group, last_of, shape, tested};
pub use typed::{PathPart, RelPair, Typed, TypedRel};
pub use variable::Variable;
