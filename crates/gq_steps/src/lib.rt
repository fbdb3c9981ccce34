//! The steps of a plan over a stored graph, one by one: how many places the list of a step has,
//! what the step makes at one, and the piece of the list that begins there. The crate stands on
//! the plans of `gq_plan`, the graph of `gq_store`, the builds of `gq_join` and the tests of
//! `gq_filter`.
#![tactic(auto)]

mod action;
mod cut;
mod follow;
mod group_steps;
mod pieces;
mod plan_run;
mod reaching;
mod sizes;

pub use action::{Action, join_keys};
pub use cut::Cut;
pub use group_steps::GroupSteps;
pub use plan_run::{PlanRun, RunStep, Tried};
