//! The tests of paths of a query, each by the keys of its path's matches.
ghost use Rattle.std.specs.Prelude.{◌≡◌, ◌≤◌, ◌<◌, ◌++◌, flat_map, length, All, IfOk, IfErr, OnOk};
ghost use Rattle.std.specs.List.{AllZip};
ghost use Rattle.gq_execute.specs.Planned.{sizes};
ghost use Rattle.gq_execute.specs.Spending.{IsSpentOn};
ghost use Rattle.gq_execute.specs.steps.Testing.{AreTestsOf, IsTestOf, RefusesTest, RefusesTests};
ghost use Rattle.gq_execute.specs.steps.Testing.{spent_on};
ghost use Rattle.gq_plan.specs.Soundness.{IsSound};
ghost use Rattle.gq_pool.specs.Pool.{spare_of};

use crate::planning::plans_in;
use crate::refusal::AnswerRefusal;
use crate::settings::Settings;
use gq_base::{List, Memory};
use gq_drain::{Test, Tests};
use gq_exists::KeySet;
use gq_order::Stats;
use gq_pipe::Spent;
use gq_plan::ExistsPart;
use gq_pool::VectorPool;
use gq_store::Graph;
use std::alloc::Global;

/// Appends what some pipelines spent.
pub(crate) fn append(spent: &mut List<Spent>, more: List<Spent>) -> Result<(), Memory>
    ensures { OnOk result (spent.new ≡ spent.old ++ more) }
{
    for one in more.into_vec() {
        spent.push(one)?;
    }
    Ok(())
}

/// What was spent to find the keys of tests, test by test.
pub(crate) fn spent_of_tests(alloc: Global, tests: Tests<'_>) -> Result<List<Spent>, Memory>
    ensures { IfOk result (λ spent. spent ≡ flat_map (λ s. s) (spent_on tests.entry.all)) }
{
    let Tests { all } = tests;
    let mut spent = List::new(alloc);
    for test in all.into_vec() {
        let Test { part: _, keys } = test;
        append(&mut spent, keys.into_spent())?;
    }
    Ok(spent)
}

// Makes a test of a part: plans of the path's alternatives, and the keys of what they make.
fn test_of<'q>(
    alloc: Global,
    graph: &Graph,
    stats: &Stats,
    part: &'q ExistsPart,
    pool: &mut VectorPool,
    settings: &Settings,
) -> Result<Test<'q>, AnswerRefusal>
    requires sound { All (IsSound graph.now.catalog) part.now.alternatives }
    requires begins { All (λ y. 0 < length y.nodes) part.now.alternatives }
    requires stats { stats.now ≡ sizes graph.now }
    requires slots { 112 ≤ spare_of pool.old }
    ensures test { IfOk result (IsTestOf graph.now settings.now.rows part.now) }
    ensures spent { IfOk result (λ test.
        IsSpentOn graph.now settings.now.order part.now test.keys.spent) }
    ensures refused { IfErr result (RefusesTest graph.now settings.now.rows part.now) }
    ensures slots { pool.new.out ≡ pool.old.out }
{
    let alternatives = part.alternatives.as_slice();
    let planned = plans_in(alloc, settings.order, graph, stats, alternatives)?;
    let plans = planned.plans.as_slice();
    match KeySet::make(alloc, graph, part, plans, pool, settings.rows) {
        Ok(keys) => Ok(Test { part, keys }),
        Err(refusal) => Err(AnswerRefusal::from(refusal)),
    }
}

/// Makes the tests of parts, one after another.
pub(crate) fn tests_of<'q>(
    alloc: Global,
    graph: &Graph,
    stats: &Stats,
    parts: &'q [ExistsPart],
    pool: &mut VectorPool,
    settings: &Settings,
) -> Result<Tests<'q>, AnswerRefusal>
    requires sound { All (λ p. All (IsSound graph.now.catalog) p.alternatives) parts.now }
    requires begins { All (λ p. All (λ y. 0 < length y.nodes) p.alternatives) parts.now }
    requires stats { stats.now ≡ sizes graph.now }
    requires slots { 112 ≤ spare_of pool.old }
    ensures tests { IfOk result (λ tests.
        AreTestsOf graph.now settings.now.rows parts.now tests.all) }
    ensures spent { IfOk result (λ tests.
        AllZip (IsSpentOn graph.now settings.now.order) parts.now (spent_on tests.all)) }
    ensures refused { IfErr result (RefusesTests graph.now settings.now.rows parts.now) }
    ensures slots { pool.new.out ≡ pool.old.out }
{
    let mut all = List::new(alloc);
    'parts: for part in parts {
        match test_of(alloc, graph, stats, part, pool, settings) {
            Ok(test) => all.push(test)?,
            Err(refusal) => return Err(refusal),
        }
    }
    Ok(Tests { all })
}
