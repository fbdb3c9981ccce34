//! Tests of the nodes to which lists lead remember which rows they pass, and tests that ask for a part
//! of a text remember which texts have it.
ghost use Rattle.std.specs.Prelude.{◌≡◌, ◌≤◌, IfOk};
ghost use Rattle.gq_filter.specs.RowTests.{conditions_of};
ghost use Rattle.gq_plan.specs.Soundness.{IsSound};

use gq_base::Memory;
use gq_filter::{RowTest, row_tests};
use gq_plan::Typed;
use gq_steps::{Action, RunStep};
use gq_store::Graph;
use std::alloc::Global;

// The tests of a pipeline remember rows of so many pieces together, at most.
const ROOM: u32 = 8192;

/// The tests of an alternative, in their order. Those of nodes to which lists lead remember which
/// rows they pass, and those that ask for a part of a text which texts have it, where there is memory
/// for it, which is taken here.
pub(crate) fn remembering_tests<'g>(
    alloc: Global,
    graph: &'g Graph,
    typed: &'g Typed,
    steps: &[RunStep<'_>],
) -> Result<Vec<RowTest<'g>>, Memory>
    requires { IsSound graph.now.catalog typed.now }
    ensures { IfOk result (λ tests. tests.items ≡ conditions_of graph.now typed.now) }
{
    let mut tests = row_tests(alloc, graph, typed)?;
    remember(alloc, steps, &mut tests);
    Ok(tests)
}

// Has the tests remember what they can.
fn remember(alloc: Global, steps: &[RunStep<'_>], tests: &mut Vec<RowTest<'_>>)
    ensures { tests.new.items ≡ tests.old.items }
{
    let mut room = ROOM;
    let mut near = None;
    for part in steps {
        match part.action {
            Action::List(follow) => near = Some(follow.to),
            Action::Test(test) => room -= remember_test(alloc, test, near, room, tests),
            Action::Differ(_) | Action::NoLoop(_) => {}
            _ => near = None,
        }
    }
}

// Has a test remember which texts have the part that it asks for, and which rows of a node variable it
// passes, if one is told. It answers for how many pieces.
fn remember_test(
    alloc: Global,
    test: u32,
    near: Option<u32>,
    room: u32,
    tests: &mut Vec<RowTest<'_>>,
) -> u32
    ensures within { result ≤ room }
    ensures same { tests.new.items ≡ tests.old.items }
{
    match tests.get_mut(test as usize) {
        None => 0,
        Some(test) => {
            let texts = test.remember_texts(alloc, room);
            match near {
                None => texts,
                Some(node) => texts + test.remember(alloc, node, room - texts),
            }
        }
    }
}
