//! A sample graph of so many persons, to try the program without any file, and the questions that
//! are asked of it. The graph of a size is that of its definition. The crate stands on `gq_plain`
//! and `gq_store`, which keep its rows.
#![tactic(auto)]

ghost use Rattle.std.specs.Prelude.{◌≡◌, ◌≤◌, IfOk};
ghost use Rattle.gq_sample.specs.Sample.{sample_graph};

mod nodes;
mod questions;
mod rels;
mod tables;

use gq_base::Memory;
use gq_plain::PlainGraph;
use gq_store::Graph;
pub use questions::question;
use std::alloc::Global;

/// The sample graph of `size` persons, from 1 to 1,000,000. It is valid, and its tables name no file.
///
/// It has node tables `Person` and `City` and relationship tables `KNOWS` and `LIVES_IN`. Persons are numbered from 1 and
/// cities, of which there are one and one for each 100 persons, from 0. Person i has the name `p` and i % 1000, and the age
/// i * 7 % 90, or none where 3 divides i. City j has the code `c` and j, and the population j * 1000, or none where 5
/// divides j. For each d from 1 to i % 4 person i knows person d * (i + 1) % size + 1, since 2000 + (i + d) % 25, or it is
/// not told since when, where d is 2. Person i lives in city i % cities, or in none where 10 divides i.
///
/// It takes some steps for each person, and memory for the rows alone, which are moved into the graph.
pub fn sample(alloc: Global, size: u32) -> Result<Graph, Memory>
    requires least { 1 ≤ size }
    requires most { size ≤ 1000000 }
    ensures { IfOk result (λ graph. graph ≡ sample_graph size) }
{
    let mut plain = PlainGraph::new(alloc, tables::tables(alloc)?)?;
    plain.set_node_rows(0, nodes::persons(alloc, size)?);
    plain.set_node_rows(1, nodes::cities(alloc, size)?);
    plain.set_rel_rows(0, rels::knows(alloc, size)?);
    plain.set_rel_rows(1, rels::homes(alloc, size)?);
    Graph::build(alloc, plain)
}
