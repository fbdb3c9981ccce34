//! What is found of the variables of columns at one selected position of each group of a chunk.
ghost use Rattle.std.specs.Prelude.{◌≡◌, ◌<◌, length};
ghost use Rattle.gq_base.specs.Plain.{Graph as Plain};
ghost use Rattle.gq_expr.specs.Reading as reading;
ghost use Rattle.gq_group.specs.Chunks.{node_in};
ghost use Rattle.gq_group.specs.Edges as edges;
ghost use Rattle.gq_group.specs.declared.home.NodeHome.TheVariants as home;
ghost use Rattle.gq_listed.specs.Finding.{HasNode, IsFound};
ghost use Rattle.gq_listed.specs.Leads.{HasRelTable, HasTable, IsLedAt, IsSpot};
ghost use Rattle.gq_listed.specs.Leads.{assignment_of, here_at};

use crate::finder::{Finder, Found, Lead, Way, find, found_number, found_place};
use gq_base::Direction;
use gq_group::{Chunk, ChunkRow, EdgeAt};
use gq_plan::Typed;
use gq_store::Graph;

/// One selected position of each group of a chunk, which is of an alternative and of a graph.
#[derive(Clone, Copy)]
pub struct Spot<'r, 'c, 'g> {
    pub(crate) graph: &'r Graph,
    pub(crate) typed: &'r Typed,
    pub(crate) chunk: &'r Chunk<'c, 'g>,
    pub(crate) positions: &'r [u32],
}

impl<'r, 'c, 'g> Spot<'r, 'c, 'g> {
    /// The assignment.
    #[inline(always)]
    pub(crate) fn row(&self) -> ChunkRow<'r, 'r, 'c, 'g, 'r>
        requires { IsSpot self.now }
        ensures { result ≡ assignment_of self.now }
    {
        ChunkRow::new(self.graph, self.typed, self.chunk, self.positions)
    }

    /// The item of a group.
    #[inline(always)]
    pub(crate) fn item(&self, group: u32) -> u32
        requires spot { IsSpot self.now }
        requires group { group < length self.now.chunk.now.groups.now }
        ensures { result
            ≡ node_in self.now.chunk.now self.now.positions.now (home.Item group) }
    {
        let here = self.chunk.group(group);
        here.item(self.positions[group as usize])
    }

    /// What is found of the variable of a column.
    #[inline(always)]
    pub(crate) fn find(&self, finder: &Finder) -> Found
        requires spot { IsSpot self.now }
        requires led { IsLedAt self.now finder.now }
        ensures { IsFound self.now.graph.now finder.now.way (here_at self.now) result }
    {
        match finder.lead {
            // That nothing is found of an expression with a value of its own needs no call.
            Lead::Unknown => match finder.way {
                Way::Value => Found::Other,
                Way::Node(_) | Way::Rel(_) => self.find_anew(finder.way),
            },
            Lead::Held(number) => Found::Number(number),
            Lead::Item { group } => found_within(finder.way, self.item(group)),
            Lead::Home => self.find_home(finder.way),
            Lead::Edge => self.find_edge(finder.way),
        }
    }

    // The same where the variable has a node of the way's table.
    fn find_home(&self, way: Way) -> Found
        requires spot { IsSpot self.now }
        requires table { HasTable self.now.typed.now way }
        ensures { IsFound self.now.graph.now way (here_at self.now) result }
    {
        match way {
            Way::Node(range) => {
                let row = self.chunk.node_at(range.variable, self.positions);
                found_within(way, row)
            }
            Way::Value | Way::Rel(_) => Found::Other,
        }
    }

    // The same where the variable has a relationship of the way's table.
    fn find_edge(&self, way: Way) -> Found
        requires spot { IsSpot self.now }
        requires table { HasRelTable self.now.typed.now way }
        ensures { IsFound self.now.graph.now way (here_at self.now) result }
    {
        let Way::Rel(range) = way else {
            return Found::Other;
        };
        let graph = self.graph;
        match self.chunk.edge_at(range.variable, self.positions) {
            EdgeAt::Listed {
                forward,
                row,
                position,
            } => {
                let place = graph.edge_place(range.table, direction(forward), row, position);
                found_place(range, place)
            }
            EdgeAt::Single { forward, row } => {
                let place = graph.edge_place(range.table, direction(forward), row, 0);
                found_place(range, place)
            }
            EdgeAt::Number { number } => found_number(range, graph, number),
        }
    }

    // The same where no lead is known.
    #[inline(never)]
    fn find_anew(&self, way: Way) -> Found
        requires { IsSpot self.now }
        ensures { IsFound self.now.graph.now way (here_at self.now) result }
    {
        find(way, self.graph, &self.row())
    }
}

// A row that a node variable has, where it is below the count of the variable's table.
#[inline(always)]
fn found_within(way: Way, row: u32) -> Found
    ensures { (g : Plain) (here : reading.Assignment) → HasNode way here row
        → IsFound g way here result }
{
    match way {
        Way::Node(range) => if row < range.count {
            Found::Number(row)
        } else {
            Found::Other
        },
        Way::Value | Way::Rel(_) => Found::Other,
    }
}

// The direction in which a vertex's relationships are followed.
fn direction(forward: bool) -> Direction
    ensures { result ≡ edges.way forward }
{
    if forward {
        Direction::Forward
    } else {
        Direction::Backward
    }
}
