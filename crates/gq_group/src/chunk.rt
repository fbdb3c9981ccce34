//! Chunks: groups, and where the variables live in them.
ghost use Rattle.std.specs.Prelude.{◌≡◌, ◌+◌, ◌<◌, Some, length, slice_get, slice_index};
ghost use Rattle.gq_group.specs.Chunks.{IsChunk, IsChunkOf, IsColumnIn, IsKeptIn, cell_at, edge_at};
ghost use Rattle.gq_group.specs.Chunks.{first_in, group_of, items_in, kept_in, node_at, rel_at};
ghost use Rattle.gq_group.specs.Chunks.{row_in};
ghost use Rattle.gq_group.specs.Groups.{AreSelected};

use crate::edge::{EdgeAt, edge_number};
use crate::group::Group;
use crate::home::{Homes, NodeHome, RelHome};
use gq_plan::Typed;
use gq_pool::{Slot, VectorPool};
use gq_store::Graph;

/// The product of the selected positions of some groups. What the variables have at one selected
/// position of each group is read from the groups' items, from columns of a pool, and from the
/// relationships that builds keep.
#[derive(Clone, Copy)]
pub struct Chunk<'c, 'g> {
    pub(crate) groups: &'c [Group<'g>],
    // Where the variables live.
    homes: &'c Homes,
    // The slots of the columns, by the columns' numbers.
    slots: &'c [Slot],
    // The pool that these slots are out of.
    pool: &'c VectorPool,
}

impl<'c, 'g> Chunk<'c, 'g> {
    /// A chunk of groups that are some, in which each variable has a home that can be read.
    pub fn new(
        groups: &'c [Group<'g>],
        homes: &'c Homes,
        slots: &'c [Slot],
        pool: &'c VectorPool,
    ) -> Chunk<'c, 'g>
        requires { IsChunk (record { groups = groups; homes = homes; slots = slots; pool = pool }) }
        ensures groups { result.groups.now ≡ groups.now }
        ensures homes { result.homes.now ≡ homes.now }
        ensures slots { result.slots.now ≡ slots.now }
        ensures pool { result.pool.now ≡ pool.now }
    {
        Chunk {
            groups,
            homes,
            slots,
            pool,
        }
    }

    /// Where the variables live.
    pub fn homes(&self) -> &'c Homes
        ensures { result.now ≡ self.now.homes.now }
    {
        self.homes
    }

    /// The groups.
    pub fn groups(&self) -> &'c [Group<'g>]
        ensures { result.now ≡ self.now.groups.now }
    {
        self.groups
    }

    /// How many groups there are.
    pub fn group_count(&self) -> u32
        requires { IsChunk self.now }
        ensures { result ≡ length self.now.groups.now }
    {
        self.groups.len() as u32
    }

    /// A group, by its number.
    pub fn group(&self, index: u32) -> &'c Group<'g>
        requires { index < length self.now.groups.now }
        ensures { slice_get self.now.groups.now index ≡ Some result.now }
    {
        &self.groups[index as usize]
    }

    /// The row of a node variable's node at one selected position of each group.
    pub fn node_at(&self, variable: u32, positions: &[u32]) -> u32
        requires chunk { IsChunk self.now }
        requires selected { AreSelected self.now.groups.now positions.now }
        ensures { result ≡ node_at self.now positions.now variable }
    {
        match self.homes.nodes.get(variable as usize) {
            None => 0,
            Some(NodeHome::Nowhere) => 0,
            Some(NodeHome::Item { group }) => self.item(*group, positions),
            Some(NodeHome::Column { group, column }) => self.cell(*group, *column, positions),
        }
    }

    /// The relationship of a relationship variable at one selected position of each group.
    pub fn edge_at(&self, variable: u32, positions: &[u32]) -> EdgeAt
        requires chunk { IsChunk self.now }
        requires selected { AreSelected self.now.groups.now positions.now }
        ensures { result ≡ edge_at self.now positions.now variable }
    {
        match self.homes.rels.get(variable as usize) {
            None => EdgeAt::Number { number: 0 },
            Some(RelHome::Nowhere) => EdgeAt::Number { number: 0 },
            Some(
                RelHome::Listed {
                    group,
                    from,
                    forward,
                },
            ) => EdgeAt::Listed {
                forward: *forward,
                row: self.node_at(*from, positions),
                position: self.place(*group, positions),
            },
            Some(RelHome::Single { from, forward }) => EdgeAt::Single {
                forward: *forward,
                row: self.node_at(*from, positions),
            },
            Some(RelHome::Kept { group, place }) => EdgeAt::Number {
                number: self.kept(*group, *place, positions),
            },
        }
    }

    /// The load number of a relationship variable's relationship at one selected position of each
    /// group.
    pub fn rel_at(&self, graph: &Graph, typed: &Typed, variable: u32, positions: &[u32]) -> u32
        requires chunk { IsChunkOf graph.now typed.now self.now }
        requires selected { AreSelected self.now.groups.now positions.now }
        requires variable { variable < length typed.now.rels }
        ensures { result ≡ rel_at graph.now typed.now self.now positions.now variable }
    {
        match typed.rels.get(variable as usize) {
            None => unreachable!(),
            Some(rel) => edge_number(graph, rel.table, self.edge_at(variable, positions)),
        }
    }

    // The item of a group.
    fn item(&self, group: u32, positions: &[u32]) -> u32
        requires chunk { IsChunk self.now }
        requires selected { AreSelected self.now.groups.now positions.now }
        requires group { group < length self.now.groups.now }
        ensures { result
            ≡ slice_index (items_in (group_of self.now group)) (slice_index positions.now group) }
    {
        let here = self.group(group);
        here.piece.item(positions[group as usize])
    }

    // The position of a group in its whole list.
    fn place(&self, group: u32, positions: &[u32]) -> u32
        requires chunk { IsChunk self.now }
        requires selected { AreSelected self.now.groups.now positions.now }
        requires group { group < length self.now.groups.now }
        ensures { result
            ≡ first_in (group_of self.now group) + slice_index positions.now group }
    {
        let here = self.group(group);
        here.piece.first() + positions[group as usize]
    }

    // The row that a column has.
    fn cell(&self, group: u32, column: u32, positions: &[u32]) -> u32
        requires chunk { IsChunk self.now }
        requires selected { AreSelected self.now.groups.now positions.now }
        requires column { IsColumnIn self.now (group_of self.now group) column }
        ensures { result ≡ row_in (cell_at self.now column (slice_index positions.now group)) }
    {
        let slot = &self.slots[column as usize];
        let cells = self.pool.cells(slot);
        cells[positions[group as usize] as usize] as u32
    }

    // The load number of a relationship that the build of a group keeps.
    fn kept(&self, group: u32, place: u32, positions: &[u32]) -> u32
        requires chunk { IsChunk self.now }
        requires selected { AreSelected self.now.groups.now positions.now }
        requires group { group < length self.now.groups.now }
        requires kept { IsKeptIn (group_of self.now group) place }
        ensures { result
            ≡ kept_in (group_of self.now group) place (slice_index positions.now group) }
    {
        let here = self.group(group);
        let row = here.piece.item(positions[group as usize]);
        here.kept.number(row, place)
    }
}
