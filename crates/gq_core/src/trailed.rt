//! The patterns of a query with trails, read from left to right: a path is cut at its trails.
ghost use Rattle.std.specs.Prelude.{◌≡◌, ◌++◌, [], length, IfOk};
ghost use Rattle.gq_law_cuts.specs.Cuts.{alone_in, in_pattern, piece_behind, trailed_of};
ghost use Rattle.gq_law_cuts.specs.Cuts.{with_clauses, with_trail};
ghost use Rattle.gq_law_cuts.specs.Cuts.{with_hop, with_hops, with_path, with_paths};
ghost use Rattle.gq_law_reaches.specs.Reaches.{without_trails};
ghost use Rattle.gq_scopes.specs.Patterns as patterns;
ghost use Rattle.gq_scopes.specs.Patterns.{no_pattern};

use gq_ast::{Clause, Hop, Path, Range, RelPart};
use gq_base::{List, Memory};
use gq_plan::PathPart;
use gq_scopes::{Pattern, next, number};
use std::alloc::Global;
use std::marker::Model;

/// A trail, the number of its MATCH clause, and the node variables at its left and at its right.
#[derive(Drop)]
pub struct TrailPattern<'t> {
    pub clause: u32,
    pub left: u32,
    pub right: u32,
    pub part: &'t RelPart,
    pub range: Range,
}

impl<'t> Model for TrailPattern<'t> {
    ghost use Rattle.gq_law_cuts.specs.Cuts.{trail_of};
    ghost use Rattle.gq_law_reaches.specs.Reaches.{TrailPattern};

    ghost Value = { TrailPattern };

    ghost view = { λ t. trail_of t.clause t.left t.right t.part.now t.range };
}

/// The patterns of a query, whose paths are pieces that no trail is in; the trails in text order; and
/// the variables of whole paths of one node.
#[derive(Drop)]
pub struct Trailed<'t> {
    pub pattern: Pattern<'t>,
    pub trails: List<TrailPattern<'t>>,
    pub alone: List<u32>,
}

impl<'t> Model for Trailed<'t> {
    ghost use Rattle.gq_law_reaches.specs.Reaches.{Trailed};

    ghost Value = { Trailed };

    ghost view = { λ q. record { pattern = q.pattern; trails = q.trails; alone = q.alone } };
}

impl<'t> Trailed<'t> {
    fn new(alloc: Global) -> Trailed<'t>
        ensures { result ≡ without_trails no_pattern }
    {
        Trailed {
            pattern: Pattern::new(alloc),
            trails: List::new(alloc),
            alone: List::new(alloc),
        }
    }

    // A relationship between two node variables, and the node at its right.
    fn push_rel(
        &mut self,
        alloc: Global,
        clause: u32,
        left: u32,
        right: u32,
        hop: &'t Hop,
    ) -> Result<(), Memory>
        ensures { IfOk result (λ _. self.new ≡ record self.old {
          pattern = patterns.with_node hop.now.node
              (patterns.with_rel clause left right hop.now.rel self.old.pattern);
        }) }
    {
        self.pattern.push_rel(alloc, clause, left, right, &hop.rel)?;
        self.pattern.push_node(alloc, &hop.node)
    }

    // A trail behind a piece, and the node at its right.
    fn push_trail(
        &mut self,
        alloc: Global,
        piece: PathPart,
        trail: TrailPattern<'t>,
        hop: &'t Hop,
    ) -> Result<(), Memory>
        ensures { IfOk result (λ _. self.new ≡ in_pattern (patterns.with_node hop.now.node)
            (with_trail trail.entry (in_pattern (patterns.with_part piece) self.old))) }
    {
        self.pattern.push_part(piece)?;
        self.pattern.push_unnamed()?;
        self.trails.push(trail)?;
        self.pattern.push_node(alloc, &hop.node)
    }

    // A relationship or a trail of a path, and the node at its right. The answer is the piece
    // behind it.
    fn push_hop(
        &mut self,
        alloc: Global,
        clause: u32,
        mut piece: PathPart,
        left: u32,
        right: u32,
        hop: &'t Hop,
    ) -> Result<PathPart, Memory>
        ensures pushed { IfOk result (λ _. self.new
            ≡ with_hop hop.now.rel.trail clause piece left right hop.now self.old) }
        ensures behind { IfOk result (λ behind. behind
            ≡ piece_behind hop.now.rel.trail piece (length self.old.pattern.rels) right) }
    {
        let part = &hop.rel;
        match part.trail {
            None => {
                let number = number(self.pattern.rels().len())?;
                self.push_rel(alloc, clause, left, right, hop)?;
                piece.rels.push(number)?;
                Ok(piece)
            }
            Some(range) => {
                let trail = TrailPattern {
                    clause,
                    left,
                    right,
                    part,
                    range,
                };
                self.push_trail(alloc, piece, trail, hop)?;
                Ok(PathPart {
                    first: right,
                    rels: List::new(alloc),
                })
            }
        }
    }

    // The relationships, trails and nodes of a path that follow its first node.
    fn push_hops(
        &mut self,
        alloc: Global,
        clause: u32,
        first: u32,
        hops: &'t [Hop],
    ) -> Result<(), Memory>
        ensures { IfOk result (λ _. self.new
            ≡ with_hops clause (record { first = first; rels = [] }) first hops.now self.old) }
    {
        let mut piece = PathPart {
            first,
            rels: List::new(alloc),
        };
        let mut left = first;
        for hop in hops {
            let right = self.pattern.variable_of(&hop.node)?;
            piece = self.push_hop(alloc, clause, piece, left, right, hop)?;
            left = right;
        }
        self.pattern.push_part(piece)
    }

    // Notes the first variable of a whole path of one node.
    fn note_alone(&mut self, hops: &[Hop], variable: u32) -> Result<(), Memory>
        ensures { IfOk result (λ _. self.new
            ≡ record self.old { alone = self.old.alone ++ alone_in hops.now variable }) }
    {
        match hops {
            [] => self.alone.push(variable),
            [_, ..] => Ok(()),
        }
    }

    fn push_path(&mut self, alloc: Global, clause: u32, path: &'t Path) -> Result<(), Memory>
        ensures { IfOk result (λ _. self.new ≡ with_path clause path.now self.old) }
    {
        let first = self.pattern.variable_of(&path.first)?;
        self.pattern.push_node(alloc, &path.first)?;
        self.note_alone(path.hops.as_slice(), first)?;
        self.push_hops(alloc, clause, first, path.hops.as_slice())
    }

    fn push_paths(&mut self, alloc: Global, clause: u32, paths: &'t [Path]) -> Result<(), Memory>
        ensures { IfOk result (λ _. self.new ≡ with_paths clause paths.now self.old) }
    {
        for path in paths {
            self.push_path(alloc, clause, path)?;
        }
        Ok(())
    }

    fn push_clauses(&mut self, alloc: Global, clauses: &'t [Clause]) -> Result<(), Memory>
        ensures { IfOk result (λ _. self.new ≡ with_clauses 0 clauses.now self.old) }
    {
        let mut number = 0;
        for clause in clauses {
            self.push_paths(alloc, number, clause.paths.as_slice())?;
            number = next(number)?;
        }
        Ok(())
    }

    /// The patterns of MATCH clauses, their variables in the order of first appearance.
    #[tactic(auto, unfolding(gq_law_cuts::specs::Cuts::trailed_of))]
    pub(crate) fn of(alloc: Global, clauses: &'t [Clause]) -> Result<Trailed<'t>, Memory>
        ensures { IfOk result (λ q. q ≡ trailed_of clauses.now) }
    {
        let mut trailed = Trailed::new(alloc);
        trailed.push_clauses(alloc, clauses)?;
        Ok(trailed)
    }
}
