//! The patterns of a query, read from left to right.
ghost use Rattle.std.specs.Prelude.{◌≡◌, IfOk, length, suc};
ghost use Rattle.gq_scopes.specs.Patterns as patterns;
ghost use Rattle.gq_scopes.specs.Patterns.{pattern_of, with_clauses, with_paths, with_path};
ghost use Rattle.gq_scopes.specs.Patterns.{with_hops, with_rel, with_part, with_node, node_new};
ghost use Rattle.gq_scopes.specs.Patterns.{node_again, with_variable};
ghost use Rattle.gq_scopes.specs.PathPatterns.{path_pattern, with_name, with_names};

use crate::counts::{next, number};
use crate::elements::{NodePattern, RelPattern};
use crate::patterns::Pattern;
use crate::variables::{called, known_as, numbers_from, push_entries, push_naming, unnamed_after};
use gq_ast::{Clause, Entry, Hop, NodePart, Path, RelPart};
use gq_base::{Memory, Text, TryClone};
use gq_plan::{PathPart, Variable};
use std::alloc::Global;

impl<'t> Pattern<'t> {
    /// The variable of a node pattern that comes next.
    pub fn variable_of(&self, part: &NodePart) -> Result<u32, Memory>
        ensures { IfOk result (λ v. v ≡ patterns.variable_of self.now part.now) }
    {
        match known_as(&self.names, &part.name) {
            Some(at) => number(at),
            None => number(self.names.len()),
        }
    }

    /// Appends a node pattern. Its variable is that of its name, if there is one, else a new one.
    pub fn push_node(&mut self, alloc: Global, part: &'t NodePart) -> Result<(), Memory>
        ensures { IfOk result (λ _. self.new ≡ with_node part.now self.old) }
    {
        match known_as(&self.names, &part.name) {
            Some(at) => {
                let variable = number(at)?;
                let _ = self.push_node_of(alloc, variable, part)?;
                Ok(())
            }
            None => self.push_new_node(alloc, part),
        }
    }

    // Appends the name and the map entries of a variable. The answer is what the variable is called.
    fn push_variable(
        &mut self,
        alloc: Global,
        variable: Variable,
        name: &'t Option<Text>,
        map: &'t [Entry],
    ) -> Result<Text, Memory>
        ensures pushed { IfOk result (λ _.
            self.new ≡ with_variable variable name.now map.now self.old) }
        ensures called { IfOk result (λ t. t ≡ patterns.called self.old.unnamed name.now) }
    {
        let called = called(alloc, self.unnamed, name)?;
        push_naming(&mut self.named, name, variable)?;
        push_entries(alloc, &mut self.entries, variable, &called, map)?;
        Ok(called)
    }

    // Appends a node pattern of a variable that stands already. The answer is what the variable is called.
    fn push_node_of(
        &mut self,
        alloc: Global,
        variable: u32,
        part: &'t NodePart,
    ) -> Result<Text, Memory>
        ensures pushed { IfOk result (λ _. self.new ≡ node_again variable part.now self.old) }
        ensures called { IfOk result (λ t. t ≡ patterns.called self.old.unnamed part.now.name) }
    {
        let whole = Variable::Node(variable);
        let called = self.push_variable(alloc, whole, &part.name, part.map.as_slice())?;
        self.nodes.push(NodePattern { variable, part })?;
        Ok(called)
    }

    fn push_new_node(&mut self, alloc: Global, part: &'t NodePart) -> Result<(), Memory>
        ensures { IfOk result (λ _. self.new ≡ node_new part.now self.old) }
    {
        let variable = number(self.names.len())?;
        let called = self.push_node_of(alloc, variable, part)?;
        self.names.push(&part.name)?;
        self.node_names.push(called)?;
        self.unnamed = unnamed_after(self.unnamed, &part.name)?;
        Ok(())
    }

    /// Appends a relationship pattern of a clause between two node variables.
    pub fn push_rel(
        &mut self,
        alloc: Global,
        clause: u32,
        left: u32,
        right: u32,
        part: &'t RelPart,
    ) -> Result<(), Memory>
        ensures { IfOk result (λ _. self.new ≡ with_rel clause left right part.now self.old) }
    {
        let variable = Variable::Rel(number(self.rels.len())?);
        let called = self.push_variable(alloc, variable, &part.name, part.map.as_slice())?;
        self.rel_names.push(called)?;
        self.unnamed = unnamed_after(self.unnamed, &part.name)?;
        self.rels.push(RelPattern {
            clause,
            left,
            right,
            part,
        })
    }

    // The relationships and nodes of a path that follow a node variable.
    fn push_hops(
        &mut self,
        alloc: Global,
        clause: u32,
        first: u32,
        hops: &'t [Hop],
    ) -> Result<(), Memory>
        ensures { IfOk result (λ _. self.new ≡ with_hops clause first hops.now self.old) }
    {
        let mut left = first;
        for hop in hops {
            let right = self.variable_of(&hop.node)?;
            self.push_rel(alloc, clause, left, right, &hop.rel)?;
            self.push_node(alloc, &hop.node)?;
            left = right;
        }
        Ok(())
    }

    /// Counts a pattern without a name that has no variable.
    pub fn push_unnamed(&mut self) -> Result<(), Memory>
        ensures { IfOk result (λ _. self.new
            ≡ record self.old { unnamed = suc self.old.unnamed }) }
    {
        self.unnamed = next(self.unnamed)?;
        Ok(())
    }

    /// Appends a path.
    pub fn push_part(&mut self, part: PathPart) -> Result<(), Memory>
        ensures { IfOk result (λ _. self.new ≡ with_part part self.old) }
    {
        self.paths.push(part)
    }

    fn rels_len(&self) -> usize
        ensures { result ≡ length self.now.rels }
    {
        self.rels.len()
    }

    fn push_path(&mut self, alloc: Global, clause: u32, path: &'t Path) -> Result<(), Memory>
        ensures { IfOk result (λ _. self.new ≡ with_path clause path.now self.old) }
    {
        let rels = numbers_from(alloc, self.rels_len(), path.hops.len())?;
        let first = self.variable_of(&path.first)?;
        self.push_node(alloc, &path.first)?;
        self.push_hops(alloc, clause, first, path.hops.as_slice())?;
        self.push_part(PathPart { first, rels })
    }

    /// Appends the paths of a MATCH clause.
    pub fn push_paths(
        &mut self,
        alloc: Global,
        clause: u32,
        paths: &'t [Path],
    ) -> Result<(), Memory>
        ensures { IfOk result (λ _. self.new ≡ with_paths clause paths.now self.old) }
    {
        for path in paths {
            self.push_path(alloc, clause, path)?;
        }
        Ok(())
    }

    /// Appends a node variable of this name, unless there is one.
    pub(crate) fn push_name(&mut self, alloc: Global, name: &Option<Text>) -> Result<(), Memory>
        ensures { IfOk result (λ _. self.new ≡ with_name name.now self.old) }
    {
        let Some(name) = name else {
            return Ok(());
        };
        if self.names.contains(name) {
            return Ok(());
        }
        self.names.push_name(name)?;
        self.node_names.push(name.try_clone(alloc)?)
    }

    /// The same for the name of each node that a hop leads to.
    pub(crate) fn push_names(&mut self, alloc: Global, hops: &[Hop]) -> Result<(), Memory>
        ensures { IfOk result (λ _. self.new ≡ with_names hops.now self.old) }
    {
        for hop in hops {
            self.push_name(alloc, &hop.node.name)?;
        }
        Ok(())
    }

    fn push_clauses(&mut self, alloc: Global, clauses: &'t [Clause]) -> Result<(), Memory>
        ensures { IfOk result (λ _. self.new ≡ with_clauses 0 clauses.now self.old) }
    {
        let mut number = 0;
        for clause in clauses {
            self.push_paths(alloc, number, clause.paths.as_slice())?;
            number = next(number)?;
        }
        Ok(())
    }

    /// The patterns of MATCH clauses.
    #[tactic(auto, unfolding(crate::specs::Patterns::pattern_of))]
    pub fn of(alloc: Global, clauses: &'t [Clause]) -> Result<Pattern<'t>, Memory>
        ensures { IfOk result (λ p. p ≡ pattern_of clauses.now) }
    {
        let mut pattern = Pattern::new(alloc);
        pattern.push_clauses(alloc, clauses)?;
        Ok(pattern)
    }

    /// The pattern of a path by itself. Its first node variables are the names of the path's nodes,
    /// in the order of their first appearance.
    #[tactic(auto, unfolding(crate::specs::PathPatterns::path_pattern))]
    pub fn of_path(alloc: Global, path: &'t Path) -> Result<Pattern<'t>, Memory>
        ensures { IfOk result (λ p. p ≡ path_pattern path.now) }
    {
        let mut pattern = Pattern::new(alloc);
        pattern.push_name(alloc, &path.first.name)?;
        pattern.push_names(alloc, path.hops.as_slice())?;
        pattern.push_path(alloc, 0, path)?;
        Ok(pattern)
    }
}
