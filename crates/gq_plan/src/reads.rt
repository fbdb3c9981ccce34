//! The properties of variables that expressions read.
ghost use Rattle.std.specs.Prelude.{◌≡◌, ◌&&◌, [], ◌∷◌, length, IfOk};
ghost use Rattle.std.specs.List.{list_any};
ghost use Rattle.gq_plan.specs.Reads as reads;
ghost use Rattle.gq_plan.specs.Reads.{property, properties};
ghost use Rattle.gq_plan.specs.Reads.{same_read, with_read, with_reads};

use crate::bound_expr::BoundExpr;
use crate::read::Read;
use crate::variable::Variable;
use gq_base::{List, Memory, Text};
use std::alloc::Global;
use std::collections::BTreeSet;
use std::marker::Model;

// A property of a variable.
#[derive(Drop)]
struct PropertyRead<'e> {
    variable: Variable,
    name: &'e Text,
}

impl<'e> Model for PropertyRead<'e> {
    ghost use Rattle.gq_plan.specs.Reads.{Read, property};

    ghost Value = { Read };

    ghost view = { λ r. property r.variable r.name.now };
}

/// The different properties of variables that expressions read, in the order of their first
/// appearance. The names of properties stand in an ordered set too, so that a new name is told
/// without going through the list.
#[derive(Drop)]
pub struct PropertyReads<'e> {
    reads: List<PropertyRead<'e>>,
    names: BTreeSet<&'e str>,
}

impl<'e> Model for PropertyReads<'e> {
    ghost use Rattle.std.specs.Prelude.{◌≡◌, ℕ, List, false};
    ghost use Rattle.std.specs.Borrow.{Bor};
    ghost use Rattle.std.specs.BTreeSet.{contains};
    ghost use Rattle.std.specs.Cmp.Lexicographic.{slice_cmp};
    ghost use Rattle.std.specs.List.{list_any};
    ghost use Rattle.std.specs.Ordering.{nat_cmp};
    ghost use Rattle.gq_plan.specs.Reads.{Read};
    ghost use Rattle.gq_plan.specs.steps.Reads.{has_name};

    ghost Value = { List Read };

    ghost view = { λ r. r.reads };

    ghost invariant = { λ r. (name : Bor (List ℕ))
        → contains (λ x y. slice_cmp nat_cmp x.now y.now) r.names name ≡ false
        → list_any (has_name name.now) r.reads ≡ false };
}

impl<'e> PropertyReads<'e> {
    /// No properties yet.
    pub fn new(alloc: Global) -> PropertyReads<'e>
        ensures { result ≡ [] }
    {
        PropertyReads {
            reads: List::new(alloc),
            names: BTreeSet::new(alloc),
        }
    }

    /// How many different properties there are.
    pub fn len(&self) -> usize
        ensures { result ≡ length self.now }
    {
        self.reads.len()
    }

    fn contains(&self, variable: Variable, name: &Text) -> bool
        ensures { result
            ≡ list_any (λ q. same_read q (property variable name.now)) self.now }
    {
        stands_in(self.reads.as_slice(), variable, name)
    }

    /// Takes a property of a variable, unless it stands already.
    pub fn add(&mut self, variable: Variable, name: &'e Text) -> Result<(), Memory>
        ensures { IfOk result (λ _.
            self.new ≡ with_read self.old (property variable name.now)) }
    {
        let is_new = match self.names.insert(name.as_str()) {
            Ok(is_new) => is_new,
            Err(_) => return Err(Memory::Exhausted),
        };
        if is_new {
            return self.reads.push(PropertyRead { variable, name });
        }
        if self.contains(variable, name) {
            return Ok(());
        }
        self.reads.push(PropertyRead { variable, name })
    }

    // Takes what is read, where it is a property.
    fn add_read(&mut self, read: &'e Read) -> Result<(), Memory>
        ensures { IfOk result (λ _.
            self.new ≡ with_reads self.old (properties (read.now ∷ []))) }
    {
        match &read.property {
            Some(name) => self.add(read.variable, name),
            None => Ok(()),
        }
    }

    /// Takes all properties that an expression reads.
    pub fn add_all(&mut self, expr: &'e BoundExpr) -> Result<(), Memory>
        ensures { IfOk result (λ _.
            self.new ≡ with_reads self.old (properties (reads.reads expr.now))) }
    {
        for read in expr.reads() {
            self.add_read(read)?;
        }
        Ok(())
    }
}

fn stands_in(reads: &[PropertyRead<'_>], variable: Variable, name: &Text) -> bool
    ensures { result ≡ list_any (λ q. same_read q (property variable name.now)) reads.now }
{
    reads.iter().any(|read| is_read(read, variable, name))
}

fn is_read(read: &PropertyRead<'_>, variable: Variable, name: &Text) -> bool
    ensures { result ≡ same_read read.now (property variable name.now) }
{
    is_variable(read.variable, variable) && read.name.is(name.as_str())
}

pub(crate) fn is_variable(own: Variable, variable: Variable) -> bool
    ensures { result ≡ reads.same_variable own variable }
{
    match (own, variable) {
        (Variable::Node(own), Variable::Node(node)) => own == node,
        (Variable::Rel(own), Variable::Rel(rel)) => own == rel,
        _ => false,
    }
}
