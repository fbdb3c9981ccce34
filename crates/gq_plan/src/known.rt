//! The variables that a plan has bound.
ghost use Rattle.std.specs.Prelude.{◌≡◌, ◌<◌, ◌||◌, false, nat_eq};
ghost use Rattle.gq_plan.specs.Known as known;
ghost use Rattle.gq_plan.specs.Known.{set_of, known_of, with_both, is_bound, reads_bound};
ghost use Rattle.gq_plan.specs.Soundness.{max_variables};

use crate::bound_expr::BoundExpr;
use crate::variable::Variable;

/// The most node variables, and the most relationships, of a query.
pub const MAX_VARIABLES: usize = 24;

/// A set of variables of one kind.
#[derive(Clone, Copy)]
pub struct VariableSet {
    marks: [bool; MAX_VARIABLES],
}

impl VariableSet {
    /// The set of no variables.
    pub fn empty() -> VariableSet
        ensures { set_of result ≡ (λ v. false) }
    {
        VariableSet {
            marks: [false; MAX_VARIABLES],
        }
    }

    /// Whether a variable is in the set.
    pub fn has(self, variable: u32) -> bool
        ensures { result ≡ set_of self variable }
    {
        match self.marks.get(variable as usize) {
            Some(mark) => *mark,
            None => false,
        }
    }

    /// Puts a variable into the set.
    pub fn insert(&mut self, variable: u32)
        requires { variable < max_variables }
        ensures { set_of self.new ≡ (λ v. nat_eq v variable || set_of self.old v) }
    {
        self.marks[variable as usize] = true;
    }

    /// Puts the variables of another set into the set.
    pub fn insert_all(&mut self, other: VariableSet)
        ensures { set_of self.new ≡ (λ v. set_of other v || set_of self.old v) }
    {
        for at in 0..MAX_VARIABLES {
            self.marks[at] = other.marks[at] || self.marks[at];
        }
    }
}

/// The node variables and the relationship variables that are bound.
#[derive(Clone, Copy)]
pub struct Known {
    pub nodes: VariableSet,
    pub rels: VariableSet,
}

impl Known {
    /// No variables.
    pub fn none() -> Known
        ensures { known_of result ≡ known.none }
    {
        Known {
            nodes: VariableSet::empty(),
            rels: VariableSet::empty(),
        }
    }

    /// Takes the variables that another knows.
    pub fn insert_all(&mut self, other: Known)
        ensures { known_of self.new ≡ with_both (known_of other) (known_of self.old) }
    {
        self.nodes.insert_all(other.nodes);
        self.rels.insert_all(other.rels);
    }

    /// Whether a variable is bound.
    pub fn has(self, variable: Variable) -> bool
        ensures { result ≡ is_bound (known_of self) variable }
    {
        match variable {
            Variable::Node(node) => self.nodes.has(node),
            Variable::Rel(rel) => self.rels.has(rel),
        }
    }

    /// Whether all variables that an expression reads are bound.
    pub fn binds_all(self, expr: &BoundExpr) -> bool
        ensures { result ≡ reads_bound (known_of self) expr.now }
    {
        expr.reads().iter().all(|read| self.has(read.variable))
    }
}
