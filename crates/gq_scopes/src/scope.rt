//! What the expressions of a query may name.
ghost use Rattle.std.specs.Prelude.{◌≡◌, ◌<◌, ◌^◌, true, false, length, map, Some, IfOk, IfSome};
ghost use Rattle.gq_scopes.specs.Scopes as scopes;
ghost use Rattle.gq_scopes.specs.Patterns.{find_name};
ghost use Rattle.gq_scopes.specs.Scopes.{is_known, is_variable};

use crate::copying::Copying;
use crate::naming::Names;
use crate::rels::Rels;
use crate::renumbering::copy_expr;
use gq_base::{Memory, Text, TryClone};
use gq_expr::Expr;
use std::alloc::Global;
use std::marker::Model;

/// A column of RETURN.
#[derive(Drop)]
pub struct Column {
    pub name: Text,
    /// Its expression, where its names and its functions are known.
    pub expr: Option<Expr>,
}

/// What an expression may name: columns by themselves, and variables by themselves or with a property.
#[derive(Drop)]
pub struct Scope<'s> {
    columns: &'s [Column],
    column_names: Names,
    nodes: &'s Names,
    rels: &'s Rels<'s>,
}

impl<'s> Model for Scope<'s> {
    ghost use Rattle.std.specs.Prelude.{◌≡◌, ◌^◌, ◌<◌, Some, length, map};
    ghost use Rattle.std.specs.Coded.{codes};
    ghost use Rattle.gq_expr.specs.contracts.expr.Expr as expr;
    ghost use Rattle.gq_scopes.specs.Scopes.{Scope};

    ghost Value = { Scope };

    ghost coded = { Prim.hlevel (codes, expr.the_row.coded) };

    ghost view = { λ s. record {
      columns = s.columns.now;
      nodes = s.nodes.now;
      rels = map (λ r. r.part.name) s.rels.now;
    } };

    ghost invariant = { λ s. (length s.nodes.now < 2 ^ 32) × (length s.rels.now < 2 ^ 32)
        × (s.column_names ≡ map (λ c. Some c.name) s.columns.now) };
}

impl<'s> Scope<'s> {
    /// The scope of these columns, and of variables by their names and their patterns.
    pub fn new(
        alloc: Global,
        columns: &'s [Column],
        nodes: &'s Names,
        rels: &'s Rels<'s>,
    ) -> Result<Scope<'s>, Memory>
        requires nodes { length nodes.now < 2 ^ 32 }
        requires rels { length rels.now < 2 ^ 32 }
        ensures { IfOk result (λ s. s ≡ record {
          columns = columns.now;
          nodes = nodes.now;
          rels = map (λ r. r.part.name) rels.now;
        }) }
    {
        let column_names = names_of(alloc, columns)?;
        Ok(Scope {
            columns,
            column_names,
            nodes,
            rels,
        })
    }

    /// The variable of a name.
    pub fn variable(&self, name: &Text) -> Option<Expr>
        ensures { result ≡ scopes.variable self.now name.now }
    {
        match self.nodes.find(name) {
            Some(at) => Some(Expr::Node(at as u32)),
            None => match self.rels.find(name) {
                Some(at) => Some(Expr::Rel(at as u32)),
                None => None,
            },
        }
    }

    /// The node variable of a name.
    pub fn node(&self, name: &Text) -> Option<usize>
        ensures { result ≡ find_name self.now.nodes name.now }
    {
        self.nodes.find(name)
    }

    /// The relationship variable of a name.
    pub fn rel(&self, name: &Text) -> Option<usize>
        ensures { result ≡ find_name self.now.rels name.now }
    {
        self.rels.find(name)
    }

    /// Whether an expression may name it: alone it may be a column or a variable, else a variable.
    pub fn knows(&self, name: &Text, alone: bool) -> bool
        ensures alone { alone ≡ true → result ≡ is_known self.now name.now }
        ensures owner { alone ≡ false → result ≡ is_variable self.now name.now }
    {
        (alone && self.find_column(name).is_some())
            || self.nodes.find(name).is_some()
            || self.rels.find(name).is_some()
    }

    /// A property of a variable.
    pub fn property(&self, alloc: Global, name: &Text, key: &Text) -> Result<Option<Expr>, Memory>
        ensures { IfOk result (λ e. e ≡ scopes.property self.now name.now key.now) }
    {
        match self.nodes.find(name) {
            Some(at) => Ok(Some(Expr::NodeProperty(at as u32, key.try_clone(alloc)?))),
            None => match self.rels.find(name) {
                Some(at) => Ok(Some(Expr::RelProperty(at as u32, key.try_clone(alloc)?))),
                None => Ok(None),
            },
        }
    }

    /// What a bare name stands for: the column of that name if there is one, else the variable.
    pub fn bare(
        &self,
        alloc: Global,
        copying: &mut Copying,
        name: &Text,
    ) -> Result<Option<Expr>, Memory>
        ensures { IfOk result (λ e. e ≡ scopes.bare self.now name.now) }
    {
        match self.find_column(name) {
            Some(at) => copy_known(alloc, copying, &self.columns[at].expr),
            None => Ok(self.variable(name)),
        }
    }

    // The first column of a name.
    #[tactic(auto, using(crate::proofs::ScopeLemmas::found_column))]
    fn find_column(&self, name: &Text) -> Option<usize>
        ensures value { result ≡ scopes.find_column self.now.columns name.now }
        ensures within { IfSome result (λ at. at < length self.now.columns) }
    {
        self.column_names.find(name)
    }
}

fn names_of(alloc: Global, columns: &[Column]) -> Result<Names, Memory>
    ensures { IfOk result (λ names. names ≡ map (λ c. Some c.name) columns.now) }
{
    let mut names = Names::new(alloc);
    for column in columns {
        names.push_name(&column.name)?;
    }
    Ok(names)
}

/// A copy of an expression that may be missing.
pub fn copy_known(
    alloc: Global,
    copying: &mut Copying,
    expr: &Option<Expr>,
) -> Result<Option<Expr>, Memory>
    ensures { IfOk result (λ e. e ≡ expr.now) }
{
    match expr {
        None => Ok(None),
        Some(expr) => Ok(Some(copy_expr(alloc, copying, expr)?)),
    }
}
