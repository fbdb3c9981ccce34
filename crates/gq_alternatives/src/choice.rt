//! Choices of tables and directions for the patterns of a query.

use gq_base::List;
use std::marker::Model;

/// A table for a relationship pattern, and whether it is read from the right node to the left node.
#[derive(Clone, Copy, Debug, PartialEq, Eq)]
pub struct Reading {
    pub table: u32,
    pub reversed: bool,
}

impl Model for Reading {
    ghost use Rattle.gq_alternatives.specs.Alternatives.{Reading};

    ghost Value = { Reading };

    ghost view = { λ r. record { table = r.table; reversed = r.reversed } };

    ghost inverse = { λ r. record { table = r.table; reversed = r.reversed } };
}

/// A reading for each relationship pattern, and a table for each node variable.
#[derive(Drop)]
pub struct Choice {
    pub readings: List<Reading>,
    pub tables: List<u32>,
}

impl Model for Choice {
    ghost use Rattle.gq_alternatives.specs.Alternatives.{Choice};

    ghost Value = { Choice };

    ghost view = { λ c. record { readings = c.readings; tables = c.tables } };
}
