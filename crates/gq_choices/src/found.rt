//! What a search of alternatives has found so far, and what it may still take.
ghost use Rattle.std.specs.Prelude.{◌≡◌, ◌<◌, ◌≤◌, ◌-◌, [], ◌∷◌, ◌++◌, suc, map, take};
ghost use Rattle.std.specs.Prelude.{length, slice_get, slice_set, None, OnOk, IfOk, nat_lt};
ghost use Rattle.gq_choices.specs.steps.Branching.{unknown};
ghost use Rattle.gq_choices.specs.steps.Searching.{adding, agreeing};

use crate::budget::Budget;
use crate::narrowing::{Candidates, narrowed};
use gq_alternatives::{Choice, Reading};
use gq_base::{Catalog, List, Memory};
use std::alloc::Global;
use std::marker::Model;

// The steps for which a branch counts beside narrowing: it has copies of all candidates.
const BRANCH: usize = 1_024;

/// What a search has found: the node tables that are known, the readings and the tables that are
/// chosen, and the whole choices; and how many steps it may still take.
#[derive(Drop)]
pub struct Found {
    budget: Budget,
    known: List<Option<u32>>,
    readings: Vec<Reading>,
    tables: Vec<u32>,
    choices: List<Choice>,
}

impl Model for Found {
    ghost use Rattle.gq_choices.specs.steps.Searching.{Found};

    ghost Value = { Found };

    ghost view = { λ f. record {
      known = f.known;
      readings = f.readings.items;
      tables = f.tables.items;
      choices = f.choices;
    } };
}

impl Found {
    /// Nothing yet, where each node variable has one of these lists of tables.
    pub fn new(alloc: Global, tables: &[List<u32>], budget: Budget) -> Result<Found, Memory>
        ensures { IfOk result (λ f. f ≡ record {
          known = map (λ l. None) tables.now;
          readings = [];
          tables = [];
          choices = [];
        }) }
    {
        Ok(Found {
            budget,
            known: nothing_known(alloc, tables)?,
            readings: Vec::new(alloc),
            tables: Vec::new(alloc),
            choices: List::new(alloc),
        })
    }

    /// The choices.
    pub fn into_choices(self) -> List<Choice>
        ensures { result ≡ self.choices }
    {
        self.choices
    }

    /// Whether all steps were taken.
    pub fn is_out_of_steps(&self) -> bool {
        self.budget.is_spent()
    }

    /// Narrows the candidates of a branch, by steps of its own budget.
    pub fn narrowed<'s>(
        &mut self,
        alloc: Global,
        catalog: &Catalog,
        first: Candidates<'s>,
    ) -> Result<Candidates<'s>, Memory>
        ensures same { self.new ≡ self.old }
        ensures agree { IfOk result (λ c. agreeing catalog.now c.steps c.tables
            ≡ agreeing catalog.now first.entry.steps first.entry.tables) }
        ensures unknown { IfOk result (λ c. unknown c.tables ≡ unknown first.entry.tables) }
    {
        self.budget.take(BRANCH)?;
        narrowed(alloc, catalog, &mut self.budget, first)
    }

    /// Whether there are more choices than are wanted.
    pub fn is_full(&self, most: usize) -> bool
        ensures { result ≡ nat_lt most (length self.now.choices) }
    {
        self.choices.len() > most
    }

    // What is known of the table of a variable, if there is such a variable.
    pub(crate) fn known_of(&self, variable: usize) -> Option<Option<u32>>
        ensures { result ≡ slice_get self.now.known variable }
    {
        self.known.get(variable).copied()
    }

    // Puts what is known of a variable in the place of what was known.
    pub(crate) fn know(&mut self, variable: usize, known: Option<u32>)
        requires { variable < length self.old.known }
        ensures { self.new ≡ record self.old { known = slice_set self.old.known variable known } }
    {
        self.known.set(variable, known);
    }

    pub(crate) fn push_reading(&mut self, reading: Reading) -> Result<(), Memory>
        ensures { OnOk result
            (self.new ≡ record self.old { readings = self.old.readings ++ reading ∷ [] }) }
    {
        self.budget.take(1)?;
        match self.readings.push(reading) {
            Ok(()) => Ok(()),
            Err(_) => Err(Memory::Exhausted),
        }
    }

    pub(crate) fn pop_reading(&mut self)
        ensures { self.new
            ≡ record self.old { readings = take (length self.old.readings - 1) self.old.readings } }
    {
        let _ = self.readings.pop();
    }

    pub(crate) fn push_table(&mut self, table: u32) -> Result<(), Memory>
        ensures { OnOk result
            (self.new ≡ record self.old { tables = self.old.tables ++ table ∷ [] }) }
    {
        self.budget.take(1)?;
        match self.tables.push(table) {
            Ok(()) => Ok(()),
            Err(_) => Err(Memory::Exhausted),
        }
    }

    pub(crate) fn pop_table(&mut self)
        ensures { self.new
            ≡ record self.old { tables = take (length self.old.tables - 1) self.old.tables } }
    {
        let _ = self.tables.pop();
    }

    // How many node variables have a table.
    pub(crate) fn tables_len(&self) -> usize
        ensures { result ≡ length self.now.tables }
    {
        self.tables.len()
    }

    #[tactic(auto, using(crate::proofs::Limits::limits))]
    pub(crate) fn push_choice(&mut self, alloc: Global, most: usize) -> Result<(), Memory>
        requires { length self.old.choices ≤ suc most }
        ensures { OnOk result (self.new ≡ adding most
            (record { readings = self.old.readings; tables = self.old.tables } ∷ []) self.old) }
    {
        if self.is_full(most) {
            return Ok(());
        }
        let choice = Choice {
            readings: List::from_slice(alloc, self.readings.as_slice())?,
            tables: List::from_slice(alloc, self.tables.as_slice())?,
        };
        self.choices.push(choice)
    }
}

fn nothing_known(alloc: Global, tables: &[List<u32>]) -> Result<List<Option<u32>>, Memory>
    ensures { IfOk result (λ ks. ks ≡ map (λ l. None) tables.now) }
{
    let mut known = List::new(alloc);
    for _table in tables {
        known.push(None)?;
    }
    Ok(known)
}
