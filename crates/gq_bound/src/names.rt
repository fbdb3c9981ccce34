//! The first names and calls of a query's patterns and expressions that the checks of names refuse.
ghost use Rattle.std.specs.Prelude.{◌≡◌, not, OnOk};
ghost use Rattle.std.specs.Option.{option_copied, option_map, option_or};
ghost use Rattle.gq_bound.specs.Checks.{Checks};
ghost use Rattle.gq_bound.specs.Names.{no_names, with_added, with_expression};
ghost use Rattle.gq_bound.specs.Names.{with_expressions, with_name, with_named};
ghost use Rattle.gq_bound.specs.Refusals.{items_in, sorts_in};
ghost use Rattle.gq_bound.specs.declared.refusal.BindRefusal.TheVariants as refusal;
ghost use Rattle.gq_scopes.specs.Patterns.{with_paths};
ghost use Rattle.gq_resolve.specs.Checks.{check_of};
ghost use Rattle.gq_resolve.specs.Uses.{first_name, refused_unless, uses};

use crate::met::Met;
use crate::refusal::BindRefusal;
use gq_ast::{Ast, Item, Path, Sort};
use gq_base::{Memory, Text, TryClone};
use gq_resolve::{Check, first_refused};
use gq_scopes::{NamedVariable, Pattern, Scope};
use std::alloc::Global;
use std::marker::Model;

/// Of the patterns and expressions that were read, the first name that its scope does not have, the
/// first names that stand before as a variable of the other form and as a relationship that would be
/// one again, the first call that names no function, and the first call with a wrong number of
/// arguments; and the names that were met in patterns.
#[derive(Drop)]
pub struct FirstNames<'q> {
    variable: Option<&'q Text>,
    other_form: Option<&'q Text>,
    again: Option<&'q Text>,
    function: Option<&'q Text>,
    arguments: Option<&'q Text>,
    met: Met,
}

impl<'q> Model for FirstNames<'q> {
    ghost use Rattle.std.specs.Option.{option_copied};
    ghost use Rattle.gq_bound.specs.Names.{FirstNames};

    ghost Value = { FirstNames };

    ghost view = { λ n. record {
      variable = option_copied n.variable;
      other_form = option_copied n.other_form;
      again = option_copied n.again;
      function = option_copied n.function;
      arguments = option_copied n.arguments;
      met = n.met;
    } };
}

impl<'q> FirstNames<'q> {
    /// None yet.
    pub fn new(alloc: Global) -> FirstNames<'q>
        ensures { result ≡ no_names }
    {
        FirstNames {
            variable: None,
            other_form: None,
            again: None,
            function: None,
            arguments: None,
            met: Met::new(alloc),
        }
    }

    /// Appends the paths of a clause to patterns, and reads the names that they add.
    #[tactic(auto, using(crate::proofs::Patterns::named_within))]
    pub fn push_paths(
        &mut self,
        alloc: Global,
        clause: u32,
        paths: &'q [Path],
        pattern: &mut Pattern<'q>,
    ) -> Result<(), Memory>
        ensures pattern { OnOk result (pattern.new ≡ with_paths clause paths.now pattern.old) }
        ensures names { OnOk result (self.new
            ≡ with_added clause paths.now pattern.old self.old) }
    {
        let before = pattern.named().len();
        pattern.push_paths(alloc, clause, paths)?;
        self.read_named(&pattern.named()[before..])
    }

    // Reads names of patterns.
    fn read_named(&mut self, named: &[NamedVariable<'q>]) -> Result<(), Memory>
        ensures { OnOk result (self.new ≡ with_named self.old named.now) }
    {
        for variable in named {
            self.read_name(variable)?;
        }
        Ok(())
    }

    // Reads one more name of patterns.
    fn read_name(&mut self, variable: &NamedVariable<'q>) -> Result<(), Memory>
        ensures { OnOk result (self.new ≡ with_name self.old variable.now) }
    {
        self.other_form = or_name(self.other_form, self.met.conflicts(variable), variable);
        self.again = or_name(self.again, self.met.repeats(variable), variable);
        self.met.push(variable)
    }

    /// Reads one more expression.
    pub fn read(&mut self, scope: &Scope<'_>, tree: &'q Ast)
        ensures { self.new
            ≡ with_expression self.old (record { scope = scope.now; tree = tree.now }) }
    {
        self.variable = or_first(self.variable, Check::UnknownName, scope, tree);
        self.other_form = or_first(self.other_form, Check::OtherForm, scope, tree);
        self.again = or_first(self.again, Check::NamedAgain, scope, tree);
        self.function = or_first(self.function, Check::UnknownFunction, scope, tree);
        self.arguments = or_first(self.arguments, Check::WrongCount, scope, tree);
    }

    /// Reads the expressions of items.
    pub fn read_items(&mut self, scope: &Scope<'_>, items: &'q [Item])
        ensures { self.new ≡ with_expressions self.old (items_in scope.now items.now) }
    {
        for item in items {
            self.read(scope, &item.tree);
        }
    }

    /// Reads the expressions of sort items.
    pub fn read_sorts(&mut self, scope: &Scope<'_>, order: &'q [Sort])
        ensures { self.new ≡ with_expressions self.old (sorts_in scope.now order.now) }
    {
        for sort in order {
            self.read(scope, &sort.tree);
        }
    }

    /// An expression names what its scope does not have.
    pub fn unknown_variable(&self, alloc: Global) -> Result<(), BindRefusal>
        ensures { Checks (option_map refusal.UnknownVariable self.now.variable) result }
    {
        let Some(name) = self.variable else {
            return Ok(());
        };
        let name = name.try_clone(alloc)?;
        Err(BindRefusal::UnknownVariable { name })
    }

    /// One name is a node variable and a relationship variable.
    pub fn variable_conflict(&self, alloc: Global) -> Result<(), BindRefusal>
        ensures { Checks (option_map refusal.VariableConflict self.now.other_form) result }
    {
        let Some(name) = self.other_form else {
            return Ok(());
        };
        let name = name.try_clone(alloc)?;
        Err(BindRefusal::VariableConflict { name })
    }

    /// A relationship variable stands in two patterns, or in a pattern and in a path.
    pub fn relationship_repeated(&self, alloc: Global) -> Result<(), BindRefusal>
        ensures { Checks (option_map refusal.RelationshipRepeated self.now.again) result }
    {
        let Some(name) = self.again else {
            return Ok(());
        };
        let name = name.try_clone(alloc)?;
        Err(BindRefusal::RelationshipRepeated { name })
    }

    /// A call names no function.
    pub fn unknown_function(&self, alloc: Global) -> Result<(), BindRefusal>
        ensures { Checks (option_map refusal.UnknownFunction self.now.function) result }
    {
        let Some(name) = self.function else {
            return Ok(());
        };
        let name = name.try_clone(alloc)?;
        Err(BindRefusal::UnknownFunction { name })
    }

    /// A function does not take so many arguments.
    pub fn argument_count(&self, alloc: Global) -> Result<(), BindRefusal>
        ensures { Checks (option_map refusal.ArgumentCount self.now.arguments) result }
    {
        let Some(name) = self.arguments else {
            return Ok(());
        };
        let name = name.try_clone(alloc)?;
        Err(BindRefusal::ArgumentCount { name })
    }
}

// The name that is known, or this one where it is refused.
fn or_name<'q>(
    known: Option<&'q Text>,
    refused: bool,
    variable: &NamedVariable<'q>,
) -> Option<&'q Text>
    ensures { option_copied result
        ≡ option_or (option_copied known.entry)
        (refused_unless (not refused) variable.now.name) }
{
    match known {
        Some(name) => Some(name),
        None if refused => Some(variable.name),
        None => None,
    }
}

// The name that is known, or the first that a check refuses.
fn or_first<'q>(
    known: Option<&'q Text>,
    check: Check<'_>,
    scope: &Scope<'_>,
    tree: &'q Ast,
) -> Option<&'q Text>
    ensures { option_copied result
        ≡ option_or (option_copied known.entry)
        (first_name (check_of check.entry scope.now) (uses tree.now)) }
{
    match known {
        Some(name) => Some(name),
        None => first_refused(check, scope, tree),
    }
}
