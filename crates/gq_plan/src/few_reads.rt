//! The first different properties of variables that the tests of a query read, in a fixed room: as
//! many as the tests of a query may read.

ghost use Rattle.std.specs.Prelude.{◌≡◌, [], ◌∷◌};
ghost use Rattle.std.specs.List.{list_any};
ghost use Rattle.gq_plan.specs.Reads.{property, properties, same_read};
ghost use Rattle.gq_plan.specs.steps.FewReads.{is_named, with_few, with_few_reads};

use crate::read::Read;
use crate::reads::is_variable;
use crate::variable::Variable;
use arrayvec::ArrayVec;
use gq_base::Text;
use std::marker::Model;

/// The most different properties of variables that the tests of a query read.
const MAX_READS: usize = 64;

// A variable, or a property of a variable.
#[derive(Drop)]
pub(crate) struct FewRead<'e> {
    variable: Variable,
    name: Option<&'e Text>,
}

impl<'e> Model for FewRead<'e> {
    ghost use Rattle.gq_plan.specs.Reads.{Read};
    ghost use Rattle.gq_plan.specs.steps.FewReads.{read_of};

    ghost Value = { Read };

    ghost view = { λ r. read_of r.variable r.name };
}

impl Default for FewRead<'_> {
    fn default() -> Self {
        FewRead {
            variable: Variable::Node(0),
            name: None,
        }
    }
}

// Different properties, in the order of their first appearance.
pub(crate) type FewReads<'e> = ArrayVec<FewRead<'e>, MAX_READS>;

// Takes a property of a variable, unless it stands already or there is no more room.
fn add<'e>(reads: &mut FewReads<'e>, variable: Variable, name: &'e Text)
    ensures { reads.new.items ≡ with_few reads.old.items (property variable name.now) }
{
    if reads.is_full() || stands_in(reads.as_slice(), variable, name) {
        return;
    }
    reads.push(FewRead {
        variable,
        name: Some(name),
    });
}

fn stands_in(reads: &[FewRead<'_>], variable: Variable, name: &Text) -> bool
    ensures { result ≡ list_any (λ q. same_read q (property variable name.now)) reads.now }
{
    reads.iter().any(|read| is_read(read, variable, name))
}

fn is_read(read: &FewRead<'_>, variable: Variable, name: &Text) -> bool
    ensures { result ≡ same_read read.now (property variable name.now) }
{
    is_variable(read.variable, variable) && is_name(read.name, name)
}

fn is_name(own: Option<&Text>, name: &Text) -> bool
    ensures { result ≡ is_named own.entry name.now }
{
    match own {
        Some(own) => own.is(name.as_str()),
        None => false,
    }
}

// Takes what is read, where it is a property.
fn add_read<'e>(reads: &mut FewReads<'e>, read: &'e Read)
    ensures { reads.new.items ≡ with_few_reads reads.old.items (properties (read.now ∷ [])) }
{
    if let Some(name) = &read.property {
        add(reads, read.variable, name);
    }
}

// Takes the properties among what an expression reads.
pub(crate) fn add_all<'e>(reads: &mut FewReads<'e>, all: &'e [Read])
    ensures { reads.new.items ≡ with_few_reads reads.old.items (properties all.now) }
{
    for read in all {
        add_read(reads, read);
    }
}
