//! The names and calls of an expression, and the first that a check refuses.
ghost use Rattle.std.specs.Prelude.{◌≡◌, true, false, map};
ghost use Rattle.gq_ast.specs.Operands.{in_tester};
ghost use Rattle.std.specs.Option.{option_copied};
ghost use Rattle.gq_resolve.specs.Checks.{check_of};
ghost use Rattle.gq_resolve.specs.steps.Trees.{term_with, tester_with};
ghost use Rattle.gq_resolve.specs.Uses as uses;
ghost use Rattle.gq_resolve.specs.Uses.{first_name, term_uses, bare, owner, exists};
ghost use Rattle.gq_resolve.specs.Uses.{refused_unless, takes, is_some_function};
ghost use Rattle.gq_resolve.specs.steps.Uses.{first_of};

use crate::renames::Renamed;
use gq_ast::{ArithTerm, Ast, AstNode, AstTester, CompareTerm, Hop, Path, Tester};
use gq_base::Text;
use gq_scopes::Scope;

/// What is looked for in an expression.
#[derive(Clone, Copy)]
pub enum Check<'c> {
    /// A name that the scope does not have.
    UnknownName,
    /// A name in a path that the scope has as a variable of the other form.
    OtherForm,
    /// A relationship variable of the scope, which a path names as a relationship.
    NamedAgain,
    /// A call that names no function.
    UnknownFunction,
    /// A call of a function that does not take so many arguments.
    WrongCount,
    /// A name that AS gives to another column than the variable of this name.
    AmbiguousName(&'c Renamed<'c>),
}

/// The first name of an expression, in text order, that a check refuses.
#[cycle(first_refused)]
#[tactic(auto, using(crate::proofs::UseLemmas::opening))]
pub fn first_refused<'t>(check: Check<'_>, scope: &Scope<'_>, tree: &'t Ast) -> Option<&'t Text>
    ensures { option_copied result
        ≡ first_name (check_of check.entry scope.now) (uses.uses tree.now) }
{
    match &tree.node {
        AstNode::Literal(_) => None,
        AstNode::Exists(path) => refused_path(check, scope, path),
        AstNode::Variable(name) => refused_name(check, scope, name, true),
        AstNode::Property(name, _) => refused_name(check, scope, name, false),
        AstNode::Call(name, all) => match refused_call(check, scope, name, all.len()) {
            Some(name) => Some(name),
            None => first_of_all(check, scope, all.as_slice()),
        },
        AstNode::Paren(inner)
        | AstNode::Negate(inner)
        | AstNode::Plus(inner)
        | AstNode::Not(inner) => first_refused(check, scope, inner.get()),
        AstNode::Or(all) | AstNode::Xor(all) | AstNode::And(all) => {
            first_of_all(check, scope, all.as_slice())
        }
        AstNode::Compare(first, terms) => match first_refused(check, scope, first.get()) {
            Some(name) => Some(name),
            None => first_of_compares(check, scope, terms.as_slice()),
        },
        AstNode::Test(first, testers) => match first_refused(check, scope, first.get()) {
            Some(name) => Some(name),
            None => first_of_testers(check, scope, testers.as_slice()),
        },
        AstNode::Sum(first, terms) | AstNode::Product(first, terms) => {
            match first_refused(check, scope, first.get()) {
                Some(name) => Some(name),
                None => first_of_ariths(check, scope, terms.as_slice()),
            }
        }
    }
}

#[cycle(first_refused)]
fn first_of_all<'t>(check: Check<'_>, scope: &Scope<'_>, trees: &'t [Ast]) -> Option<&'t Text>
    ensures { let uss = map uses.uses trees.now in
        option_copied result ≡ first_of (check_of check.entry scope.now) uss }
{
    for tree in trees {
        if let Some(name) = first_refused(check, scope, tree) {
            return Some(name);
        }
    }
    None
}

#[cycle(first_refused)]
fn first_of_compares<'t>(
    check: Check<'_>,
    scope: &Scope<'_>,
    terms: &'t [CompareTerm],
) -> Option<&'t Text>
    ensures { let uss = map term_uses (map (term_with uses.uses) terms.now) in
        option_copied result ≡ first_of (check_of check.entry scope.now) uss }
{
    for term in terms {
        if let Some(name) = first_refused(check, scope, &term.tree) {
            return Some(name);
        }
    }
    None
}

#[cycle(first_refused)]
fn first_of_ariths<'t>(
    check: Check<'_>,
    scope: &Scope<'_>,
    terms: &'t [ArithTerm],
) -> Option<&'t Text>
    ensures { let uss = map term_uses (map (term_with uses.uses) terms.now) in
        option_copied result ≡ first_of (check_of check.entry scope.now) uss }
{
    for term in terms {
        if let Some(name) = first_refused(check, scope, &term.tree) {
            return Some(name);
        }
    }
    None
}

#[cycle(first_refused)]
fn first_of_testers<'t>(
    check: Check<'_>,
    scope: &Scope<'_>,
    testers: &'t [AstTester],
) -> Option<&'t Text>
    ensures { let uss = map in_tester (map (tester_with uses.uses) testers.now) in
        option_copied result ≡ first_of (check_of check.entry scope.now) uss }
{
    for tester in testers {
        let found = match tester {
            Tester::IsNull | Tester::IsNotNull | Tester::Member(_) => None,
            Tester::Text(_, part) => first_refused(check, scope, part),
        };
        if let Some(name) = found {
            return Some(name);
        }
    }
    None
}

fn unless<'t>(allowed: bool, name: &'t Text) -> Option<&'t Text>
    ensures { option_copied result ≡ refused_unless allowed name.now }
{
    if allowed { None } else { Some(name) }
}

fn refused_name<'t>(
    check: Check<'_>,
    scope: &Scope<'_>,
    name: &'t Text,
    alone: bool,
) -> Option<&'t Text>
    ensures bare { alone ≡ true
        → option_copied result ≡ check_of check.entry scope.now (bare name.now) }
    ensures owner { alone ≡ false
        → option_copied result ≡ check_of check.entry scope.now (owner name.now) }
{
    match check {
        Check::UnknownName => unless(scope.knows(name, alone), name),
        Check::OtherForm | Check::NamedAgain => None,
        Check::UnknownFunction => None,
        Check::WrongCount => None,
        Check::AmbiguousName(renamed) => unless(!renamed.contains(name), name),
    }
}

fn refused_call<'t>(
    check: Check<'_>,
    scope: &Scope<'_>,
    name: &'t Text,
    arguments: usize,
) -> Option<&'t Text>
    ensures { option_copied result ≡ check_of check.entry scope.now (uses.call name.now arguments) }
{
    match check {
        Check::UnknownName | Check::OtherForm | Check::NamedAgain => None,
        Check::UnknownFunction => unless(names_function(name), name),
        Check::WrongCount => unless(takes_arguments(name, arguments), name),
        Check::AmbiguousName(_) => None,
    }
}

fn refused_path<'t>(check: Check<'_>, scope: &Scope<'_>, path: &'t Path) -> Option<&'t Text>
    ensures { option_copied result ≡ check_of check.entry scope.now (exists path.now) }
{
    match check {
        Check::UnknownName => unknown_in(scope, path),
        Check::OtherForm => conflict_in(scope, path),
        Check::NamedAgain => again_in(scope, path.hops.as_slice()),
        Check::UnknownFunction | Check::WrongCount | Check::AmbiguousName(_) => None,
    }
}

// The first name in a path that is no variable.
fn unknown_in<'t>(scope: &Scope<'_>, path: &'t Path) -> Option<&'t Text>
    ensures { option_copied result ≡ uses.unknown_in scope.now path.now }
{
    match unless_variable(scope, &path.first.name) {
        Some(name) => Some(name),
        None => unknown_in_hops(scope, path.hops.as_slice()),
    }
}

fn unknown_in_hops<'t>(scope: &Scope<'_>, hops: &'t [Hop]) -> Option<&'t Text>
    ensures { option_copied result ≡ uses.unknown_in_hops scope.now hops.now }
{
    for hop in hops {
        let unknown = match unless_variable(scope, &hop.rel.name) {
            Some(name) => Some(name),
            None => unless_variable(scope, &hop.node.name),
        };
        if let Some(name) = unknown {
            return Some(name);
        }
    }
    None
}

// The first name of a path that is a node there and a relationship variable of the scope, or the other way round.
fn conflict_in<'t>(scope: &Scope<'_>, path: &'t Path) -> Option<&'t Text>
    ensures { option_copied result ≡ uses.conflict_in scope.now path.now }
{
    match unless_rel(scope, &path.first.name) {
        Some(name) => Some(name),
        None => conflict_in_hops(scope, path.hops.as_slice()),
    }
}

fn conflict_in_hops<'t>(scope: &Scope<'_>, hops: &'t [Hop]) -> Option<&'t Text>
    ensures { option_copied result ≡ uses.conflict_in_hops scope.now hops.now }
{
    for hop in hops {
        let conflict = match unless_node(scope, &hop.rel.name) {
            Some(name) => Some(name),
            None => unless_rel(scope, &hop.node.name),
        };
        if let Some(name) = conflict {
            return Some(name);
        }
    }
    None
}

// The first relationship of a path that is a relationship variable of the scope.
fn again_in<'t>(scope: &Scope<'_>, hops: &'t [Hop]) -> Option<&'t Text>
    ensures { option_copied result ≡ uses.again_in scope.now hops.now }
{
    for hop in hops {
        if let Some(name) = unless_rel(scope, &hop.rel.name) {
            return Some(name);
        }
    }
    None
}

fn unless_node<'t>(scope: &Scope<'_>, name: &'t Option<Text>) -> Option<&'t Text>
    ensures { option_copied result ≡ uses.unless_node scope.now name.now }
{
    match name {
        None => None,
        Some(name) => unless(scope.node(name).is_none(), name),
    }
}

fn unless_rel<'t>(scope: &Scope<'_>, name: &'t Option<Text>) -> Option<&'t Text>
    ensures { option_copied result ≡ uses.unless_rel scope.now name.now }
{
    match name {
        None => None,
        Some(name) => unless(scope.rel(name).is_none(), name),
    }
}

fn unless_variable<'t>(scope: &Scope<'_>, name: &'t Option<Text>) -> Option<&'t Text>
    ensures { option_copied result ≡ uses.unless_variable scope.now name.now }
{
    match name {
        None => None,
        Some(name) => unless(scope.knows(name, false), name),
    }
}

fn names_function(name: &Text) -> bool
    ensures { result ≡ is_some_function name.now }
{
    let name = name.as_str();
    name.eq_ignore_ascii_case("type") || name.eq_ignore_ascii_case("coalesce")
}

fn takes_arguments(name: &Text, arguments: usize) -> bool
    ensures { result ≡ takes name.now arguments }
{
    let name = name.as_str();
    if name.eq_ignore_ascii_case("type") {
        arguments == 1
    } else if name.eq_ignore_ascii_case("coalesce") {
        arguments != 0
    } else {
        true
    }
}
