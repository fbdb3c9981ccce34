//! The functions that a call may name.
ghost use Rattle.std.specs.Prelude.{◌≡◌, IfOk, Some};
ghost use Rattle.gq_resolve.specs.Resolving as resolving;
ghost use Rattle.gq_resolve.specs.Resolving.{calls_of, type_call, coalesce_call};

use gq_base::{Boxed, List, Literal, Memory, Text};
use gq_expr::Expr;
use std::alloc::Global;

/// What a call stands for.
#[derive(Clone, Copy)]
pub enum CallForm {
    /// The function that it names, or nothing.
    Functions,
    /// The list of its name and its arguments, for comparing expressions before their functions are looked at.
    Lists,
}

/// What a call stands for, by its name and its arguments.
pub fn call(
    alloc: Global,
    form: CallForm,
    name: &Text,
    arguments: List<Expr>,
) -> Result<Option<Expr>, Memory>
    ensures { IfOk result (λ e. e ≡ calls_of form name.now arguments) }
{
    match form {
        CallForm::Functions => function(alloc, name, arguments),
        CallForm::Lists => Ok(Some(as_list(alloc, name, arguments)?)),
    }
}

fn function(alloc: Global, name: &Text, arguments: List<Expr>) -> Result<Option<Expr>, Memory>
    ensures { IfOk result (λ e. e ≡ resolving.functions name.now arguments) }
{
    let name = name.as_str();
    if name.eq_ignore_ascii_case("type") {
        type_of(alloc, arguments)
    } else if name.eq_ignore_ascii_case("coalesce") {
        Ok(coalesce(arguments))
    } else {
        Ok(None)
    }
}

fn type_of(alloc: Global, arguments: List<Expr>) -> Result<Option<Expr>, Memory>
    ensures { IfOk result (λ e. e ≡ type_call arguments) }
{
    if arguments.len() != 1 {
        return Ok(None);
    }
    match arguments.into_vec().pop() {
        Some(argument) => Ok(Some(Expr::TypeName(Boxed::new(alloc, argument)?))),
        None => Ok(None),
    }
}

fn coalesce(arguments: List<Expr>) -> Option<Expr>
    ensures { result ≡ coalesce_call arguments }
{
    if arguments.is_empty() {
        None
    } else {
        Some(Expr::Coalesce(arguments))
    }
}

fn as_list(alloc: Global, name: &Text, arguments: List<Expr>) -> Result<Expr, Memory>
    ensures { IfOk result (λ e. Some e ≡ resolving.as_lists name.now arguments) }
{
    let name = Text::from_string(name.as_str().to_ascii_lowercase(alloc)?);
    let mut all = arguments.into_vec();
    all.insert(0, Expr::Literal(Literal::Str(name)))?;
    Ok(Expr::Coalesce(List::from_vec(all)))
}
