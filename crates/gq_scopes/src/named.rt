//! Copies of expressions with what they are called.
ghost use Rattle.std.specs.Prelude.{◌≡◌, IfOk};

use crate::copying::Copying;
use crate::renumbering::copy_expr;
use gq_base::{Memory, TryClone};
use gq_plan::{BoundExpr, NamedExpr};
use std::alloc::Global;

/// A copy of an expression and of what it is called, out of what may still be copied; `Memory`
/// where that is too little.
pub fn copy_named(
    alloc: Global,
    copying: &mut Copying,
    named: &NamedExpr,
) -> Result<NamedExpr, Memory>
    ensures { IfOk result (λ n. n ≡ named.now) }
{
    copying.take_name(&named.name)?;
    let expr = copy_expr(alloc, copying, named.expr.get())?;
    Ok(NamedExpr {
        name: named.name.try_clone(alloc)?,
        expr: BoundExpr::new(alloc, expr)?,
    })
}
