//! The first checks of a query in their order, and those of its columns.
ghost use Rattle.std.specs.Prelude.{All, length};
ghost use Rattle.gq_bound.specs.Checks.{Checks};
ghost use Rattle.gq_bound.specs.steps.Parts.{checks_in};
ghost use Rattle.gq_bound.specs.Refusals as refusals;
ghost use Rattle.gq_bound.specs.Refusals.{first_of_all, max_columns, nothing, over_limit};
ghost use Rattle.gq_bound.specs.declared.refusal.BindRefusal.TheVariants as refusal;
ghost use Rattle.gq_ast.specs.Spans.{IsWholeTree};

use crate::order::{ambiguous_order_name, order_out_of_scope};
use crate::pattern_counts::too_many_patterns;
use crate::read_counts::too_many_reads;
use gq_ast::Query;
use gq_base::TryClone;
use gq_bound::{BindRefusal, QueryParts};
use gq_scopes::{Column, NamedVariable, Names};
use std::alloc::Global;

const MAX_COLUMNS: usize = 64;

/// The checks of a query in their order, but for those of its alternatives, of its trails and of the
/// places of EXISTS.
#[tactic(auto, using(gq_bound::proofs::RefusalLemmas::firsts))]
pub fn check(
    alloc: Global,
    text: &[u8],
    query: &Query,
    parts: &QueryParts<'_>,
) -> Result<(), BindRefusal>
    requires { All (λ item. IsWholeTree text.now item.tree) query.now.items }
    ensures { Checks (first_of_all (checks_in text.now query.now parts.now)) result }
{
    let pattern = &parts.pattern;
    let columns = parts.columns.as_slice();
    parts.names.unknown_variable(alloc)?;
    parts.names.variable_conflict(alloc)?;
    parts.names.relationship_repeated(alloc)?;
    column_repeated(alloc, columns)?;
    nothing_to_return(query.star, pattern.named())?;
    order_out_of_scope(alloc, text, query, pattern)?;
    ambiguous_order_name(alloc, query, pattern)?;
    parts.names.unknown_function(alloc)?;
    parts.names.argument_count(alloc)?;
    too_many_patterns(pattern, parts.exists.as_slice())?;
    too_many_reads(alloc, parts)?;
    too_many_columns(columns)
}

/// Two columns have one name.
fn column_repeated(alloc: Global, columns: &[Column]) -> Result<(), BindRefusal>
    ensures { Checks (refusals.column_repeated columns.now) result }
{
    let mut met = Names::new(alloc);
    for column in columns {
        if met.contains(&column.name) {
            let name = column.name.try_clone(alloc)?;
            return Err(BindRefusal::ColumnRepeated { name });
        }
        met.push_name(&column.name)?;
    }
    Ok(())
}

/// `*` stands for no variable.
fn nothing_to_return(star: bool, named: &[NamedVariable<'_>]) -> Result<(), BindRefusal>
    ensures { Checks (nothing star named.now) result }
{
    if star && named.is_empty() {
        Err(BindRefusal::NothingToReturn)
    } else {
        Ok(())
    }
}

/// There are too many columns.
fn too_many_columns(columns: &[Column]) -> Result<(), BindRefusal>
    ensures { Checks (over_limit max_columns (length columns.now) refusal.TooManyColumns) result }
{
    if columns.len() > MAX_COLUMNS {
        Err(BindRefusal::TooManyColumns)
    } else {
        Ok(())
    }
}
