//! The variables of an assignment, copied into a row of a query's variables.
ghost use Rattle.std.specs.Prelude.{◌≡◌, ◌^◌, ◌<◌, ◌≤◌, length};
ghost use Rattle.gq_drain.specs.steps.Behind.{IsBlankFrom};
ghost use Rattle.gq_drain.specs.steps.Copied.{Copies};
ghost use Rattle.gq_outer.specs.Rows.{read};
ghost use Rattle.gq_plan.specs.Assignments.{row_of};

use gq_expr::Assigned;
use gq_group::ChunkRow;
use gq_outer::WideRow;
use gq_plan::Typed;

// Gives the first node variables of a row what they have in an assignment.
fn copy_nodes<R: Assigned>(wide: &mut WideRow, row: &R, count: usize)
    requires there { count ≤ length wide.old.nodes }
    requires few { length wide.old.nodes < 2 ^ 32 }
    ensures nodes { Copies (R.assignment row.now).nodes count wide.old.nodes wide.new.nodes }
    ensures rels { wide.new.rels ≡ wide.old.rels }
{
    'variables: for variable in 0..count {
        wide.set_node(variable as u32, row.node(variable as u32));
    }
}

// Gives the first relationship variables of a row what they have in an assignment.
fn copy_rels<R: Assigned>(wide: &mut WideRow, row: &R, count: usize)
    requires there { count ≤ length wide.old.rels }
    requires few { length wide.old.rels < 2 ^ 32 }
    ensures rels { Copies (R.assignment row.now).rels count wide.old.rels wide.new.rels }
    ensures nodes { wide.new.nodes ≡ wide.old.nodes }
{
    'variables: for variable in 0..count {
        wide.set_rel(variable as u32, row.rel(variable as u32));
    }
}

/// Gives the variables of an alternative what they have in an assignment of it; the others have
/// nothing.
pub(crate) fn copy_row(wide: &mut WideRow, row: &ChunkRow<'_, '_, '_, '_, '_>, typed: &Typed)
    requires nodes { length row.now.nodes ≡ length typed.now.nodes }
    requires rels { length row.now.rels ≡ length typed.now.rels }
    requires blank { IsBlankFrom (length typed.now.nodes) (length typed.now.rels)
        (length wide.old.nodes) (length wide.old.rels) wide.old }
    requires some_nodes { length typed.now.nodes ≤ length wide.old.nodes }
    requires some_rels { length typed.now.rels ≤ length wide.old.rels }
    requires few_nodes { length wide.old.nodes < 2 ^ 32 }
    requires few_rels { length wide.old.rels < 2 ^ 32 }
    ensures reads { read wide.new ≡ row_of row.now }
    ensures blank { IsBlankFrom (length typed.now.nodes) (length typed.now.rels)
        (length wide.old.nodes) (length wide.old.rels) wide.new }
{
    copy_nodes(wide, row, typed.nodes.len());
    copy_rels(wide, row, typed.rels.len());
}
