//! The matches of an alternative that agree with a row.
ghost use Rattle.std.specs.Prelude.{◌≡◌, ◌<◌, true, false, Some, None, All, drop, length, map};
ghost use Rattle.gq_optional.specs.steps.Levels.{AreRowsOf, agreeing_in, pending_of};
ghost use Rattle.gq_optional.specs.steps.Listed.{IsWhole, agreeing, match_at};
ghost use Rattle.gq_optional.specs.steps.Looked.{asked_rows, count_shared};
ghost use Rattle.gq_outer.specs.Rows.{read};

use crate::clause::{Clause, Matches};
use gq_expr::Assigned;
use gq_outer::WideRow;

/// The rows of the alternative of a number whose matches agree with a row. The key is work space.
pub(crate) fn rows_of<'w>(
    clause: &'w Clause<'_>,
    at: usize,
    row: &WideRow,
    key: &mut [u32],
) -> &'w [u32]
    requires whole { let c = clause.now in
        All (IsWhole c.shared c.part.now.nodes) c.matches.items }
    requires key { length key.old ≡ count_shared clause.now.shared }
    ensures pending { let left = drop at clause.now.matches.items in
        pending_of clause.now (read row.now) left result.now
        ≡ agreeing_in clause.now (read row.now) left }
    ensures rows { AreRowsOf (drop at clause.now.matches.items) result.now }
    ensures count { length key.new ≡ length key.old }
{
    match clause.matches.get(at) {
        None => &[],
        Some(matches) => look_up(
            matches,
            clause.shared.as_slice(),
            clause.part.nodes.as_slice(),
            row,
            key,
        ),
    }
}

// The rows of a build whose matches have the nodes that a row has at the shared variables; none
// where a shared variable is null, or of another table. The key is work space.
fn look_up<'w>(
    matches: &'w Matches<'_>,
    shared: &[bool],
    nodes: &[u32],
    row: &WideRow,
    key: &mut [u32],
) -> &'w [u32]
    requires whole { IsWhole shared.now nodes.now matches.now }
    requires key { length key.old ≡ count_shared shared.now }
    ensures value { map (match_at matches.now) result.now
        ≡ agreeing shared.now nodes.now (read row.now) matches.now }
    ensures inside { All (λ i. i < length matches.now.build.rows) result.now }
    ensures count { length key.new ≡ length key.old }
{
    if !read_key(key, shared, nodes, matches.typed.nodes.as_slice(), row) {
        return &[];
    }
    matches.build.matches(key)
}

// Whether a row has nodes of these tables at the shared variables. Their rows are written into the
// key.
fn read_key(key: &mut [u32], shared: &[bool], nodes: &[u32], tables: &[u32], row: &WideRow) -> bool
    requires key { length key.old ≡ count_shared shared.now }
    requires wide { length shared.now ≡ length nodes.now }
    requires tables { length tables.now ≡ length nodes.now }
    ensures count { length key.new ≡ length key.old }
    ensures yes { let asked = asked_rows shared.now nodes.now tables.now (read row.now).nodes in
        result ≡ true → asked ≡ Some key.new }
    ensures no { let asked = asked_rows shared.now nodes.now tables.now (read row.now).nodes in
        result ≡ false → asked ≡ None }
{
    let Some((is_shared, shared)) = shared.split_first() else {
        return true;
    };
    let Some((variable, nodes)) = nodes.split_first() else {
        return true;
    };
    let Some((table, tables)) = tables.split_first() else {
        return true;
    };
    if !*is_shared {
        return read_key(key, shared, nodes, tables, row);
    }
    let Some(node) = row.node(*variable) else {
        return false;
    };
    if node.table != *table {
        return false;
    }
    let Some((first, key)) = key.split_first_mut() else {
        return false;
    };
    *first = node.row;
    read_key(key, shared, nodes, tables, row)
}
