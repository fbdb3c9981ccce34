//! What continues a row of an alternative: the optional clauses or the trails of its query. Each is
//! begun with an assignment and gives rows, one after another, which go into the table.
ghost use Rattle.std.specs.Prelude.{◌≡◌, ◌∷◌, [], List, false, map, true, IsSome, OnOk};
ghost use Rattle.gq_drain.specs.steps.Continued.{Continuation};
ghost use Rattle.gq_kept.specs.Chunks.{PushesAll};
ghost use Rattle.gq_kept.specs.Tables.{IsSameQuery, StandsForSome, is_full_table};
ghost use Rattle.gq_law_plans.specs.Safe.{IsMade};
ghost use Rattle.gq_outer.specs.Rows.{read};
ghost use Rattle.gq_plan.specs.Marked.{Marked, ending};
ghost use Rattle.gq_rows.specs.Growing.{IsContinued};

use gq_expr::Fault;
use gq_group::ChunkRow;
use gq_outer::WideRow;
use gq_rows::{More, RowRefusal, RowTable};

/// What continues the assignments of an alternative by rows of all variables of the query, of which
/// conjuncts and tests leave some. It takes no memory.
pub(crate) trait Continues {
    /// The graph, the alternative, and the rows by which each assignment is continued.
    ghost continuation: { Self → Continuation };

    /// It can be begun with an assignment.
    ghost ready: { Self → Type 0 };

    /// The rows that are owed, the one that was reached last, and whether it stands.
    ghost owed: { Self → List Marked };

    ghost reached: { Self → Marked };

    ghost stands: { Self → Type 0 };

    /// From now on the rows are owed by which an assignment is continued.
    fn begin(&mut self, row: &ChunkRow<'_, '_, '_, '_, '_>)
        requires ready { ready self.old }
        requires made { let way = continuation self.old in IsMade way.graph way.typed row.now }
        ensures owed { owed self.new ≡ (continuation self.old).rows row.now }
        ensures ready { ready self.new }
        ensures same { continuation self.new ≡ continuation self.old };

    /// Goes on to the next row that is owed, and answers whether there is one.
    fn advance(&mut self) -> bool
        requires ready { ready self.old }
        ensures next { result ≡ true → owed self.old ≡ reached self.new ∷ owed self.new }
        ensures stands { result ≡ true → stands self.new }
        ensures none { result ≡ false → owed self.old ≡ [] }
        ensures ready { ready self.new }
        ensures same { continuation self.new ≡ continuation self.old };

    /// The row that stands.
    fn row(&self) -> &WideRow
        requires { stands self.now }
        ensures { read result.now ≡ (reached self.now).row };

    /// The fault that marks it, if one does.
    fn fault(&self) -> Option<Fault>
        ensures { result ≡ (reached self.now).mark };
}

/// Pushes the outcomes of the rows that are owed, one after another, until none is owed or the
/// table has enough.
pub(crate) fn push_owed<C: Continues>(
    table: &mut RowTable<'_>,
    rows: &mut C,
) -> Result<More, RowRefusal>
    requires continued { IsContinued table.old.bound }
    requires ready { C.ready rows.old }
    requires started { IsSome table.old.alternative }
    requires stands { StandsForSome table.old }
    requires room { is_full_table table.old ≡ false }
    ensures pushes { let os = map (ending table.old.graph table.old.bound) (C.owed rows.old) in
        PushesAll os table.old table.new result }
    ensures query { OnOk result (IsSameQuery table.old table.new) }
    ensures ready { C.ready rows.new }
    ensures same { C.continuation rows.new ≡ C.continuation rows.old }
{
    'rows: while rows.advance() {
        match table.push_wide(rows.row(), rows.fault()) {
            Ok(More::Go) => {}
            Ok(More::Enough) => return Ok(More::Enough),
            Err(refusal) => return Err(refusal),
        }
    }
    Ok(More::Go)
}
