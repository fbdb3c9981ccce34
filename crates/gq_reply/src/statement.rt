//! The reply to a statement.

ghost use Rattle.std.specs.Prelude.{◌≡◌, ◌≤◌, ℕ, List, length, true, IfOk, Err};
ghost use Rattle.gq_pool.specs.Pool.{spare_of};
ghost use Rattle.gq_reply.specs.Replies.{AreBehind, IsReply, asked_by, context_of};
ghost use Rattle.gq_reply.specs.steps.Steps.{Replied};
ghost use Rattle.gq_session.specs.Sessions.{span_of};
ghost use Rattle.gq_syntax.specs.Outcomes.{Cause, SpelledText, SyntaxAt};
ghost use Rattle.gq_syntax.specs.RefusalNames.{name_of};
ghost use Rattle.gq_syntax.specs.Spans.{SpelledQuery};
ghost use Rattle.gq_syntax.specs.declared.refusal.SyntaxRefusal.TheVariants as refused;
ghost use Rattle.gq_ast.specs.declared.statement.Statement.TheVariants as tree;
ghost use Rattle.gq_tokens.specs.Parameters.{are_params};
ghost use Rattle.gq_tokens.specs.declared.params.Param.{Param};

use crate::bind_line::{tone_of, write_bind_refusal};
use crate::blank::{is_blank, is_white};
use crate::error_line::{write_at, write_named};
use crate::param::reply_to_param;
use crate::replier::{Replier, Workspace};
use crate::tone::{reply_memory, toned};
use gq_base::Memory;
use gq_binder::bind;
use gq_explain::write_schema;
use gq_io::{Failed, Sink};
use gq_pool::VectorPool;
use gq_session::Tone;
use gq_syntax::{Query, Statement, SyntaxRefusal, parse};

impl Replier<'_> {
    // Replies to the query that a statement's tokens spell, behind `:profile` or not.
    fn reply_to_asked<O: Sink>(
        &self,
        out: &mut O,
        pool: &mut VectorPool,
        statement: &[u8],
        query: &Query,
        profiled: bool,
    ) -> Result<Tone, Failed>
        requires spelled { SpelledQuery statement.now query.now }
        requires slots { 112 ≤ spare_of pool.old }
        ensures replies { (params : List Param)
            → SpelledText statement.now params (asked_by profiled query.now)
            → Replied (IsReply (context_of self.now) params statement.now)
            (span_of O.taken O.faults out.old out.new) result }
        ensures slots { spare_of pool.new ≡ spare_of pool.old }
    {
        match bind(self.alloc, query, statement, self.graph.catalog()) {
            Ok(bound) => self.reply_to_query(out, pool, &bound, profiled),
            Err(refusal) => toned(write_bind_refusal(out, &refusal), tone_of(&refusal)),
        }
    }

    // Replies to a statement that asks for the plans of a query.
    fn reply_to_planned<O: Sink>(
        &self,
        out: &mut O,
        statement: &[u8],
        query: &Query,
    ) -> Result<Tone, Failed>
        requires { SpelledQuery statement.now query.now }
        ensures { (params : List Param) → SpelledText statement.now params (tree.Plan query.now)
            → Replied (IsReply (context_of self.now) params statement.now)
            (span_of O.taken O.faults out.old out.new) result }
    {
        match bind(self.alloc, query, statement, self.graph.catalog()) {
            Ok(bound) => self.reply_to_plan(out, query, &bound),
            Err(refusal) => toned(write_bind_refusal(out, &refusal), tone_of(&refusal)),
        }
    }

    // Replies to a statement whose tokens spell this tree.
    fn reply_to_tree<O: Sink>(
        &self,
        out: &mut O,
        workspace: &mut Workspace,
        statement: &[u8],
        tree: Statement,
    ) -> Result<Tone, Failed>
        requires spelled { SpelledText statement.now workspace.old.params tree }
        requires params { are_params workspace.old.params ≡ true }
        requires slots { 112 ≤ spare_of workspace.old.pool }
        ensures replies { Replied (IsReply (context_of self.now) workspace.old.params statement.now)
            (span_of O.taken O.faults out.old out.new) result }
        ensures behind { IfOk result (λ t. AreBehind workspace.old.params statement.now t
            workspace.new.params) }
        ensures params { are_params workspace.new.params ≡ true }
        ensures slots { spare_of workspace.new.pool ≡ spare_of workspace.old.pool }
    {
        let Workspace { pool, params } = workspace;
        match tree {
            Statement::Query(query) => self.reply_to_asked(out, pool, statement, &query, false),
            Statement::Plan(query) => self.reply_to_planned(out, statement, &query),
            Statement::Profile(query) => self.reply_to_asked(out, pool, statement, &query, true),
            Statement::Schema => toned(write_schema(out, self.graph), Tone::Good),
            Statement::Param(name, value) => reply_to_param(out, params, name, value),
        }
    }

    // Replies to a statement that is spelled by no tree, as it goes wrong there.
    fn reply_to_syntax<O: Sink>(
        &self,
        out: &mut O,
        statement: &[u8],
        why: &str,
        at: u32,
    ) -> Result<Tone, Failed>
        requires named { why.now ≡ name_of (refused.Syntax at) }
        requires cause { SyntaxAt statement.now at }
        ensures replies { (params : List Param)
            → Replied (IsReply (context_of self.now) params statement.now)
            (span_of O.taken O.faults out.old out.new) result }
        ensures blank { IfOk result (λ t. (params : List Param)
            → AreBehind params statement.now t params) }
    {
        match is_blank(self.alloc, statement, at) {
            Ok(true) => Ok(Tone::Good),
            Ok(false) => toned(write_at(out, why, at), Tone::Refused),
            Err(memory) => reply_memory(out, memory),
        }
    }

    // Replies to a statement that is refused by its tokens. The parameters stay.
    fn reply_to_refused<O: Sink>(
        &self,
        out: &mut O,
        statement: &[u8],
        refusal: &SyntaxRefusal,
    ) -> Result<Tone, Failed>
        requires syntax { (at : ℕ) → refusal.now ≡ refused.Syntax at → SyntaxAt statement.now at }
        ensures replies { (params : List Param) → Cause statement.now params (Err refusal.now)
            → Replied (IsReply (context_of self.now) params statement.now)
            (span_of O.taken O.faults out.old out.new) result }
        ensures behind { IfOk result (λ t. (params : List Param)
            → AreBehind params statement.now t params) }
    {
        let why = refusal.name();
        match refusal {
            SyntaxRefusal::Lex { at } => toned(write_at(out, why, *at), Tone::Refused),
            SyntaxRefusal::Syntax { at } => self.reply_to_syntax(out, statement, why, *at),
            SyntaxRefusal::Depth { at } => toned(write_at(out, why, *at), Tone::Refused),
            SyntaxRefusal::UnknownParameter { name } => {
                toned(write_named(out, why, name), Tone::Refused)
            }
            SyntaxRefusal::Memory => reply_memory(out, Memory::Exhausted),
        }
    }

    /// Replies to a statement of at most 65,536 bytes, which may set one of the parameters. The pool
    /// has as many free slots afterwards.
    pub(crate) fn reply<O: Sink>(
        &self,
        out: &mut O,
        workspace: &mut Workspace,
        statement: &[u8],
    ) -> Result<Tone, Failed>
        requires fits { length statement.now ≤ 65536 }
        requires params { are_params workspace.old.params ≡ true }
        requires slots { 112 ≤ spare_of workspace.old.pool }
        ensures replies { Replied (IsReply (context_of self.now) workspace.old.params statement.now)
            (span_of O.taken O.faults out.old out.new) result }
        ensures behind { IfOk result (λ t. AreBehind workspace.old.params statement.now t
            workspace.new.params) }
        ensures params { are_params workspace.new.params ≡ true }
        ensures slots { spare_of workspace.new.pool ≡ spare_of workspace.old.pool }
    {
        if is_white(statement) {
            return Ok(Tone::Good);
        }
        match parse(self.alloc, statement, &workspace.params) {
            Ok(tree) => self.reply_to_tree(out, workspace, statement, tree),
            Err(refusal) => self.reply_to_refused(out, statement, &refusal),
        }
    }
}
