//! What answers statements over a graph.

ghost use Rattle.std.specs.Prelude.{◌≡◌, ◌≤◌, List, refl, true};
ghost use Rattle.gq_base.specs.declared.memory.Memory.TheVariants.{Exhausted};
ghost use Rattle.gq_pool.specs.Pool.{spare_of};
ghost use Rattle.gq_reply.specs.Replies.{IsTurn, context_of, memory_line};
ghost use Rattle.gq_session.specs.declared.answering.Tone.TheVariants as tone;
ghost use Rattle.gq_tokens.specs.Parameters.{are_params};
ghost use Rattle.gq_tokens.specs.declared.params.Param.{Param};

use gq_execute::Settings;
use gq_io::{Failed, Sink};
use gq_pool::VectorPool;
use gq_session::{Answerer, Tone};
use gq_store::Graph;
use gq_syntax::Params;
use std::alloc::Global;

/// How the rows of a query are written.
#[derive(Clone, Copy, Debug, PartialEq, Eq)]
pub enum Extent {
    /// The names of the columns, each row, and how many rows there are.
    Full,
    /// The first and the last row, and how many rows there are.
    Short,
}

/// What answers statements: the graph that they ask, how rows are found, and how they are written.
#[derive(Clone, Copy)]
pub struct Replier<'g> {
    pub alloc: Global,
    pub graph: &'g Graph,
    pub settings: Settings,
    pub extent: Extent,
}

/// What a session keeps from one statement to the next: the pool that pipelines take their slots
/// from, of which all are free again then, and the parameters.
#[derive(Drop)]
pub struct Workspace {
    pub pool: VectorPool,
    pub params: Params,
}

impl Answerer for Replier<'_> {
    type Workspace = Workspace;

    ghost State = { List Param };

    ghost state = { λ workspace. workspace.params };

    ghost answers = { λ r. IsTurn (context_of r) };

    ghost ready = { λ w. (112 ≤ spare_of w.pool) × (are_params w.params ≡ true) };

    ghost longest = { 65536 };

    fn answer<O: Sink>(
        &self,
        workspace: &mut Workspace,
        statement: &[u8],
        out: &mut O,
    ) -> Result<Tone, Failed> {
        self.reply(out, workspace, statement)
    }

    ghost has_reply = { λ _ params statement.
        (tone.Memory Exhausted, memory_line, params, (refl, refl)) };
}
