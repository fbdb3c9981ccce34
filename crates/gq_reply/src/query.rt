//! The reply to a query that is bound.

ghost use Rattle.std.specs.Prelude.{◌≡◌, ◌≤◌};
ghost use Rattle.gq_execute.specs.Ready.{IsReady};
ghost use Rattle.gq_io.specs.Causes.{HasCause};
ghost use Rattle.gq_io.specs.Outside.{Writes};
ghost use Rattle.gq_pool.specs.Pool.{spare_of};
ghost use Rattle.gq_reply.specs.Replies.{context_of};
ghost use Rattle.gq_reply.specs.ReplyTexts.{fault_text, many_text, rows_text};
ghost use Rattle.gq_reply.specs.steps.Steps.{Asks, answer_text};
ghost use Rattle.gq_session.specs.Sessions.{span_of};

use crate::error_line::write_error;
use crate::replier::{Extent, Replier};
use crate::spent::write_spent;
use crate::tone::{reply_memory, toned};
use gq_execute::{Answer, AnswerRefusal, answer};
use gq_expr::Fault;
use gq_io::{Failed, Sink};
use gq_plan::Bound;
use gq_pool::VectorPool;
use gq_render::{Piece, write_ends, write_listing};
use gq_rows::Listing;
use gq_session::Tone;

// Writes the line of a query that has a fault.
fn write_fault<O: Sink>(out: &mut O, fault: Fault) -> Result<(), Failed>
    ensures bytes { Writes (O.taken out.old) (O.taken out.new) (fault_text fault) result }
    ensures cause { HasCause (O.faults out.old) (O.faults out.new) result }
{
    write_error(out, "Fault", " ", Piece::Plain(fault.name()))
}

// Writes the line of a query that would keep more rows than these.
fn write_many<O: Sink>(out: &mut O, rows: u32) -> Result<(), Failed>
    ensures bytes { Writes (O.taken out.old) (O.taken out.new) (many_text rows) result }
    ensures cause { HasCause (O.faults out.old) (O.faults out.new) result }
{
    write_error(out, "TooManyRows", " ", Piece::Number(rows as usize))
}

impl Replier<'_> {
    // Writes the rows of a query.
    fn write_rows<O: Sink>(
        &self,
        out: &mut O,
        bound: &Bound,
        listing: &Listing<'_>,
    ) -> Result<(), Failed>
        ensures bytes { Writes (O.taken out.old) (O.taken out.new)
            (rows_text self.now.extent self.now.graph.now bound.now listing.now.lines) result }
        ensures cause { HasCause (O.faults out.old) (O.faults out.new) result }
    {
        match self.extent {
            Extent::Full => write_listing(out, self.graph, bound, listing),
            Extent::Short => write_ends(out, self.graph, listing),
        }
    }

    // Writes the rows of a query, behind what its pipelines spent where its profile is asked for.
    fn write_answer<O: Sink>(
        &self,
        out: &mut O,
        bound: &Bound,
        found: &Answer<'_>,
        profiled: bool,
    ) -> Result<(), Failed>
        ensures bytes { let lines = found.now.listing.lines in
            Writes (O.taken out.old) (O.taken out.new)
            (answer_text (context_of self.now) profiled bound.now found.now.spent lines) result }
        ensures cause { HasCause (O.faults out.old) (O.faults out.new) result }
    {
        if !profiled {
            return self.write_rows(out, bound, &found.listing);
        }
        match write_spent(out, &found.spent) {
            Ok(()) => self.write_rows(out, bound, &found.listing),
            Err(Failed) => Err(Failed),
        }
    }

    /// Replies to a query that is bound, or to one whose profile is asked for: with its rows, or
    /// with the line that says why there are none.
    /// The pool has as many free slots afterwards.
    pub(crate) fn reply_to_query<O: Sink>(
        &self,
        out: &mut O,
        pool: &mut VectorPool,
        bound: &Bound,
        profiled: bool,
    ) -> Result<Tone, Failed>
        requires ready { IsReady self.now.graph.now.catalog bound.now }
        requires slots { 112 ≤ spare_of pool.old }
        ensures asks { Asks (context_of self.now) profiled bound.now
            (span_of O.taken O.faults out.old out.new) result }
        ensures slots { spare_of pool.new ≡ spare_of pool.old }
    {
        match answer(self.alloc, self.graph, bound, pool, &self.settings) {
            Ok(found) => toned(self.write_answer(out, bound, &found, profiled), Tone::Good),
            Err(AnswerRefusal::Fault(fault)) => toned(write_fault(out, fault), Tone::Refused),
            Err(AnswerRefusal::TooManyRows { .. }) => {
                toned(write_many(out, self.settings.rows), Tone::Refused)
            }
            Err(AnswerRefusal::Memory(memory)) => reply_memory(out, memory),
        }
    }
}
