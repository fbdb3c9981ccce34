//! The reply to a statement that sets a parameter.

ghost use Rattle.std.specs.Prelude.{◌≡◌, true, IfOk};
ghost use Rattle.gq_reply.specs.steps.Steps.{MaySet, Replied, behind_set};
ghost use Rattle.gq_session.specs.Sessions.{span_of};
ghost use Rattle.gq_tokens.specs.Parameters.{are_params};

use crate::error_line::write_error;
use crate::tone::{reply_memory, toned};
use gq_base::{Literal, Memory, Text};
use gq_io::{Failed, Sink};
use gq_render::{Piece, write_param};
use gq_session::Tone;
use gq_syntax::{ParamRefusal, Params};

/// Sets a parameter, and replies with its name and its value; or with the line that says why it is
/// not set.
pub fn reply_to_param<O: Sink>(
    out: &mut O,
    params: &mut Params,
    name: Text,
    value: Literal,
) -> Result<Tone, Failed>
    requires { are_params params.old ≡ true }
    ensures replies { Replied (MaySet params.old name value)
        (span_of O.taken O.faults out.old out.new) result }
    ensures behind { IfOk result (λ t. params.new ≡ behind_set params.old name value t) }
    ensures params { are_params params.new ≡ true }
{
    let Ok(key) = name.clone() else {
        return reply_memory(out, Memory::Exhausted);
    };
    match params.set(key, value) {
        Ok(()) => match params.get(name.as_str()) {
            Some(value) => toned(write_param(out, name.as_str(), value), Tone::Good),
            None => unreachable!(),
        },
        Err(ParamRefusal::TooMany) => toned(
            write_error(out, "TooManyParameters", "", Piece::Plain("")),
            Tone::Refused,
        ),
        Err(ParamRefusal::Memory) => reply_memory(out, Memory::Exhausted),
    }
}
