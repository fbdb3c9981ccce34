//! Texts in which some bytes are written with a backslash.

ghost use Rattle.std.specs.Prelude.{◌≡◌, [], ◌∷◌, ◌++◌, MatchOption, flat_map};
ghost use Rattle.gq_io.specs.Causes.{HasCause};
ghost use Rattle.gq_io.specs.Putting.{Puts};
ghost use Rattle.gq_render.specs.steps.Escapes.{byte_text};

use gq_io::{Batch, Failed, Sink};

// Which bytes are written with a backslash: backslash, LF, CR and tab, and in a quoted string the
// single quote too.
#[derive(Clone, Copy)]
pub(crate) enum Escaping {
    Name,
    Quoted,
}

// The byte behind the backslash, where the byte is written with one.
fn escape_of(escaping: Escaping, byte: u8) -> Option<u8>
    ensures { MatchOption result (byte_text escaping byte ≡ byte ∷ [])
        (λ letter. byte_text escaping byte ≡ 92 ∷ letter ∷ []) }
{
    match (byte, escaping) {
        (b'\\', _) => Some(b'\\'),
        (b'\n', _) => Some(b'n'),
        (b'\r', _) => Some(b'r'),
        (b'\t', _) => Some(b't'),
        (b'\'', Escaping::Quoted) => Some(b'\''),
        _ => None,
    }
}

// Puts bytes that stand for themselves, and behind them an escape.
fn put_run<O: Sink>(batch: &mut Batch, out: &mut O, plain: &[u8], letter: u8) -> Result<(), Failed>
    ensures bytes { Puts (O.taken out.old) (O.taken out.new) batch.old batch.new
        (plain.now ++ 92 ∷ letter ∷ []) result }
    ensures cause { HasCause (O.faults out.old) (O.faults out.new) result }
{
    batch.put(out, plain)?;
    batch.put(out, &[b'\\', letter])
}

// Puts a text that is escaped so. Bytes that stand for themselves are put together.
pub(crate) fn put_escaped<O: Sink>(
    batch: &mut Batch,
    out: &mut O,
    escaping: Escaping,
    text: &[u8],
) -> Result<(), Failed>
    ensures bytes { Puts (O.taken out.old) (O.taken out.new) batch.old batch.new
        (flat_map (byte_text escaping) text.now) result }
    ensures cause { HasCause (O.faults out.old) (O.faults out.new) result }
{
    let mut start = 0;
    for (at, byte) in text.iter().enumerate() {
        if let Some(letter) = escape_of(escaping, *byte) {
            put_run(batch, out, &text[start..at], letter)?;
            start = at + 1;
        }
    }
    batch.put(out, &text[start..])
}
