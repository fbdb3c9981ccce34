//! Names in headers, plans and refusals.

ghost use Rattle.gq_io.specs.Causes.{HasCause};
ghost use Rattle.gq_io.specs.Outside.{Writes};
ghost use Rattle.gq_io.specs.Putting.{Puts};
ghost use Rattle.gq_render.specs.Texts.{name_text};

use crate::escape::{Escaping, put_escaped};
use gq_base::Text;
use gq_io::{Batch, Failed, Sink};

/// Puts a name, or a part of one, into a batch, as `write_name` writes it. It takes no memory. After `Failed` the sink took
/// some front of what had waited and of that text.
pub fn put_name<O: Sink>(batch: &mut Batch, out: &mut O, name: &str) -> Result<(), Failed>
    ensures bytes { Puts (O.taken out.old) (O.taken out.new) batch.old batch.new
        (name_text name.now) result }
    ensures cause { HasCause (O.faults out.old) (O.faults out.new) result }
{
    put_escaped(batch, out, Escaping::Name, name.as_bytes())
}

/// Writes a name as it is, but backslash, LF, CR and tab as `\\`, `\n`, `\r` and `\t`. After `Failed` the sink took some
/// front of that text.
pub fn write_name<O: Sink>(out: &mut O, name: &Text) -> Result<(), Failed>
    ensures bytes { Writes (O.taken out.old) (O.taken out.new) (name_text name.now) result }
    ensures cause { HasCause (O.faults out.old) (O.faults out.new) result }
{
    let mut batch = Batch::new();
    put_name(&mut batch, out, name.as_str())?;
    batch.flush(out)
}
