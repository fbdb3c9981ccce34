//! The longest input, far shorter here than the program's, which no run shows.

ghost use Rattle.std.specs.Prelude.{◌≡◌, ◌++◌, ◌∷◌, [], refl};
ghost use Rattle.gq_session.specs.declared.answering.Tone.TheVariants.{Good};

use crate::made::Test;
use gq_base::{Bytes, List};
use gq_io::{Failed, MemorySink, MemorySource, Sink, write_all};
use gq_session::{Answerer, Stop, Tone, session};

// The longest input.
const MOST: usize = 131_080;

// Replies by the statement itself and a bar.
struct Echo;

impl Answerer for Echo {
    type Workspace = ();

    ghost State = { Unit {0} };

    ghost state = { λ _. tt };

    ghost answers = { λ _ before statement tone reply after.
        (tone ≡ Good) × (reply ≡ statement ++ 124 ∷ []) };

    ghost ready = { λ _. Unit {0} };

    ghost longest = { 65536 };

    fn answer<O: Sink>(
        &self,
        _workspace: &mut (),
        statement: &[u8],
        out: &mut O,
    ) -> Result<Tone, Failed> {
        let Ok(()) = write_all(out, statement) else {
            return Err(Failed);
        };
        let Ok(()) = write_all(out, b"|") else {
            return Err(Failed);
        };
        Ok(Tone::Good)
    }

    ghost has_reply = { λ _ before statement. (Good, statement ++ 124 ∷ [], tt, (refl, refl)) };
}

// How a session over so many `;` ended, and how many bytes it wrote, where the input comes in such pieces.
fn ran(rt: &impl Test, count: usize, piece: u32) -> (Result<Tone, Stop>, usize) {
    let mut out = sink(rt);
    let result = run(rt, &mut source(rt, count, piece), &mut out);
    (result, out.taken().len())
}

fn source(rt: &impl Test, count: usize, piece: u32) -> MemorySource {
    assert!(rt; piece > 0, "a piece has a byte");
    let text = vec![in rt.alloc(); b';'; count].expect(rt, "memory");
    MemorySource::new(Bytes::from_vec(text), piece, List::new(rt.alloc()))
}

fn run(rt: &impl Test, input: &mut MemorySource, out: &mut MemorySink) -> Result<Tone, Stop> {
    let mut statement = vec![in rt.alloc(); 0u8; 65_536].expect(rt, "memory");
    let mut workspace = ();
    session(&Echo, &mut workspace, &mut statement, MOST, input, out)
}

fn sink(rt: &impl Test) -> MemorySink {
    MemorySink::new(rt.alloc(), 140_000, 100_000, List::new(rt.alloc())).expect(rt, "memory")
}

// The longest input, which ends with a statement that has no `;`, and one byte more, behind which nothing is answered.
#[test]
fn the_longest_input_is_read_whole(rt: HostRuntime) {
    for piece in [1, 7, 4_096, 65_536] {
        assert!(rt;
            ran(&rt, 131_080, piece) == (Ok(Tone::Good), 131_081),
            "{piece}"
        );
        assert!(rt;
            ran(&rt, 131_081, piece) == (Err(Stop::TooLong), 131_080),
            "{piece}"
        );
    }
}
