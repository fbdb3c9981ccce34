//! What answers a statement, and what a reply is like.

ghost use Rattle.std.specs.Prelude.{◌≡◌, ◌≤◌, List, ℕ, length};
ghost use Rattle.gq_io.specs.Causes.{HasCause};
ghost use Rattle.gq_session.specs.Replies.{Answered, Rule};
ghost use Rattle.gq_session.specs.Tones.{worse};
ghost use Rattle.gq_session.specs.declared.answering.Tone.{Tone};

use gq_base::Memory;
use gq_io::{Failed, Sink};

/// What a reply is like, the worst last.
#[derive(Clone, Copy, Debug, PartialEq, Eq)]
pub enum Tone {
    /// No refusal.
    Good,
    /// A refusal line.
    Refused,
    /// The line of want of memory, and its cause.
    Memory(Memory),
}

impl Tone {
    /// The worse of two; of two wants of memory the first.
    pub fn worse(self, other: Tone) -> Tone
        ensures { result ≡ worse self other }
    {
        match self {
            Tone::Memory(first) => Tone::Memory(first),
            Tone::Refused => match other {
                Tone::Memory(second) => Tone::Memory(second),
                Tone::Refused | Tone::Good => Tone::Refused,
            },
            Tone::Good => other,
        }
    }
}

/// Something that answers a statement.
pub trait Answerer {
    /// What each answer is lent to work in, as a pool of buffers.
    type Workspace;

    /// What a workspace keeps from one statement to the next.
    ghost State: { Type 0 };

    ghost state: { Self.Workspace → State };

    /// The replies that a statement may have in a state, what each is like, and the state then.
    ghost answers: { Self → Rule State };

    /// An answer can work in it.
    ghost ready: { Self.Workspace → Type 0 };

    /// The longest statement that it answers, in bytes.
    ghost longest: { ℕ };

    /// Writes a reply to the statement, and says what it is like. After `Failed` some front of a
    /// reply was written.
    fn answer<O: Sink>(
        &self,
        workspace: &mut Self::Workspace,
        statement: &[u8],
        out: &mut O,
    ) -> Result<Tone, Failed>
        requires ready { ready workspace.old }
        requires fits { length statement.now ≤ longest }
        ensures ready { ready workspace.new }
        ensures bytes { Answered (answers self.now (state workspace.old) statement.now)
            (state workspace.new) (O.taken out.old) (O.taken out.new) result }
        ensures cause { HasCause (O.faults out.old) (O.faults out.new) result };

    /// In each state each statement has a reply.
    ghost has_reply: { (a : Self) (before : State) (statement : List ℕ) → (t : Tone)
        × (reply : List ℕ) × (after : State) × answers a before statement t reply after };
}
