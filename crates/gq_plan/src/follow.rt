//! How a step follows a relationship.

ghost use Rattle.std.specs.Prelude.{◌≡◌};

use gq_base::Direction;

/// How a step follows a relationship: its variable, the node variables from and to which, and which
/// way. Whether it goes through a list or by a column, the step's kind tells.
#[derive(Clone, Copy)]
pub struct Follow {
    pub rel: u32,
    pub from: u32,
    pub to: u32,
    pub direction: Direction,
}

/// A way to follow a relationship, of its parts.
pub fn following(rel: u32, from: u32, to: u32, direction: Direction) -> Follow
    ensures { result ≡ record { rel = rel; from = from; to = to; direction = direction } }
{
    Follow {
        rel,
        from,
        to,
        direction,
    }
}
