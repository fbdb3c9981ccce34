//! The two directions in which a relationship is followed.
ghost use Rattle.std.specs.Prelude.{◌≡◌};
ghost use Rattle.gq_base.specs.Directions.{opposite};

/// Whether a relationship is followed from its source to its target, or from its target to its source.
#[derive(Clone, Copy, Debug, PartialEq, Eq)]
pub enum Direction {
    /// From its source to its target.
    Forward,
    /// From its target to its source.
    Backward,
}

impl Direction {
    /// The other direction.
    pub fn opposite(self) -> Direction
        ensures { result ≡ opposite self }
    {
        match self {
            Direction::Forward => Direction::Backward,
            Direction::Backward => Direction::Forward,
        }
    }
}
