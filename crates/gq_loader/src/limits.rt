//! How much a load may read.
ghost use Rattle.std.specs.Prelude.{◌≡◌};
ghost use Rattle.gq_loader.specs.Limits.{standard};

/// The bytes that one file of a table may have, and all of them together, and the rows that a node table and a
/// relationship table may have.
#[derive(Clone, Copy, Debug, PartialEq, Eq)]
pub struct Limits {
    /// Bytes of the file of a table.
    pub file_bytes: u32,
    /// Bytes of the files of all tables together; a file that two lines name counts twice.
    pub total_bytes: u32,
    /// Rows of a node table.
    pub nodes: u32,
    /// Rows of a relationship table.
    pub rels: u32,
}

impl Limits {
    /// The limits of the format, which no others pass: 256 MiB and 512 MiB, 16,777,216 nodes and 33,554,432
    /// relationships.
    pub fn standard() -> Limits
        ensures { result ≡ standard }
    {
        Limits {
            file_bytes: 268_435_456,
            total_bytes: 536_870_912,
            nodes: 16_777_216,
            rels: 33_554_432,
        }
    }
}
