//! What the first token of a production says of the rest.

use gq_base::TextTest;

/// The first word of a test.
#[derive(Clone, Copy, Debug, PartialEq, Eq)]
pub enum TestWord {
    Is,
    In,
    Text(TextTest),
}

/// The first sign of a relationship.
#[derive(Clone, Copy, Debug, PartialEq, Eq)]
pub struct Tip {
    /// Whether it is `<`, and not `-`.
    pub left: bool,
    /// The place of its byte in the text.
    pub at: u32,
}
