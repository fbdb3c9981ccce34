//! The values that a query can spell.
ghost use Rattle.std.specs.Prelude.{◌≡◌};
ghost use Rattle.gq_base.specs.Values.{val, literal_val};

use crate::memory::Memory;
use crate::text::Text;
use crate::try_clone::TryClone;
use crate::value::Value;
use std::alloc::Global;

/// A literal of a query.
#[derive(Debug, Drop, PartialEq, Eq)]
pub enum Literal {
    /// `null`.
    Null,
    /// `true` or `false`.
    Flag(bool),
    /// An integer of 64 signed bits.
    Int(i64),
    /// A string, its escapes already taken.
    Str(Text),
}

impl Literal {
    /// The value that it spells.
    pub fn value(&self) -> Value<'_>
        ensures { val result ≡ literal_val self.now }
    {
        match self {
            Literal::Null => Value::Null,
            Literal::Flag(flag) => Value::Flag(*flag),
            Literal::Int(number) => Value::Int(*number),
            Literal::Str(text) => Value::Str(text.as_str()),
        }
    }
}

impl TryClone for Literal {
    fn try_clone(&self, alloc: Global) -> Result<Literal, Memory> {
        match self {
            Literal::Null => Ok(Literal::Null),
            Literal::Flag(flag) => Ok(Literal::Flag(*flag)),
            Literal::Int(number) => Ok(Literal::Int(*number)),
            Literal::Str(text) => Ok(Literal::Str(text.try_clone(alloc)?)),
        }
    }
}
