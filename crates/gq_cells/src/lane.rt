//! Values that are read at once.
ghost use Rattle.std.specs.Prelude.{◌≡◌, false};

use gq_base::Value;

/// At most 64 values: integers, each as itself, or any values.
#[derive(Clone, Copy)]
pub struct Lane<'g> {
    /// Whether they are the integers, and not the values.
    pub has_integers: bool,
    pub integers: [i64; 64],
    pub values: [Value<'g>; 64],
}

impl<'g> Lane<'g> {
    /// A lane into which nothing was read.
    pub fn new() -> Lane<'g>
        ensures { result.has_integers ≡ false }
    {
        Lane {
            has_integers: false,
            integers: [0; 64],
            values: [Value::Null; 64],
        }
    }
}
