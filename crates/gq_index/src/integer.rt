//! A number for each integer.
ghost use Rattle.std.specs.Prelude.{◌≡◌};
ghost use Rattle.gq_index.specs.Integers.{number_of};

/// The number of an integer; no two integers have one.
pub fn number_of(value: i64) -> u64
    ensures { result ≡ number_of value }
{
    if value < 0 {
        2 * (value.unsigned_abs() - 1) + 1
    } else {
        2 * value.unsigned_abs()
    }
}
