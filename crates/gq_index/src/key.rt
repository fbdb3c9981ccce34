//! A row with its number, as one number.
ghost use Rattle.std.specs.Prelude.{◌≡◌};
ghost use Rattle.gq_index.specs.Numbered.{key_of};

/// A row with its number.
pub(crate) fn key_of(number: u64, row: u64) -> u128
    ensures { result ≡ key_of number row }
{
    u128::from(number) * 18_446_744_073_709_551_616 + u128::from(row)
}
