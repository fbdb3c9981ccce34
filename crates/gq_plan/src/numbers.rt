//! A number among others.
ghost use Rattle.std.specs.Prelude.{◌≡◌};
ghost use Rattle.gq_plan.specs.Soundness as soundness;

/// Whether a number stands among others.
pub fn has_number(numbers: &[u32], number: usize) -> bool
    ensures { result ≡ soundness.has_number numbers.now number }
{
    numbers.iter().any(|own| *own as usize == number)
}
