//! Counts as numbers of 32 bits.
ghost use Rattle.std.specs.Prelude.{◌≡◌, suc, IfOk};

use gq_base::Memory;

/// A count as a number of 32 bits. So many parts as do not fit do not fit in memory either.
pub fn number(count: usize) -> Result<u32, Memory>
    ensures { IfOk result (λ n. n ≡ count) }
{
    if count > 4_294_967_295 {
        return Err(Memory::Limit);
    }
    Ok(count as u32)
}

/// The number after another.
pub fn next(number: u32) -> Result<u32, Memory>
    ensures { IfOk result (λ n. n ≡ suc number) }
{
    if number == 4_294_967_295 {
        return Err(Memory::Limit);
    }
    Ok(number + 1)
}
