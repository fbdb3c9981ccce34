//! How many rows may be kept.
ghost use Rattle.std.specs.Prelude.{◌≡◌, ◌<◌, ◌≤◌, false, true};

/// Whether one more row may be kept behind so many, where at most so many may be.
pub fn may_keep(count: usize, limit: u32) -> bool
    ensures yes { result ≡ true → count < limit }
    ensures no { result ≡ false → limit ≤ count }
{
    count < limit as usize
}
