//! Copies between a list of bytes and a piece.

ghost use Rattle.std.specs.Prelude.{◌≡◌, ◌+◌, ◌≤◌, ◌++◌, min, length, take, ◌-◌};
ghost use Rattle.gq_io.specs.steps.Held.{Copies};

/// Copies what fits of the bytes from `at` on, and at most `most`.
pub(crate) fn copy_from(all: &[u8], at: usize, most: usize, into: &mut [u8]) -> usize
    ensures { Copies all.now at result most into.new }
{
    if at >= all.len() {
        return 0;
    }
    let count = (all.len() - at).min(into.len()).min(most);
    into[..count].copy_from_slice(&all[at..at + count]);
    count
}

/// Copies the front of the piece that fits from `at` on, and at most `most`.
pub(crate) fn copy_to(buffer: &mut [u8], at: usize, most: usize, piece: &[u8]) -> usize
    requires { at ≤ length buffer.old }
    ensures count { result ≡ min (min (length buffer.old - at) (length piece.now)) most }
    ensures bytes { take (at + result) buffer.new ≡ take at buffer.old ++ take result piece.now }
{
    let count = (buffer.len() - at).min(piece.len()).min(most);
    buffer[at..at + count].copy_from_slice(&piece[..count]);
    count
}

/// Copies a piece into a place of its length, a short one by copies of a fixed length, which take no
/// call.
#[inline(always)]
pub(crate) fn copy_whole(place: &mut [u8], piece: &[u8])
    requires { length place.old ≡ length piece.now }
    ensures { place.new ≡ piece.now }
{
    match piece.len() {
        0 => {}
        1 => copy_ends(place, piece, 1),
        2..=4 => copy_ends(place, piece, 2),
        5..=8 => copy_ends(place, piece, 4),
        9..=16 => copy_ends(place, piece, 8),
        _ => place.copy_from_slice(piece),
    }
}

// Copies the first bytes and then the last ones, so many each. Together they are the piece.
#[inline(always)]
fn copy_ends(place: &mut [u8], piece: &[u8], count: usize)
    requires same { length place.old ≡ length piece.now }
    requires fits { count ≤ length piece.now }
    requires whole { length piece.now ≤ count + count }
    ensures { place.new ≡ piece.now }
{
    let last = piece.len() - count;
    place[..count].copy_from_slice(&piece[..count]);
    place[last..].copy_from_slice(&piece[last..]);
}
