//! Which texts of a dictionary have a part, by one search over the bytes of many texts: each place that is found is put
//! to the text that it begins in, and is none where it ends in another. Behind either none is left in that text.
ghost use Rattle.std.specs.Prelude.{◌≡◌, ◌+◌, ◌-◌, ◌<◌, ◌≤◌, ℕ, length};
ghost use Rattle.gq_bits.specs.Places.{is_marked};
ghost use Rattle.gq_dict.specs.Texts.{start_of, text_at};
ghost use Rattle.gq_expr.specs.Operators.{occurs};

use gq_bits::{Marks, VECTOR};
use gq_dict::Dict;
use memchr::memmem::Finder;

/// Which of the texts from one code on have a part, which is not empty.
pub(crate) fn found_marks(dict: &Dict, part: &Finder<'_>, low: u32, high: u32) -> Marks
    requires ordered { low ≤ high }
    requires few { high - low ≤ VECTOR }
    requires inside { high ≤ length dict.now }
    requires part { 0 < length part.now }
    ensures { (k : ℕ) → k < high - low
        → is_marked result k ≡ occurs (text_at dict.now (low + k)) part.now }
{
    let bytes = dict.bytes();
    let end = dict.start(high);
    let mut marks = Marks::first(0);
    let mut code = low;
    let mut from = dict.start(low);
    while from < end {
        let Some(place) = part.find(&bytes[from..end]) else {
            return marks;
        };
        let hit = from + place;
        code = code_at(dict, code, high, hit);
        if part.needle().len() <= dict.start(code + 1) - hit {
            marks.set(code - low, true);
        }
        code += 1;
        from = dict.start(code);
    }
    marks
}

// The code of the text that has a byte, from a code on.
fn code_at(dict: &Dict, from: u32, high: u32, place: usize) -> u32
    requires ordered { from ≤ high }
    requires inside { high ≤ length dict.now }
    requires begun { start_of dict.now from ≤ place }
    requires within { place < start_of dict.now high }
    ensures from { from ≤ result }
    ensures high { result < high }
    ensures begins { start_of dict.now result ≤ place }
    ensures ends { place < start_of dict.now (result + 1) }
{
    let mut code = from;
    while dict.start(code + 1) <= place {
        code += 1;
    }
    code
}
