//! The slot of a key, which depends on the key alone.
ghost use Rattle.std.specs.Prelude.{◌≡◌, ◌<◌};
ghost use Rattle.gq_base.specs.Values.{val};
ghost use Rattle.gq_tables.specs.steps.Slots.{hash_of, hash_text, slot_of};

use gq_base::Value;

// Of FNV-1a, 64 bits.
const BASIS: u64 = 0xcbf2_9ce4_8422_2325;

const PRIME: u64 = 0x0100_0000_01b3;

/// The slot of a key, of so many slots. At most `count` integers of one sign that follow one another by a step without
/// a divisor in common with `count` have slots of their own.
pub(crate) fn slot_of(key: &Value<'_>, count: usize) -> usize
    requires { 0 < count }
    ensures slot { result ≡ slot_of count (val key.now) }
    ensures within { result < count }
{
    (hash_of(key) % count as u64) as usize
}

fn hash_of(key: &Value<'_>) -> u64
    ensures { result ≡ hash_of (val key.now) }
{
    match key {
        Value::Int(value) => value.unsigned_abs(),
        Value::Str(text) => hash_text(text.as_bytes()),
        Value::Flag(value) => u64::from(*value),
        Value::Null | Value::Node(_) | Value::Rel(_) => 0,
    }
}

fn hash_text(text: &[u8]) -> u64
    ensures { result ≡ hash_text text.now }
{
    text.iter().fold(BASIS, |hash, byte| {
        (hash ^ u64::from(*byte)).wrapping_mul(PRIME)
    })
}
