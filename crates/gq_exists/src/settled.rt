//! Which variables have the same node in all choices of a chunk, and where the first one lives.
ghost use Rattle.std.specs.Prelude.{◌≡◌, ◌<◌, ℕ, IfSome, true};
ghost use Rattle.gq_exists.specs.steps.Settled.{IsFlat, IsItem, IsSettled};

use gq_group::{Chunk, NodeHome};

/// Whether the first variables each have the same node in all choices. It may say no where they
/// have.
pub(crate) fn are_settled(chunk: &Chunk<'_, '_>, count: u32) -> bool
    ensures { result ≡ true → (v : ℕ) → v < count → IsSettled chunk.now v }
{
    'variables: for variable in 0..count {
        if !is_settled(chunk, variable) {
            return false;
        }
    }
    true
}

// The same of one variable: it is not bound, or lives in a flat group.
fn is_settled(chunk: &Chunk<'_, '_>, variable: u32) -> bool
    ensures { result ≡ true → IsSettled chunk.now variable }
{
    match chunk.homes().nodes.get(variable as usize) {
        None => true,
        Some(NodeHome::Nowhere) => true,
        Some(NodeHome::Item { group }) => is_flat(chunk, *group),
        Some(NodeHome::Column { group, .. }) => is_flat(chunk, *group),
    }
}

// Whether a group has a current position.
fn is_flat(chunk: &Chunk<'_, '_>, group: u32) -> bool
    ensures { result ≡ true → IsFlat chunk.now group }
{
    match chunk.groups().get(group as usize) {
        None => false,
        Some(group) => group.current().is_some(),
    }
}

/// The group in whose items the first variable lives, if it lives in items.
pub(crate) fn item_group(chunk: &Chunk<'_, '_>) -> Option<u32>
    ensures { IfSome result (IsItem chunk.now) }
{
    match chunk.homes().nodes.get(0) {
        None => None,
        Some(NodeHome::Nowhere) => None,
        Some(NodeHome::Item { group }) => Some(*group),
        Some(NodeHome::Column { .. }) => None,
    }
}
