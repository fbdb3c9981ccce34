//! Values, how they compare, and the order that they stand in.
ghost use Rattle.std.specs.Prelude.{◌≡◌, Some};
ghost use Rattle.std.specs.Ordering.{is_eq};
ghost use Rattle.std.specs.Cmp.{IsTotalOrder, on_per, on_equiv, on_po, on_total, eq_by_cmp_equiv};
ghost use Rattle.std.specs.Cmp.{partial_equiv_from_equiv, partial_order_from_total};
ghost use Rattle.std.proofs.Common.{refl, ap};
ghost use Rattle.gq_base.specs.ValueLaws.{order_vals_total, same_val};
ghost use Rattle.gq_base.specs.Values.{val, val_hash, order_vals, less_vals, equal_vals, kind_rank};

use std::cmp::Ordering;
use std::hash::{Hash, Hasher};

/// A node: a row of a node table, both counted from 0.
#[derive(Clone, Copy, Debug, PartialEq, Eq)]
pub struct NodeId {
    pub table: u32,
    pub row: u32,
}

/// A relationship: a load number of a relationship table, both counted from 0.
#[derive(Clone, Copy, Debug, PartialEq, Eq)]
pub struct RelId {
    pub table: u32,
    pub row: u32,
}

/// A value of a graph, whose text is borrowed.
#[derive(Clone, Copy, Debug)]
pub enum Value<'v> {
    Null,
    Flag(bool),
    Int(i64),
    Str(&'v str),
    Node(NodeId),
    Rel(RelId),
}

/// The ascending order of values: node, relationship, string, boolean, number, null.
pub fn order_of(a: &Value<'_>, b: &Value<'_>) -> Ordering
    ensures { result ≡ order_vals (val a.now) (val b.now) }
{
    match (*a, *b) {
        (Value::Node(m), Value::Node(n)) => m.table.cmp(&n.table).then(m.row.cmp(&n.row)),
        (Value::Rel(m), Value::Rel(n)) => m.table.cmp(&n.table).then(m.row.cmp(&n.row)),
        (Value::Str(s), Value::Str(t)) => s.cmp(t),
        (Value::Flag(x), Value::Flag(y)) => x.cmp(&y),
        (Value::Int(x), Value::Int(y)) => x.cmp(&y),
        (x, y) => rank(&x).cmp(&rank(&y)),
    }
}

fn rank(a: &Value<'_>) -> u8
    ensures { result ≡ kind_rank (val a.now) }
{
    match a {
        Value::Node(_) => 0,
        Value::Rel(_) => 1,
        Value::Str(_) => 2,
        Value::Flag(_) => 3,
        Value::Int(_) => 4,
        Value::Null => 5,
    }
}

/// Whether two values are the same, where null is the same as null.
pub fn same(a: &Value<'_>, b: &Value<'_>) -> bool
    ensures { result ≡ is_eq (order_vals (val a.now) (val b.now)) }
{
    order_of(a, b) == Ordering::Equal
}

/// The operator `=`; `None` stands for null, which a null operand gives.
pub fn equal3(a: &Value<'_>, b: &Value<'_>) -> Option<bool>
    ensures { result ≡ equal_vals (val a.now) (val b.now) }
{
    match (*a, *b) {
        (Value::Null, _) | (_, Value::Null) => None,
        (x, y) => Some(same(&x, &y)),
    }
}

/// The operator `<`; `None` stands for null, which all give but two booleans, two integers or two
/// strings.
pub fn less3(a: &Value<'_>, b: &Value<'_>) -> Option<bool>
    ensures { result ≡ less_vals (val a.now) (val b.now) }
{
    match (*a, *b) {
        (Value::Flag(x), Value::Flag(y)) => Some(!x && y),
        (Value::Int(x), Value::Int(y)) => Some(x < y),
        (Value::Str(s), Value::Str(t)) => Some(s < t),
        _ => None,
    }
}

// `==` is sameness, so that values serve as keys.
impl PartialEq for Value<'_> {
    ghost eq = { λ x y. is_eq (order_vals (val x) (val y)) };

    ghost laws = { on_per val (partial_equiv_from_equiv (eq_by_cmp_equiv order_vals_total)) };

    fn eq(&self, other: &Self) -> bool {
        same(self, other)
    }
}

impl Eq for Value<'_> {
    ghost laws = { on_equiv val (eq_by_cmp_equiv order_vals_total) };
}

impl PartialOrd for Value<'_> {
    ghost partial_cmp = { λ x y. Some (order_vals (val x) (val y)) };

    ghost laws = { on_po val (partial_order_from_total order_vals_total) };

    fn partial_cmp(&self, other: &Self) -> Option<Ordering> {
        Some(order_of(self, other))
    }
}

impl Ord for Value<'_> {
    ghost cmp = { λ x y. order_vals (val x) (val y) };

    ghost total = { on_total val order_vals_total };

    ghost matches_partial_cmp = { λ x y. refl };

    ghost matches_eq = { λ x y. refl };

    fn cmp(&self, other: &Self) -> Ordering {
        order_of(self, other)
    }
}

impl Hash for Value<'_> {
    ghost hash_input = { λ v. val_hash (val v) };

    ghost respects_eq = { λ x y e. ap val_hash (same_val (val x) (val y) e) };

    fn hash<H: Hasher>(&self, state: &mut H) {
        rank(self).hash(state);
        match self {
            Value::Null => {}
            Value::Flag(b) => b.hash(state),
            Value::Int(n) => n.hash(state),
            Value::Str(s) => s.hash(state),
            Value::Node(n) => {
                n.table.hash(state);
                n.row.hash(state);
            }
            Value::Rel(r) => {
                r.table.hash(state);
                r.row.hash(state);
            }
        }
    }
}
