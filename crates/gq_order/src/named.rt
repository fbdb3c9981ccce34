//! The orders of plans that there are, each by its name.

ghost use Rattle.std.specs.Prelude.{◌≡◌, IfNone, IfSome};
ghost use Rattle.gq_order.specs.Named.{has_costs, name_of};

/// The order in which a plan takes the parts of a pattern. It changes no answer but where too many
/// rows are kept of a part.
#[derive(Clone, Copy, Debug, PartialEq, Eq)]
pub enum Order {
    /// Path by path, in text order.
    Given,
    /// One connected component after another, each by the sizes of the tables.
    Greedy,
    /// The same components, each in an order of least cost, as estimated by the sizes of the tables.
    Least,
}

impl Order {
    /// All of them.
    pub const ALL: [Order; 3] = [Order::Given, Order::Greedy, Order::Least];

    /// What it is called.
    pub fn name(self) -> &'static str
        ensures { result.now ≡ name_of self }
    {
        match self {
            Order::Given => "given",
            Order::Greedy => "greedy",
            Order::Least => "least",
        }
    }

    /// The order of this name, or `None` where none is called so.
    pub fn named(name: &str) -> Option<Order>
        ensures some { IfSome result (λ order. name.now ≡ name_of order) }
        ensures none { IfNone result ((order : Order) → ¬ (name.now ≡ name_of order)) }
    {
        match name {
            "given" => Some(Order::Given),
            "greedy" => Some(Order::Greedy),
            "least" => Some(Order::Least),
            _ => None,
        }
    }

    /// Whether its plans state what they cost.
    pub fn has_costs(self) -> bool
        ensures { result ≡ has_costs self }
    {
        match self {
            Order::Given => false,
            Order::Greedy => false,
            Order::Least => true,
        }
    }
}
